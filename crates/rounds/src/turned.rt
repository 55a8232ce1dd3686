// Rounds that cut no atom, counted on the board alone: the variables' turns, round by round in document 01's order, on the board that is lent them, and
// after a round that leaves the board the search over pairs for a variable (02, #111). So are step 5's fresh runs, and step 3's run where its atoms have
// their settled sets from the start (crate count_laws).
ghost use Rattle.std.specs.Prelude.{◌≡◌, ◌+◌, ◌<◌, max};
ghost use Rattle.rules.specs.Rounds.{enough as enough_of};
ghost use Rattle.count_laws.specs.Boards.{turned_rounds};
ghost use Rattle.terms.specs.View.{sets_of};
ghost use Rattle.table.specs.Table.{Forms, atoms_of};
ghost use Rattle.round.specs.Views.{lent_table, state_of};
ghost use Rattle.round.specs.Signing.{Ready};
ghost use Rattle.rounds.specs.Bounded.{BoundedBy};
ghost use Rattle.rounds.specs.Turned.{TurnedOn};

use crate::counting::{larger, within};
use crate::settle::same_sets;
use round::State;
use round::lent::after_turns;
use round::list::many;
use round::slots::sign_list;
use search::variables::{OfBoard, search_board};
use table::Atoms;
use terms::{Board, few};

// A round of turns, none of which goes below the floor: the board that it left, if it changed anything; else what a pair finds of a variable on it,
// if one does.
fn turned_round(
    coefficient: &[i32],
    monomial: &[u64],
    terms: &[u8],
    sign: &mut [u8],
    board: Board,
    atoms: Atoms,
    floor: Board,
) -> OfBoard
    requires { let t = lent_table coefficient monomial terms board.variables in
        Ready t (sets_of board) atoms sign.old × BoundedBy t (record { board = board; atoms = atoms }) floor }
    ensures { let t = lent_table coefficient.entry monomial.entry terms.entry board.variables in
        TurnedOn t atoms board floor result sign.new }
{
    let next = after_turns(coefficient, monomial, terms, sign, board, atoms, floor);
    let old = board.sets;
    let new = next.sets;
    if !same_sets(&old, &new, few(board.variables)) {
        return OfBoard {
            found: true,
            board: next,
        };
    }
    let searched = search_board(coefficient, monomial, terms, sign, next, atoms, floor);
    let left = searched.board;
    sign_list(left, monomial, terms, atoms, sign);
    OfBoard {
        found: searched.found,
        board: left,
    }
}

// The larger of the largest number so far and that of the rounds of a run that has begun so many before and goes on from a state. The run is left where
// its bound from the board at hand is no more than the largest number.
pub fn turned_largest(
    coefficient: &[i32],
    monomial: &[u64],
    terms: &[u8],
    start: State,
    floor: Board,
    before: usize,
    largest: usize,
) -> usize
    requires { let t = lent_table coefficient monomial terms start.board.variables in
        Forms t × (BoundedBy t start floor × (before < 100)) }
    ensures { let t = lent_table coefficient.entry monomial.entry terms.entry start.board.variables in
        result ≡ max largest (before + turned_rounds start.board.variables (atoms_of t start.atoms) (enough_of (state_of t start)) (sets_of start.board)) }
{
    let board = start.board;
    let atoms = start.atoms;
    if within(board, floor, before, largest) {
        return largest;
    }
    let enough = 2 * (board.variables + many(atoms.count)) + 1;
    let mut sign = [0u8; 1280];
    sign_list(board, monomial, terms, atoms, &mut sign);
    let mut stood = board;
    for ended in 0..enough {
        let begun = before + ended + 1;
        let onward = turned_round(coefficient, monomial, terms, &mut sign, stood, atoms, floor);
        if !onward.found {
            return larger(largest, begun);
        }
        stood = onward.board;
        if within(stood, floor, begun, largest) {
            return largest;
        }
    }
    larger(largest, before + enough)
}
