// The common run itself: rounds that cut no atom, until one leaves the board as it was. It has ended there if no pair of its atoms finds anything then.
ghost use Rattle.std.specs.Prelude.{◌≡◌, true};
ghost use Rattle.count_laws.specs.Onward.{NoPair};
ghost use Rattle.terms.specs.View.{sets_of};
ghost use Rattle.table.specs.Table.{Forms, atoms_of};
ghost use Rattle.round.specs.Views.{lent_table};
ghost use Rattle.round.specs.Signing.{Ready};
ghost use Rattle.rounds.specs.Afresh.{AboveFloor};
ghost use Rattle.common_run.specs.Turning.{Floored};
ghost use Rattle.common_run.specs.Run.{CommonOf};

use crate::boards::{Boards, no_boards, stored};
use crate::marks::{BothMarks, no_marks_at_all};
use crate::turning::turns_marking;
use round::State;
use round::slots::sign_list;
use rounds::counting::within;
use rounds::settle::same_sets;
use search::variables::search_board;
use table::Atoms;
use terms::{Board, few};

// How many rounds were begun, the board at the start of each, and which atoms their cuts rest on and need, if the run is known; whether it has ended,
// and whether it is one over all atoms that remain: none has gone since it was made.
// kept: a flag beside values, no Option: the public contracts (specs/Known, specs/Run) name its fields, and stay as they are.
#[derive(Clone, Copy)]
pub struct Common {
    pub known: bool,
    pub ended: bool,
    pub whole: bool,
    pub rounds: usize,
    pub boards: Boards,
    pub marks: BothMarks,
}

// No run is known.
pub fn unknown() -> Common
    ensures { result.known ≡ true → ⊥ }
{
    Common {
        known: false,
        ended: false,
        whole: false,
        rounds: 0,
        boards: no_boards(),
        marks: no_marks_at_all(),
    }
}

// Whether no pair of the atoms finds anything of a variable on a board above the floor.
fn no_pair(
    coefficient: &[i32],
    monomial: &[u64],
    terms: &[u8],
    sign: &[u8],
    state: State,
    floor: Board,
) -> bool
    requires { let t = lent_table coefficient monomial terms state.board.variables in
        Ready t (sets_of state.board) state.atoms sign.now × AboveFloor t state floor }
    ensures { let t = lent_table coefficient.entry monomial.entry terms.entry state.board.variables in
        (result ≡ true → NoPair state.board.variables (atoms_of t state.atoms) (sets_of state.board)) }
{
    let board = state.board;
    let atoms = state.atoms;
    let searched = search_board(coefficient, monomial, terms, sign, board, atoms, floor);
    !searched.found
}

// From a start above the floor. It is left where its bound falls to the largest number so far, which is the bound of each run without an atom that no
// cut rests on, too. A run of more than forty rounds is left unknown; none takes so many.
pub fn marking_run(
    coefficient: &[i32],
    monomial: &[u64],
    terms: &[u8],
    start: State,
    floor: Board,
    largest: usize,
) -> Common
    requires { let t = lent_table coefficient monomial terms start.board.variables in
        Forms t × (AboveFloor t start floor × Floored t start.atoms start.board floor) }
    ensures { let t = lent_table coefficient.entry monomial.entry terms.entry start.board.variables in
        (result.known ≡ true → CommonOf t start result) }
{
    let board = start.board;
    let atoms = start.atoms;
    let mut sign = [0u8; 1280];
    sign_list(board, monomial, terms, atoms, &mut sign);
    let mut stood = board;
    let mut boards = no_boards();
    let mut marks = no_marks_at_all();
    for round in 0..40u8 {
        boards = stored(boards, stood, round as usize);
        if within(stood, floor, round as usize, largest) {
            return Common {
                known: true,
                ended: false,
                whole: true,
                rounds: round as usize + 1,
                boards,
                marks,
            };
        }
        let turned = turns_marking(
            coefficient,
            monomial,
            terms,
            &mut sign,
            stood,
            atoms,
            marks,
            round + 1,
            floor,
        );
        let next = turned.board;
        marks = turned.marks;
        let old = stood.sets;
        let new = next.sets;
        if same_sets(&old, &new, few(stood.variables)) {
            let last = State { board: next, atoms };
            let ended = no_pair(coefficient, monomial, terms, &sign, last, floor);
            return Common {
                known: true,
                ended,
                whole: true,
                rounds: round as usize + 1,
                boards,
                marks,
            };
        }
        stood = next;
    }
    unknown()
}
