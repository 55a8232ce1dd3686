// Where the rounds over a list are begun: its start, narrowed by turns of the variables ahead of them, 01 "Rounds". What the rounds come to is the same.
// Over atoms that carry the sets of a settled state no atom's set is cut, so that the turns, and what pairs of atoms find of variables above the settled
// board (02, #111), are the whole of the rounds (crate turn_laws).
ghost use Rattle.std.specs.Prelude.{◌≡◌, length};
ghost use Rattle.rules.specs.Rounds.{start as start_of};
ghost use Rattle.terms.specs.View.{sets_of};
ghost use Rattle.table.specs.Table.{Forms, atoms_of};
ghost use Rattle.turn_laws.specs.AfterTurns.{Floor};
ghost use Rattle.round.specs.Views.{lent_table};
ghost use Rattle.rounds.specs.Run.{NarrowedStart, SettledStart, RunOf};
ghost use Rattle.rounds.specs.Afresh.{AfreshFrom, AboveFloor};
ghost use Rattle.rounds.specs.Turned.{Settling};

use crate::Ran;
use crate::settle::rounds;
use crate::start::start;
use ahead::{Order, Passed, ahead};
use round::State;
use search::variables::search_board;
use table::Atoms;
use terms::Board;

// The narrowed start, whether no variable's turn would narrow it further, and the variables whose turns narrowed it.
#[derive(Clone, Copy)]
pub struct Beginning {
    pub still: bool,
    pub state: State,
    pub order: Order,
}

// What fresh rounds come to, and the variables whose turns narrowed their start.
#[derive(Clone, Copy)]
pub struct Fresh {
    pub ran: Ran,
    pub order: Order,
}

// The start of a list, narrowed. No turn goes below the sets of the floor; those of the order come first.
pub fn narrowed(
    coefficient: &[i32],
    monomial: &[u64],
    terms: &[u8],
    variables: usize,
    list: Atoms,
    floor: Board,
    order: Order,
) -> Beginning
    requires { let t = lent_table coefficient monomial terms variables in
        let st = start_of variables (atoms_of t list) in
        Forms t × ((floor.variables ≡ variables) × Floor variables st.atoms st.board (sets_of floor)) }
    ensures { NarrowedStart (lent_table coefficient.entry monomial.entry terms.entry variables) list result }
{
    let first = start(coefficient, monomial, terms, variables, list);
    let board = first.board;
    let atoms = first.atoms;
    let mut sign = [0u8; 1280];
    let passed = ahead(
        coefficient,
        monomial,
        terms,
        &mut sign,
        board,
        atoms,
        floor,
        order,
    );
    Beginning {
        still: passed.still,
        state: State {
            board: passed.board,
            atoms,
        },
        order: passed.order,
    }
}

// Turns of the variables, and where they are still what a pair finds of a variable, until neither changes a set, or until as many findings are made as
// a board of so many variables can change its sets.
fn settling(
    coefficient: &[i32],
    monomial: &[u64],
    terms: &[u8],
    sign: &mut [u8],
    board: Board,
    atoms: Atoms,
    floor: Board,
    order: Order,
) -> Passed
    requires forms { let t = lent_table coefficient monomial terms board.variables in
        Forms t × (length sign.old ≡ 1280) }
    requires above_floor { let t = lent_table coefficient monomial terms board.variables in
        AboveFloor t (record { board = board; atoms = atoms }) floor × Floor board.variables (atoms_of t atoms) (sets_of board) (sets_of floor) }
    ensures { let t = lent_table coefficient.entry monomial.entry terms.entry board.variables in
        Settling t atoms board result }
{
    let mut at = board;
    let mut turns = order;
    for _ in 0..2 * board.variables + 1 {
        let passed = ahead(coefficient, monomial, terms, sign, at, atoms, floor, turns);
        if !passed.still {
            return passed;
        }
        let stood = passed.board;
        let so_far = passed.order;
        let searched = search_board(coefficient, monomial, terms, sign, stood, atoms, floor);
        if !searched.found {
            return passed;
        }
        at = searched.board;
        turns = so_far;
    }
    Passed {
        board: at,
        still: false,
        order: turns,
    }
}

// The start of some of the atoms that carry the sets of a settled state, narrowed by turns and by pairs.
fn settled_start(
    coefficient: &[i32],
    monomial: &[u64],
    terms: &[u8],
    variables: usize,
    others: Atoms,
    settled: State,
    order: Order,
) -> Beginning
    requires { let t = lent_table coefficient monomial terms variables in
        Forms t × AfreshFrom t settled (atoms_of t others) }
    ensures { SettledStart (lent_table coefficient.entry monomial.entry terms.entry variables) others result }
{
    let first = start(coefficient, monomial, terms, variables, others);
    let board = first.board;
    let atoms = first.atoms;
    let floor = settled.board;
    let mut sign = [0u8; 1280];
    let passed = settling(
        coefficient,
        monomial,
        terms,
        &mut sign,
        board,
        atoms,
        floor,
        order,
    );
    Beginning {
        still: passed.still,
        state: State {
            board: passed.board,
            atoms,
        },
        order: passed.order,
    }
}

// "rounds run afresh" over some of the atoms that carry the sets of a state that rounds settled in.
pub fn afresh(
    coefficient: &[i32],
    monomial: &[u64],
    terms: &[u8],
    variables: usize,
    others: Atoms,
    settled: State,
    order: Order,
) -> Fresh
    requires { let t = lent_table coefficient monomial terms variables in
        Forms t × AfreshFrom t settled (atoms_of t others) }
    ensures { RunOf (lent_table coefficient.entry monomial.entry terms.entry variables) others result.ran }
{
    let begin = settled_start(
        coefficient,
        monomial,
        terms,
        variables,
        others,
        settled,
        order,
    );
    let state = begin.state;
    let turns = begin.order;
    if begin.still {
        let ran = Ran {
            contradiction: false,
            state,
        };
        return Fresh { ran, order: turns };
    }
    let end = rounds(coefficient, monomial, terms, state);
    let left = end.state;
    let ran = Ran {
        contradiction: end.contradiction,
        state: left,
    };
    Fresh { ran, order: turns }
}
