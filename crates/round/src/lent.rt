// The variables' turns on a board that is lent, 01 "Rounds": "One board of n sign sets is lent down and narrowed where it stands."
// `after_turns` owns the board and lends it to `turns`, that lends it on to each variable's `turn`, which stores there what the step left.
ghost use Rattle.std.specs.Prelude.{◌≡◌, ◌<◌};
ghost use Rattle.rules.specs.Rounds.{turn as turn_of, turns as turns_of};
ghost use Rattle.terms.specs.View.{sets_of};
ghost use Rattle.table.specs.Table.{atoms_of};
ghost use Rattle.turn_laws.specs.AfterTurns.{Floor};
ghost use Rattle.round.specs.Views.{lent_table};
ghost use Rattle.round.specs.Signing.{Ready};
ghost use Rattle.round.specs.Floors.{FloorAt};
ghost use Rattle.round.specs.Round.{Turned};

use crate::round::turned;
use table::Atoms;
use terms::Board;

// Variable i's turn: the board is taken up, and what the step leaves is put back where it stood.
fn turn(
    coefficient: &[i32],
    monomial: &[u64],
    terms: &[u8],
    sign: &mut [u8],
    board: &mut Board,
    atoms: Atoms,
    i: usize,
    floor: Board,
)
    requires { let t = lent_table coefficient monomial terms board.old.variables in
        (Ready t (sets_of board.old) atoms sign.old × (i < board.old.variables)) × FloorAt t atoms board.old floor i }
    ensures { let b = board.old in
        let t = lent_table coefficient.entry monomial.entry terms.entry b.variables in
        Turned t atoms (turn_of b.variables (atoms_of t atoms) (sets_of b) i) board.new sign.new }
{
    let stood = *board;
    let left = turned(coefficient, monomial, terms, sign, stood, atoms, i, floor);
    *board = left;
}

// The turns of all variables, in order, on the one board. None of them goes below the floor.
fn turns(
    coefficient: &[i32],
    monomial: &[u64],
    terms: &[u8],
    sign: &mut [u8],
    board: &mut Board,
    atoms: Atoms,
    floor: Board,
)
    requires { let b = board.old in
        let t = lent_table coefficient monomial terms b.variables in
        Ready t (sets_of b) atoms sign.old
        × ((floor.variables ≡ b.variables) × Floor b.variables (atoms_of t atoms) (sets_of b) (sets_of floor)) }
    ensures { let b = board.old in
        let t = lent_table coefficient.entry monomial.entry terms.entry b.variables in
        Turned t atoms (turns_of b.variables (atoms_of t atoms) (sets_of b) 0 b.variables) board.new sign.new }
{
    let n = board.variables;
    for i in 0..n {
        turn(coefficient, monomial, terms, sign, board, atoms, i, floor);
    }
}

// The board after the turns of all variables. Whoever calls this lends no board.
pub fn after_turns(
    coefficient: &[i32],
    monomial: &[u64],
    terms: &[u8],
    sign: &mut [u8],
    board: Board,
    atoms: Atoms,
    floor: Board,
) -> Board
    requires { let t = lent_table coefficient monomial terms board.variables in
        Ready t (sets_of board) atoms sign.old
        × ((floor.variables ≡ board.variables) × Floor board.variables (atoms_of t atoms) (sets_of board) (sets_of floor)) }
    ensures { let t = lent_table coefficient.entry monomial.entry terms.entry board.variables in
        Turned t atoms (turns_of board.variables (atoms_of t atoms) (sets_of board) 0 board.variables) result sign.new }
{
    let mut lent = board;
    turns(coefficient, monomial, terms, sign, &mut lent, atoms, floor);
    lent
}
