// One round over the atoms of a list, 01 "Rounds", and what it works on: lists of atoms, the slots of the table and the signs in them.
// The table of forms is lent as three slices; the variables' turns are taken on one board, which is lent down.

#![tactic(auto)]

use table::Atoms;
use terms::Board;

pub mod list; // lists of atoms
pub mod slots; // the slots of the table, and the signs in them
pub mod round; // one round
pub mod lent; // its turns, on a board that is lent

// What the rounds work on: the board, and the atoms that are no variable's.
#[derive(Clone, Copy)]
pub struct State {
    pub board: Board,
    pub atoms: Atoms,
}
