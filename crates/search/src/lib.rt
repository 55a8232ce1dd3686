// Request #111, "Two atoms at once": the search over pairs of atoms that follows a round that changes nothing.
// The first finding that changes a set is the one that counts: of x_1 .. x_n, then of each atom in list order.

#![tactic(auto)]

ghost use Rattle.terms.specs.View.{sets_of};
ghost use Rattle.table.specs.Table.{Forms};
ghost use Rattle.round.specs.Views.{lent_table};
ghost use Rattle.search.specs.Filled.{Filled};
ghost use Rattle.search.specs.Search.{SearchedState};

use crate::atoms::search_atoms;
use crate::variables::{no_floor, search_board};
use round::State;
use round::slots::sign_list;

pub mod masked; // the words by which pairs are left out
pub mod noted; // and their columns, by which many are left out at once
pub mod falling; // whether the monomials of the forms fall
pub mod words; // all of these, once for a list
pub mod silent; // a list in which an atom has no tries
pub mod pairs; // what all pairs of a list leave of a set
pub mod variables; // the search over the variables
pub mod atoms; // the search over the atoms

// Whether a pair found something, and the state that this leaves.
// kept: a public type, whose parts the contracts and the crates above name; what is left is there also where nothing was found.
#[derive(Clone, Copy)]
pub struct Found {
    pub found: bool,
    pub state: State,
}

pub fn search(coefficient: &[i32], monomial: &[u64], terms: &[u8], state: State) -> Found
    requires { Forms (lent_table coefficient monomial terms state.board.variables) × Filled (sets_of state.board) }
    ensures { SearchedState (lent_table coefficient.entry monomial.entry terms.entry state.board.variables) state result }
{
    let board = state.board;
    let atoms = state.atoms;
    let mut sign = [0u8; 1280];
    sign_list(board, monomial, terms, atoms, &mut sign);
    let of_board = search_board(
        coefficient,
        monomial,
        terms,
        &sign,
        board,
        atoms,
        no_floor(board),
    );
    if of_board.found {
        let narrowed = of_board.board;
        return Found {
            found: true,
            state: State {
                board: narrowed,
                atoms,
            },
        };
    }
    let of_atoms = search_atoms(coefficient, monomial, terms, &sign, board, atoms);
    let cut = of_atoms.atoms;
    Found {
        found: of_atoms.found,
        state: State { board, atoms: cut },
    }
}
