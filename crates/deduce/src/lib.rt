// Deducing p from q, 01 "Deducing p from q": what an atom of q says of p, on a board of the variables' sign sets.
// p and q are runs of places of lent slices; the sign of each monomial on the board is lent beside them.

#![tactic(auto)]

pub mod last; // one t that is left of L and U
pub mod merge; // L, U and where the strict monomials vanish, from the monomials of p or q
mod alone; // p of one term that q does not have, and that leaves no t
mod found; // what is found from all of them

ghost use Rattle.std.specs.Prelude.{◌≡◌};
ghost use Rattle.rules.specs.Deduce.{any_empty as any_empty_of, deduce as deduce_from_of};
ghost use Rattle.terms.specs.View.{sets_of};
ghost use Rattle.deduce.specs.Runs.{polynomial_of, atom_of, HeldAt, Within, Deduced};

use crate::alone::stands_alone;
use crate::found::found;
use signs::SignSet;
use terms::{Board, few};

// The terms of a polynomial: the places from..to.
#[derive(Clone, Copy)]
pub struct Run {
    pub from: usize,
    pub to: usize,
}

// Whether some variable's set is empty.
pub fn any_empty(board: Board) -> bool
    ensures { result ≡ any_empty_of (sets_of board) }
{
    board.sets[..few(board.variables)].contains(&0)
}

// What the atom of q with this set says of p, where no set of the board is empty. ≠ and the full set say nothing.
pub fn deduce_from(
    coefficient: &[i32],
    monomial: &[u64],
    sign: &[u8],
    p: Run,
    q: Run,
    set: SignSet,
) -> SignSet
    requires within_p { Within coefficient.now monomial.now sign.now p }
    requires within_q { Within coefficient.now monomial.now sign.now q }
    ensures { Deduced coefficient.now monomial.now sign.now p q set.0 result.0 }
{
    let k = set.0;
    if k == 0 {
        return SignSet::EMPTY;
    }
    if k == 5 || 7 <= k {
        return SignSet::FULL;
    }
    if stands_alone(coefficient, monomial, sign, p, q) {
        return SignSet::FULL;
    }
    found(coefficient, monomial, sign, p, q, k)
}

// What the atom of q with this set says of p. Where a set is empty the finding is the empty set.
pub fn deduce(
    coefficient: &[i32],
    monomial: &[u64],
    sign: &[u8],
    board: Board,
    p: Run,
    q: Run,
    set: SignSet,
) -> SignSet
    requires held_at { HeldAt (sets_of board) coefficient.now monomial.now sign.now p }
    requires held_at_2 { HeldAt (sets_of board) coefficient.now monomial.now sign.now q }
    ensures { let cs = coefficient.now in let ms = monomial.now in
        result.0 ≡ deduce_from_of (sets_of board) (polynomial_of cs ms p) (atom_of cs ms q set.0) }
{
    if any_empty(board) {
        return SignSet::EMPTY;
    }
    deduce_from(coefficient, monomial, sign, p, q, set)
}
