// The signs of terms, 01 "Signs": the sign of a monomial on a board, and the sign of a polynomial by its terms.
// A polynomial is a run of places of lent slices, a coefficient and a monomial at each; a monomial's exponents have four bits each.

#![tactic(auto)]

ghost use Rattle.std.specs.Prelude.{◌≡◌, ◌≤◌, length};
ghost use Rattle.rules.specs.Signs.{only, sign_of as the_sign_of};
ghost use Rattle.rules.specs.Polynomial.{monomial_sign as monomial_sign_of, Board as BookBoard};
ghost use Rattle.terms.specs.View.{few as few_of, sets_of};
ghost use Rattle.terms.specs.Masks.{MasksOf};
ghost use Rattle.terms.specs.Signed.{signed, by_signs};

use crate::masks::{Masks, masks_of};
use signs::SignSet;

pub mod masks; // the sign of a monomial from four masks of the board

// The sign sets of the variables, in order; a count above sixteen counts as sixteen.
#[derive(Clone, Copy)]
pub struct Board {
    pub variables: usize,
    pub sets: [u8; 16],
}

// The number itself, or sixteen if it is above.
pub fn few(n: usize) -> usize
    ensures { result ≡ few_of n }
{
    if n < 16 { n } else { 16 }
}

// "Sign of a monomial."
pub fn monomial_sign(b: Board, m: u64) -> SignSet
    ensures { result.0 ≡ monomial_sign_of (sets_of b) m }
{
    masks_of(b).sign(m)
}

// Works out the signs at the places from..to for the board that the masks are of. A caller that has several runs makes the masks once for all.
pub fn sign_by(masks: Masks, monomial: &[u64], sign: &mut [u8], from: usize, to: usize)
    requires { (to ≤ length monomial.now) × (to ≤ length sign.old) }
    ensures { (board : BookBoard) → MasksOf board masks → sign.new ≡ signed board monomial.now sign.old from to }
{
    for i in from..to {
        sign[i] = masks.sign(monomial[i]).0;
    }
}

// Works out the signs at the places from..to, once for a board: its masks are made once, and serve every place.
pub fn sign_terms(b: Board, monomial: &[u64], sign: &mut [u8], from: usize, to: usize)
    requires { (to ≤ length monomial.now) × (to ≤ length sign.old) }
    ensures { sign.new ≡ signed (sets_of b) monomial.now sign.old from to }
{
    sign_by(masks_of(b), monomial, sign, from, to);
}

// The sign of a coefficient.
pub fn sign_of(x: i32) -> SignSet
    ensures { result.0 ≡ only (the_sign_of x) }
{
    if x < 0 {
        return SignSet(4);
    }
    if 0 < x {
        return SignSet(1);
    }
    SignSet(2)
}

// The sign by terms of the polynomial at the places from..to, from the signs of its monomials.
pub fn by_terms(coefficient: &[i32], sign: &[u8], from: usize, to: usize) -> SignSet
    requires { (to ≤ length coefficient.now) × (to ≤ length sign.now) }
    ensures { result.0 ≡ by_signs coefficient.now sign.now from to }
{
    let mut sofar = SignSet(2);
    for i in from..to {
        let c = coefficient[i];
        sofar = sofar.sum(sign_of(c).product(SignSet(sign[i])));
    }
    sofar
}
