// Whether some try of a pair of atoms (02, #111) may cut a set: each is given up at the first monomial whose coefficient in p + u·q1 + v·q2 is not
// as the test asks. The three forms are merged once, so that a try is a walk over rows of three coefficients.

#![tactic(auto)]

ghost use Rattle.std.specs.Prelude.{◌≡◌, true, false};
ghost use Rattle.two_atoms.specs.Tries.{PlacesOf};
ghost use Rattle.sieve.specs.Rows.{FallsOf};
ghost use Rattle.sieve.specs.Sieve.{AnyLeft};

use crate::rows::fill;
use crate::tries::any_try;
use two_atoms::pair::Pair;

pub mod rows; // the monomials of the three forms, the greatest first
pub mod tries; // the tries by the rows
pub mod cutting; // what they leave of a set

// Whether some try of the pair may cut the set; `falls` is only to be said of forms whose monomials fall.
pub fn any_left(
    coefficient: &[i32],
    monomial: &[u64],
    sign: &[u8],
    pair: Pair,
    set: u8,
    falls: bool,
) -> bool
    requires { PlacesOf coefficient.now monomial.now sign.now pair × (falls ≡ true → FallsOf monomial.now pair) }
    ensures { AnyLeft coefficient.now monomial.now sign.now pair set result }
{
    if !falls {
        return true;
    }
    if 8 <= set {
        return true;
    }
    let mut a = [0i32; 48];
    let mut b = [0i32; 48];
    let mut c = [0i32; 48];
    let mut s = [0u8; 48];
    let n = fill(
        coefficient,
        monomial,
        sign,
        pair,
        &mut a,
        &mut b,
        &mut c,
        &mut s,
    );
    any_try(&a, &b, &c, &s, n, pair.set1, pair.set2, set)
}
