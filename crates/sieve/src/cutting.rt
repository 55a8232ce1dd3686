// What the tries of a pair leave of a set: they are made where neither the words of the three forms nor their rows leave them all out.
ghost use Rattle.std.specs.Prelude.{◌≡◌, true};
ghost use Rattle.masks.specs.Masks.{MasksOf};
ghost use Rattle.two_atoms.specs.Tries.{PlacesOf, CutByPair};
ghost use Rattle.sieve.specs.Rows.{FallsOf};

use crate::any_left;
use masks::Mask;
use masks::cutting::may_cut;
use signs::SignSet;
use two_atoms::pair::{Pair, cut_by_pair};

// A set, cut by the tries of a pair with all u and v.
pub fn cut_by_sifted_pair(
    coefficient: &[i32],
    monomial: &[u64],
    sign: &[u8],
    pair: Pair,
    p: Mask,
    q1: Mask,
    q2: Mask,
    falls: bool,
    all: bool,
    set: SignSet,
) -> SignSet
    requires places_of { PlacesOf coefficient.now monomial.now sign.now pair × MasksOf coefficient.now monomial.now sign.now pair p q1 q2 }
    requires falls_of { falls ≡ true → FallsOf monomial.now pair }
    ensures { CutByPair coefficient.now monomial.now sign.now pair all set.0 result.0 }
{
    let k = set.0;
    if may_cut(p, q1, pair.set1, q2, pair.set2, k) {
        if any_left(coefficient, monomial, sign, pair, k, falls) {
            return cut_by_pair(coefficient, monomial, sign, pair, all, set);
        }
        return set;
    }
    set
}
