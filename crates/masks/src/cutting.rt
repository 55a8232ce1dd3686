// Whether the tries of a pair may cut a set, by the words of p, q1 and q2: the test ≥ for factors of either sign that q1's and q2's sets allow, and
// the mirrored one, which is the test ≥ of p times a number below 0. Where no words pass, no try of these signs does.
ghost use Rattle.std.specs.Prelude.{◌≡◌, ◌&&◌};
ghost use Rattle.rules.specs.Signs.{kind};
ghost use Rattle.two_atoms.specs.Tries.{PlacesOf, CutByPair};
ghost use Rattle.masks.specs.Masks.{joined as joined_of, swapped as swapped_of, covered as covered_of, some_second as some_second_of, some_both as some_both_of};
ghost use Rattle.masks.specs.Masks.{MasksOf, MayCut};

use crate::{Mask, joined};
use signs::SignSet;
use two_atoms::finding::{both, non_negative, non_positive};
use two_atoms::pair::{Pair, cut_by_pair};

// The words of a form times a number below 0.
pub fn swapped(a: Mask) -> Mask
    ensures { result ≡ swapped_of a }
{
    Mask {
        negative: a.positive,
        positive: a.negative,
    }
}

// Whether each negative part may meet a positive one.
fn covered(a: Mask) -> bool
    ensures { result ≡ covered_of a }
{
    a.negative | a.positive == a.positive
}

// Whether words pass with a v for which v·q2 is never positive; a has those of p + u·q1.
#[tactic(auto, unfolding(crate::specs::Masks::some_second, crate::specs::Masks::some_way))]
fn some_second(a: Mask, q2: Mask, set2: u8) -> bool
    ensures { result ≡ some_second_of a q2 (kind set2) }
{
    if both(non_positive(set2), covered(joined(a, q2))) {
        return true;
    }
    both(non_negative(set2), covered(joined(a, swapped(q2))))
}

// And with a u of one sign, if u·q1 is never positive for it; q has the words of u·q1.
fn some_with(allowed: bool, p: Mask, q: Mask, q2: Mask, set2: u8) -> bool
    ensures { result ≡ (allowed && some_second_of (joined_of p q) q2 (kind set2)) }
{
    if allowed {
        return some_second(joined(p, q), q2, set2);
    }
    false
}

// And with a u of either sign, for a test that can cut the set.
#[tactic(auto, unfolding(crate::specs::Masks::some_both, crate::specs::Masks::some_way))]
fn some_both(cuts: bool, p: Mask, q1: Mask, set1: u8, q2: Mask, set2: u8) -> bool
    ensures { result ≡ (cuts && some_both_of p q1 (kind set1) q2 (kind set2)) }
{
    if !cuts {
        return false;
    }
    if some_with(non_positive(set1), p, q1, q2, set2) {
        return true;
    }
    some_with(non_negative(set1), p, swapped(q1), q2, set2)
}

// Whether the tries of a pair may cut a set of p: the test ≥ does not if it is > already, nor the mirrored one if it is <.
pub fn may_cut(p: Mask, q1: Mask, set1: u8, q2: Mask, set2: u8, set: u8) -> bool
    ensures { MayCut p q1 q2 set1 set2 set result }
{
    if 8 <= set {
        return true;
    }
    if some_both(2 <= set, p, q1, set1, q2, set2) {
        return true;
    }
    some_both(set % 4 != 0, swapped(p), q1, set1, q2, set2)
}

// A set, cut by the tries of a pair with all u and v, which are left out where none of them may cut it.
pub fn cut_by_masked_pair(
    coefficient: &[i32],
    monomial: &[u64],
    sign: &[u8],
    pair: Pair,
    p: Mask,
    q1: Mask,
    q2: Mask,
    all: bool,
    set: SignSet,
) -> SignSet
    requires { PlacesOf coefficient.now monomial.now sign.now pair × MasksOf coefficient.now monomial.now sign.now pair p q1 q2 }
    ensures { CutByPair coefficient.now monomial.now sign.now pair all set.0 result.0 }
{
    let k = set.0;
    if may_cut(p, q1, pair.set1, q2, pair.set2, k) {
        return cut_by_pair(coefficient, monomial, sign, pair, all, set);
    }
    set
}
