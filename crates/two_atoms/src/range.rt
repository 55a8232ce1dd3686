// For one u, the factors v with which a test can pass: a range of their indices, narrowed monomial by monomial.
// The coefficient x + v·b of a monomial rises or falls with v, so that those that do not pass stand at the ends.
ghost use Rattle.std.specs.Prelude.{◌≡◌, true, false, ◌<◌, ◌≤◌};
ghost use Rattle.rules.specs.Signs.{inside};
ghost use Rattle.two_atoms.specs.Tries.{PlacesOf};
ghost use Rattle.two_atoms.specs.Ranges.{asked_in, added_at, Raised, Lowered, Outside, Indices, Narrowed, Halves, Allowed, uncut_in, Spares};

use crate::finding::{never_negative, never_positive, non_negative, non_positive};
use crate::pair::{Pair, factor};
use crate::total::{next_step, sign_less};
use signs::SignSet;

// The indices from..to.
#[derive(Clone, Copy)]
pub struct Range {
    pub from: usize,
    pub to: usize,
}

// The set that a test asks for: ≥, or ≤ if it is the mirrored one.
#[tactic(auto, unfolding(crate::specs::Ranges::asked_in))]
pub fn asked(mirrored: bool) -> SignSet
    ensures { result.0 ≡ asked_in mirrored }
{
    if mirrored { SignSet(6) } else { SignSet(3) }
}

// Whether what a monomial adds lies inside the set that is asked for, with the factor at the index.
pub fn passes(x: i64, b: i32, s: u8, i: usize, asked: SignSet) -> bool
    requires { i < 8 }
    ensures { result ≡ inside (added_at x b s i) asked.0 }
{
    let value = sign_less(x, factor(7 - i), b);
    value.product(SignSet(s)).inside(asked)
}

// The first index that passes, and the place after the last one.
pub fn raised(x: i64, b: i32, s: u8, from: usize, to: usize, asked: SignSet) -> usize
    requires { (from ≤ to) × (to ≤ 8) }
    ensures { Raised x b s asked.0 from to result }
{
    for i in from..to {
        if passes(x, b, s, i, asked) {
            return i;
        }
    }
    to
}

pub fn lowered(x: i64, b: i32, s: u8, from: usize, to: usize, asked: SignSet) -> usize
    requires { (from ≤ to) × (to ≤ 8) }
    ensures { Lowered x b s asked.0 from to result }
{
    for i in (from..to).rev() {
        if passes(x, b, s, i, asked) {
            return i + 1;
        }
    }
    from
}

// Whether an index is in the range, and whether none is.
pub fn within(range: Range, i: usize) -> bool
    ensures { result ≡ false → Outside range.from range.to i }
{
    range.from <= i && i < range.to
}

pub fn is_empty(range: Range) -> bool
    ensures { result ≡ true → range.to ≤ range.from }
{
    range.to <= range.from
}

// What is left of a range where no monomial fails the test; the walk ends where nothing is left.
pub fn narrowed(
    coefficient: &[i32],
    monomial: &[u64],
    sign: &[u8],
    pair: Pair,
    u: i32,
    mirrored: bool,
    range: Range,
) -> Range
    requires { PlacesOf coefficient.now monomial.now sign.now pair × Indices range }
    ensures { Narrowed coefficient.now monomial.now sign.now pair u mirrored range result }
{
    let asked = asked(mirrored);
    let m = pair.p.to;
    let n = pair.q1.to;
    let o = pair.q2.to;
    let mut from = range.from;
    let mut to = range.to;
    let mut i = pair.p.from;
    let mut j = pair.q1.from;
    let mut k = pair.q2.from;
    while i + j + k < m + n + o {
        if to <= from {
            return Range { from, to };
        }
        let step = next_step(coefficient, monomial, sign, i, m, j, n, k, o, u);
        i = step.i;
        j = step.j;
        k = step.k;
        from = raised(step.x, step.b, step.s, from, to, asked);
        to = lowered(step.x, step.b, step.s, from, to, asked);
    }
    Range { from, to }
}

// The half of the indices with v < 0 if it is asked for, and the one with v > 0.
pub fn halves(low: bool, high: bool) -> Range
    ensures { Halves low high result }
{
    if low {
        if high {
            return Range { from: 0, to: 8 };
        }
        return Range { from: 0, to: 4 };
    }
    if high {
        return Range { from: 4, to: 8 };
    }
    Range { from: 4, to: 4 }
}

// The indices of v that u and the sets of q1 and q2 allow for the test.
pub fn allowed(set1: u8, set2: u8, u: i32, mirrored: bool) -> Range
    ensures { Allowed set1 set2 u mirrored result }
{
    let positive = non_positive(set2);
    let negative = non_negative(set2);
    if mirrored {
        if never_negative(u, set1) {
            return halves(positive, negative);
        }
        return Range { from: 4, to: 4 };
    }
    if never_positive(u, set1) {
        return halves(negative, positive);
    }
    Range { from: 4, to: 4 }
}

// Whether no finding of the test cuts the set.
#[tactic(auto, unfolding(crate::specs::Ranges::uncut_in))]
pub fn uncut(set: SignSet, mirrored: bool) -> bool
    ensures { result ≡ inside set.0 (uncut_in mirrored) }
{
    if mirrored {
        set.inside(SignSet(4))
    } else {
        set.inside(SignSet(1))
    }
}

// The indices of v at which the test can cut the set.
pub fn cutting(
    coefficient: &[i32],
    monomial: &[u64],
    sign: &[u8],
    pair: Pair,
    u: i32,
    mirrored: bool,
    set: SignSet,
) -> Range
    requires { PlacesOf coefficient.now monomial.now sign.now pair }
    ensures { Spares coefficient.now monomial.now sign.now pair u mirrored set.0 result }
{
    if set.0 > 7 {
        return Range { from: 0, to: 8 };
    }
    if uncut(set, mirrored) {
        return Range { from: 4, to: 4 };
    }
    let range = allowed(pair.set1, pair.set2, u, mirrored);
    narrowed(coefficient, monomial, sign, pair, u, mirrored, range)
}
