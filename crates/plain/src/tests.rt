// The tests of one value against all rows, and what was seen of value after value.
// "A t is tested against the conditions directly": each a + tb is to have a sign that L asks for, or U.
ghost use Rattle.std.specs.Prelude.{◌≡◌, ◌||◌, ◌*◌};
ghost use Rattle.rules.specs.Signs.{kind};
ghost use Rattle.rules.specs.Deduce.{Fraction, found as found_of};
ghost use Rattle.rules.specs.Plain.{wanted_l};
ghost use Rattle.plain_laws.specs.Bounds.{largest};
ghost use Rattle.plain.specs.Values.{Is, Held};
ghost use Rattle.plain.specs.Tests.{Lent, Passes, Kept, After, finding_from};

use crate::value::Value;
use deduce::Run;
use deduce::last::{asked, both, strict_with};
use deduce::merge::next;
use interval::finding::strictly;
use interval::vanishing::is_strict;
use signs::SignSet;

// Whether a value passes all conditions of L, and of U, and whether some > or < monomial is not 0 there.
#[derive(Clone, Copy)]
pub struct Passed {
    pub l: bool,
    pub u: bool,
    pub strict: bool,
}

// What was seen so far: a value of L of the wanted sign, one at which p is above 0; a value of U, one at which p is below 0.
#[derive(Clone, Copy)]
pub struct Seen {
    pub l: bool,
    pub above: bool,
    pub u: bool,
    pub below: bool,
}

// The sign that a t of L is to have, by q's set; for U it is mirrored.
pub fn wanted(set: u8) -> SignSet
    ensures { result.0 ≡ wanted_l (kind set) }
{
    match set {
        4 | 6 => SignSet(3),
        1 | 3 => SignSet(6),
        2 => SignSet::FULL,
        _ => SignSet::EMPTY,
    }
}

// "some > or < monomial is not 0" and the conditions of L and U, one monomial after the other.
pub fn test_value(
    coefficient: &[i32],
    monomial: &[u64],
    sign: &[u8],
    p: Run,
    q: Run,
    t: Value,
) -> Passed
    requires lent { Lent coefficient.now monomial.now sign.now p q }
    requires held { Held (2 * largest) t }
    ensures { (f : Fraction) → Is t f → Passes coefficient.now monomial.now sign.now p q f result }
{
    let p_to = p.to;
    let q_to = q.to;
    let mut passed = Passed {
        l: true,
        u: true,
        strict: false,
    };
    let mut i = p.from;
    let mut j = q.from;
    while i + j < p_to + q_to {
        let step = next(coefficient, monomial, sign, i, p_to, j, q_to);
        i = step.i;
        j = step.j;
        passed = passed.by(t.sign_at(step.a, step.b), step.s);
    }
    passed
}

// kept: `||` under a name, since public functions keep theirs.
pub fn either(x: bool, y: bool) -> bool
    ensures { result ≡ (x || y) }
{
    x || y
}

// What was seen, and then of a value that passes so, of this sign.
pub fn and_then(set: u8, seen: Seen, t: SignSet, passed: Passed) -> Seen
    ensures { After (kind set) seen t.0 passed result }
{
    let wants = wanted(set);
    let strict = strictly(is_strict(set), t.0 != 2, passed.strict);
    let l = both(t.inside(wants), passed.l);
    let u = both(t.inside(wants.mirror()), passed.u);
    Seen {
        l: either(seen.l, l),
        above: either(seen.above, both(l, strict)),
        u: either(seen.u, u),
        below: either(seen.below, both(u, strict)),
    }
}

// What L gives: p > 0, p ≥ 0, or nothing.
pub fn found(strict: bool, weak: bool) -> SignSet
    ensures { result.0 ≡ found_of strict weak }
{
    if strict {
        return SignSet(1);
    }
    if weak { SignSet(3) } else { SignSet::FULL }
}

impl Passed {
    // One more monomial with the set s, where a + tb has this sign.
    pub fn by(self, value: SignSet, s: u8) -> Passed
        ensures { Kept self value.0 (kind s) result }
    {
        let asks = asked(s);
        let l = both(self.l, value.inside(asks));
        let u = both(self.u, value.inside(asks.mirror()));
        let strict = strict_with(self.strict, value, s);
        Passed { l, u, strict }
    }
}

impl Seen {
    // "The findings are intersected." What U gives is the same with < for > and ≤ for ≥.
    pub fn finding(self) -> SignSet
        ensures { result.0 ≡ finding_from self }
    {
        found(self.above, self.l).intersect(found(self.below, self.u).mirror())
    }
}
