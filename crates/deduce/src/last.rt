// One t that is left of L and U, from the first monomial on whose s is ≠ or full and whose b is not 0: it asks for a + tb = 0.
// Each further monomial is then asked for the sign of a + tb at this t alone, and is strict there if that is not 0 and its set is > or <.
ghost use Rattle.std.specs.Prelude.{◌≡◌, not, ◌&&◌, ◌||◌, eqb};
ghost use Rattle.rules.specs.Signs.{kind, named};
ghost use Rattle.rules.specs.Deduce.{is_strict as is_strict_of, is_zero};
ghost use Rattle.deduction_laws.specs.FractionSets.{L, asked as asked_of};
ghost use Rattle.deduce.specs.Merge.{found_from};
ghost use Rattle.deduce.specs.Last.{asks_zero as asks_zero_of, last_of, Kept};

use interval::finding::finding;
use interval::interval::{End, Interval};
use interval::vanishing::{Vanishing, is_strict};
use signs::SignSet;

// The t, whether it is still in L and in U, and whether some monomial with set > or < does not vanish at it.
#[derive(Clone, Copy)]
pub struct Last {
    pub t: End,
    pub l: bool,
    pub u: bool,
    pub strict: bool,
}

// Whether a monomial with the set s asks for a + tb = 0.
pub fn asks_zero(s: u8) -> bool
    ensures { result ≡ asks_zero_of (kind s) }
{
    s == 5 || 7 <= s
}

// Whether a monomial leaves one t.
pub fn leaves_one(b: i32, s: u8) -> bool
    ensures { result ≡ (not (is_zero b) && asks_zero_of (kind s)) }
{
    b != 0 && asks_zero(s)
}

// Whether a monomial asks for a + tb = 0 at a t where it has another sign.
pub fn rules_out(value: SignSet, s: u8) -> bool
    ensures { result ≡ (not (eqb value.0 2) && asks_zero_of (kind s)) }
{
    value.0 != 2 && asks_zero(s)
}

// Whether some monomial is strict at the t, with one more, where its a + tb has this sign.
pub fn strict_with(before: bool, value: SignSet, s: u8) -> bool
    ensures { result ≡ (before || (is_strict_of (kind s) && not (eqb value.0 2))) }
{
    before || is_strict(s) && value.0 != 2
}

// The signs of a + tb that a monomial with the set s asks for in L; U asks for the mirrored set.
pub fn asked(s: u8) -> SignSet
    ensures { result.0 ≡ named (asked_of L (kind s)) }
{
    match s {
        1 | 3 => SignSet(3),
        4 | 6 => SignSet(6),
        0 | 2 => SignSet::FULL,
        _ => SignSet(2),
    }
}

// kept: `&&` under a name, since public functions keep theirs.
pub fn both(x: bool, y: bool) -> bool
    ensures { result ≡ (x && y) }
{
    x && y
}

impl Last {
    // What a monomial with the set s leaves, where a + tb has this sign.
    pub fn by(self, value: SignSet, s: u8) -> Last
        ensures { Kept self value.0 (kind s) result }
    {
        let t = self.t;
        let asks = asked(s);
        let l = both(self.l, value.inside(asks));
        let u = both(self.u, value.inside(asks.mirror()));
        let strict = strict_with(self.strict, value, s);
        Last { t, l, u, strict }
    }

    // Whether it is in neither.
    pub fn is_gone(self) -> bool
        ensures { result ≡ not (self.l || self.u) }
    {
        !(self.l || self.u)
    }

    // What is found where no monomial is left.
    pub fn found(self, set: u8) -> SignSet
        ensures { result.0 ≡ found_from (kind set) (last_of self) }
    {
        let t = self.t;
        let l = Interval {
            low: t,
            high: t,
            void: !self.l,
        };
        let u = Interval {
            low: t,
            high: t,
            void: !self.u,
        };
        let v = Vanishing {
            a: 0,
            b: 0,
            never: self.strict,
        };
        finding(set, l, u, v)
    }
}
