// The monomials with set > or <, in one pass: the t at which all of them vanish. There no finding is strict on their account.
// They vanish where a + tb does, a and b being of the first that does not vanish at every t; or never, if a further one does not vanish with it.
ghost use Rattle.std.specs.Prelude.{◌≡◌, ◌&&◌};
ghost use Rattle.rules.specs.Signs.{kind};
ghost use Rattle.rules.specs.Deduce.{Fraction, at, is_strict as is_strict_of, is_zero};
ghost use Rattle.deduction_laws.specs.Vanishing.{apart as apart_by, vanish_row, strict_where, strict_by};
ghost use Rattle.interval.specs.Ends.{end_of, interval_of, vanishing_of};

use crate::interval::{End, Interval, cross, sign_between};

// No such monomial, or only such as vanish at every t, if a and b are 0.
#[derive(Clone, Copy)]
pub struct Vanishing {
    pub a: i32,
    pub b: i32,
    pub never: bool,
}

// Whether a set is > or <.
pub fn is_strict(s: u8) -> bool
    ensures { result ≡ is_strict_of (kind s) }
{
    matches!(s, 1 | 4)
}

// Whether a + tb is 0 at every t.
pub fn both_zero(a: i32, b: i32) -> bool
    ensures { result ≡ (is_zero a && is_zero b) }
{
    a == 0 && b == 0
}

// Whether a + tb and c + td, neither of which is 0 at every t, are 0 at no t together: by cross products.
pub fn apart(a: i32, b: i32, c: i32, d: i32) -> bool
    ensures { result ≡ apart_by a b c d }
{
    let ad = cross(a, d);
    let cb = cross(c, b);
    let between = sign_between(ad, cb);
    between.0 != 2
}

impl Vanishing {
    pub const EVERYWHERE: Vanishing = Vanishing {
        a: 0,
        b: 0,
        never: false,
    };

    // With one more monomial, if its set is > or <.
    pub fn by(self, a: i32, b: i32, s: u8) -> Vanishing
        ensures { vanishing_of result ≡ vanish_row (kind s) a b (vanishing_of self) }
    {
        let c = self.a;
        let d = self.b;
        if self.never || !is_strict(s) {
            return self;
        }
        if both_zero(c, d) {
            return Vanishing { a, b, never: false };
        }
        let never = apart(c, d, a, b);
        Vanishing { a: c, b: d, never }
    }

    // Whether one of them does not vanish at a t, which is there.
    pub fn strict_at(self, t: End) -> bool
        ensures { (f : Fraction) → end_of t ≡ at f → result ≡ strict_where (vanishing_of self) f }
    {
        let a = self.a;
        let b = self.b;
        self.never || !both_zero(a, b) && t.not_zero_at(a, b)
    }

    // Whether one of them does not vanish at some t of an interval, if that has any: at its lowest, or at one of several.
    pub fn strict_in(self, r: Interval) -> bool
        ensures { result ≡ strict_by (interval_of r) (vanishing_of self) }
    {
        let a = self.a;
        let b = self.b;
        self.never || r.low.not_zero_at(a, b) || r.has_more() && !both_zero(a, b)
    }
}
