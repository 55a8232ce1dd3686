// Intervals of the t for which p + tq has a sign: their ends, how a monomial cuts them, and what lies in them.
// An end is a fraction -a/b as the coefficients a and b of a monomial give it, with either sign of b.
ghost use Rattle.std.specs.Prelude.{◌≡◌, ◌*ℤ◌, ◌-ℤ◌};
ghost use Rattle.rules.specs.Signs.{only, sign_of};
ghost use Rattle.rules.specs.Deduce.{Fraction, at};
ghost use Rattle.rules.specs.Deduce.{end_at_most, end_below, cut_not_negative as cut_not_negative_of, cut_not_positive as cut_not_positive_of, has_t as has_t_of, has_more as has_more_of, has_other as has_other_of, not_zero_at as not_zero_at_of};
ghost use Rattle.deduction_laws.specs.Fractions.{combined};
ghost use Rattle.deduction_laws.specs.Exact.{has_at};
ghost use Rattle.interval.specs.Ends.{end_at, end_of, interval_of, higher_end, lower_end};

use signs::SignSet;

// The fraction -a/b; no end on this side if b is 0.
#[derive(Clone, Copy)]
pub struct End {
    pub a: i32,
    pub b: i32,
}

// The t from the low end to the high one; none if it is void.
#[derive(Clone, Copy)]
pub struct Interval {
    pub low: End,
    pub high: End,
    pub void: bool,
}

// Each product of two coefficients fits 64 signed bits.
pub fn cross(a: i32, b: i32) -> i64
    ensures { result ≡ a *ℤ b }
{
    (a as i64) * (b as i64)
}

// Whether -a/b is at most -c/d, where both are there. "Fractions -a/b are compared by cross products, never by division":
// it is cb ≤ ad if b and d have the same sign, and ad ≤ cb if not.
pub fn at_most(a: i32, b: i32, c: i32, d: i32) -> bool
    ensures { result ≡ end_at_most (end_at a b) (end_at c d) }
{
    if b == 0 || d == 0 {
        return true;
    }
    let ad = cross(a, d);
    let cb = cross(c, b);
    if b < 0 {
        if d < 0 { cb <= ad } else { ad <= cb }
    } else {
        if d < 0 { ad <= cb } else { cb <= ad }
    }
}

// Whether -a/b is below -c/d, where both are there.
pub fn below(a: i32, b: i32, c: i32, d: i32) -> bool
    ensures { result ≡ end_below (end_at a b) (end_at c d) }
{
    if b == 0 || d == 0 {
        return true;
    }
    !at_most(c, d, a, b)
}

// The sign of x - y.
pub fn sign_between(x: i64, y: i64) -> SignSet
    ensures { result.0 ≡ only (sign_of (x -ℤ y)) }
{
    if y <= x {
        if x <= y { SignSet(2) } else { SignSet(1) }
    } else {
        SignSet(4)
    }
}

impl End {
    pub const ZERO: End = End { a: 0, b: 1 };

    // The sign of a + tb at this t, which is there: of ad - cb, where t is -c/d with d above 0, of cb - ad if d is below 0.
    pub fn sign_at(self, a: i32, b: i32) -> SignSet
        ensures { (t : Fraction) → end_of self ≡ at t → result.0 ≡ only (sign_of (combined t a b)) }
    {
        let ad = cross(a, self.b);
        let cb = cross(self.a, b);
        if self.b < 0 {
            sign_between(cb, ad)
        } else {
            sign_between(ad, cb)
        }
    }

    // Whether a + tb is not 0 at this t; if it is not there, no.
    pub fn not_zero_at(self, a: i32, b: i32) -> bool
        ensures { result ≡ not_zero_at_of (end_of self) a b }
    {
        let d = self.b;
        d != 0 && self.sign_at(a, b).0 != 2
    }

    pub fn at_most(self, other: End) -> bool
        ensures { result ≡ end_at_most (end_of self) (end_of other) }
    {
        at_most(self.a, self.b, other.a, other.b)
    }

    pub fn below(self, other: End) -> bool
        ensures { result ≡ end_below (end_of self) (end_of other) }
    {
        below(self.a, self.b, other.a, other.b)
    }

    // The higher of a low end and a t.
    pub fn higher(self, t: End) -> End
        ensures { end_of result ≡ higher_end (end_of self) (end_of t) }
    {
        if self.at_most(t) { t } else { self }
    }

    // The lower of a high end and a t.
    pub fn lower(self, t: End) -> End
        ensures { end_of result ≡ lower_end (end_of self) (end_of t) }
    {
        if t.at_most(self) { t } else { self }
    }
}

impl Interval {
    pub const EVERY_T: Interval = Interval {
        low: End { a: 0, b: 0 },
        high: End { a: 0, b: 0 },
        void: false,
    };

    // Cut by a + tb ≥ 0.
    pub fn cut_not_negative(self, a: i32, b: i32) -> Interval
        ensures { interval_of result ≡ cut_not_negative_of a b (interval_of self) }
    {
        let low = self.low;
        let high = self.high;
        let t = End { a, b };
        if b < 0 {
            let cut = high.lower(t);
            return Interval {
                low,
                high: cut,
                void: self.void,
            };
        }
        if 0 < b {
            let cut = low.higher(t);
            return Interval {
                low: cut,
                high,
                void: self.void,
            };
        }
        if a < 0 {
            return Interval {
                low,
                high,
                void: true,
            };
        }
        self
    }

    // Cut by a + tb ≤ 0.
    // kept: no cut by -a and -b through the function above, since -2^31 has no negation in 32 bits, and no `requires` leaves it out.
    pub fn cut_not_positive(self, a: i32, b: i32) -> Interval
        ensures { interval_of result ≡ cut_not_positive_of a b (interval_of self) }
    {
        let low = self.low;
        let high = self.high;
        let t = End { a, b };
        if 0 < b {
            let cut = high.lower(t);
            return Interval {
                low,
                high: cut,
                void: self.void,
            };
        }
        if b < 0 {
            let cut = low.higher(t);
            return Interval {
                low: cut,
                high,
                void: self.void,
            };
        }
        if 0 < a {
            return Interval {
                low,
                high,
                void: true,
            };
        }
        self
    }

    // Whether it holds a t, which is there.
    pub fn holds(self, t: End) -> bool
        ensures { (f : Fraction) → end_of t ≡ at f → result ≡ has_at f (interval_of self) }
    {
        !self.void && self.low.at_most(t) && t.at_most(self.high)
    }

    // Whether it has a t.
    pub fn has_t(self) -> bool
        ensures { result ≡ has_t_of (interval_of self) }
    {
        !self.void && self.low.at_most(self.high)
    }

    // Whether it has more than one.
    pub fn has_more(self) -> bool
        ensures { result ≡ has_more_of (interval_of self) }
    {
        !self.void && self.low.below(self.high)
    }

    // Whether a t of it, if it has any, is not 0.
    pub fn has_other(self) -> bool
        ensures { result ≡ has_other_of (interval_of self) }
    {
        self.low.below(End::ZERO) || End::ZERO.below(self.high)
    }
}
