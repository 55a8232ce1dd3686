// One t as a fraction c/d with d above 0, and the sign of a + tb there.
// A value that is listed is kept as an End, -a/b by its two coefficients; the terms of the others are sums of two of those, so they need 64 bits.
ghost use Rattle.std.specs.Prelude.{◌≡◌, ◌*◌, negsuc};
ghost use Rattle.rules.specs.Signs.{only, sign_of};
ghost use Rattle.rules.specs.Deduce.{Fraction, at};
ghost use Rattle.rules.specs.Plain.{sign_at as sign_at_of};
ghost use Rattle.interval.specs.Ends.{end_of, There};
ghost use Rattle.plain_laws.specs.Bounds.{largest};
ghost use Rattle.plain.specs.Met.{beside as beside_of, under as under_of};
ghost use Rattle.plain.specs.Values.{Is, Held, SmallEnd, SmallPair};

use interval::interval::{End, sign_between};
use signs::SignSet;

// t = c/d
#[derive(Clone, Copy)]
pub struct Value {
    pub c: i64,
    pub d: i64,
}

// The listed fraction -a/b, which is there.
pub fn listed(e: End) -> Value
    requires { There e }
    ensures { (t : Fraction) → end_of e ≡ at t → Is result t }
{
    let a = e.a as i64;
    let b = e.b as i64;
    if b < 0 {
        Value { c: a, d: -b }
    } else {
        Value { c: -a, d: b }
    }
}

// "One value between each two neighbours: numerators added, denominators added"; where there is none above, 1 is added.
pub fn beside(f: End, near: End) -> Value
    requires there { There f × SmallEnd f }
    requires small_end { SmallEnd near }
    ensures held { Held (2 * largest) result }
    ensures is { (t : Fraction) → end_of f ≡ at t → Is result (beside_of t (end_of near)) }
{
    let x = listed(f);
    let b = near.b;
    if b == 0 {
        return Value {
            c: x.c + x.d,
            d: x.d,
        };
    }
    let y = listed(near);
    Value {
        c: x.c + y.c,
        d: x.d + y.d,
    }
}

// "One below the least: the least less 1".
pub fn under(e: End) -> Value
    requires { There e × SmallEnd e }
    ensures held { Held (2 * largest) result }
    ensures is { (t : Fraction) → end_of e ≡ at t → Is result (under_of (at t)) }
{
    let x = listed(e);
    Value {
        c: x.c - x.d,
        d: x.d,
    }
}

impl Value {
    // "by comparing the products a·d and -c·b, never by adding them"
    pub fn sign_at(self, a: i32, b: i32) -> SignSet
        requires held { Held (2 * largest) self }
        requires small_pair { SmallPair a b }
        ensures { (t : Fraction) → Is self t → result.0 ≡ only (sign_at_of t a b) }
    {
        let ad = (a as i64) * self.d;
        let cb = -self.c * (b as i64);
        sign_between(ad, cb)
    }

    // The sign of t itself.
    pub fn sign(self) -> SignSet
        ensures { result.0 ≡ only (sign_of self.c) }
    {
        sign_between(self.c, 0)
    }
}
