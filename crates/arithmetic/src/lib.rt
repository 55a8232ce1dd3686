// Request #102, "Arithmetic is in 64 signed bits": the value of a polynomial at readings, term by term, product by product.
// A number is a sign and a magnitude, so that overflow is found without wider numbers: a magnitude is compared with what the limit leaves.

#![tactic(auto)]

ghost use Rattle.std.specs.Prelude.{◌≡◌, ◌≤◌, ℤ, length};
ghost use Rattle.std.proofs.Math.Option.{some};
ghost use Rattle.rules.specs.Signs.{sign_of, has};
ghost use Rattle.terms.specs.View.{terms_of};
ghost use Rattle.arithmetic.specs.Checked.{times as times_of, plus as plus_of, raised, term_from, value_from};
ghost use Rattle.arithmetic.specs.Numbers.{differ as differ_of, both as both_of, limit_of, value_of, meaning, RangedIs};

use writer::{magnitude_of, minus_of};

// A number of 64 signed bits; none where it does not fit them, and then the rest says nothing.
#[derive(Clone, Copy)]
pub struct Number {
    pub fits: bool,
    pub negative: bool,
    pub magnitude: u64,
}

fn differ(a: bool, b: bool) -> bool
    ensures { result ≡ differ_of a b }
{
    if a { !b } else { b }
}

pub fn both(a: bool, b: bool) -> bool
    ensures { result ≡ both_of a b }
{
    if a { b } else { false }
}

// The largest magnitude of a negative number is 2^63, that of any other 2^63 - 1.
fn limit(negative: bool) -> u64
    ensures { result ≡ limit_of negative }
{
    if negative {
        9223372036854775808
    } else {
        9223372036854775807
    }
}

// A coefficient or a reading.
fn whole(x: i32) -> Number
    ensures { meaning result ≡ some x }
{
    Number {
        fits: true,
        negative: minus_of(x) == 1,
        magnitude: magnitude_of(x),
    }
}

// The product: the magnitude is compared with the limit divided by the factor's, 2^63 where the signs differ and 2^63 - 1 where they agree.
fn times(v: Number, negative: bool, magnitude: u64) -> Number
    ensures { meaning result ≡ times_of (meaning v) (value_of negative magnitude) }
{
    if magnitude == 0 {
        return Number {
            fits: v.fits,
            negative: false,
            magnitude: 0,
        };
    }
    let sign = differ(v.negative, negative);
    if limit(sign) / magnitude < v.magnitude {
        return Number {
            fits: false,
            negative: false,
            magnitude: 0,
        };
    }
    Number {
        fits: v.fits,
        negative: sign,
        magnitude: v.magnitude * magnitude,
    }
}

// A number whose magnitude may be past the limit.
fn ranged(fits: bool, negative: bool, magnitude: u64) -> Number
    ensures { RangedIs fits negative magnitude result }
{
    if limit(negative) < magnitude {
        return Number {
            fits: false,
            negative: false,
            magnitude: 0,
        };
    }
    Number {
        fits,
        negative,
        magnitude,
    }
}

// The sum: where the signs agree, the second magnitude is compared with what the first leaves of the limit; where they differ, the larger decides.
fn plus(a: Number, b: Number) -> Number
    ensures { meaning result ≡ plus_of (meaning a) (meaning b) }
{
    let fits = both(a.fits, b.fits);
    let x = a.magnitude;
    let y = b.magnitude;
    if differ(a.negative, b.negative) {
        if x < y {
            return ranged(fits, b.negative, y - x);
        }
        return ranged(fits, a.negative, x - y);
    }
    let most = limit(a.negative);
    if most < x {
        return Number {
            fits: false,
            negative: false,
            magnitude: 0,
        };
    }
    if most - x < y {
        return Number {
            fits: false,
            negative: false,
            magnitude: 0,
        };
    }
    Number {
        fits,
        negative: a.negative,
        magnitude: x + y,
    }
}

// "multiplied by each reading .. as often as the exponent says"; "exponent 0 multiplies not at all"
fn power(v: Number, negative: bool, magnitude: u64, exponent: u64) -> Number
    ensures { meaning result ≡ raised (value_of negative magnitude) exponent (meaning v) }
{
    let mut product = v;
    for _ in 0..exponent {
        product = times(product, negative, magnitude);
    }
    product
}

// "A term starts from its coefficient and is multiplied by each reading, variable by variable": the exponents have four bits each, the first variable's foremost.
fn term(readings: &[i32], monomial: u64, coefficient: i32) -> Number
    requires { length readings.now ≤ 16 }
    ensures { meaning result ≡ term_from readings.now monomial (some coefficient) }
{
    let mut product = whole(coefficient);
    for i in 0..readings.len() {
        let x = readings[i];
        let reading = whole(x);
        let exponent = (monomial >> (4 * (readings.len() - (i + 1)))) % 16;
        product = power(product, reading.negative, reading.magnitude, exponent);
    }
    product
}

// The value of the polynomial at the places from..to: "Terms are taken in block order", and a running sum goes over them.
pub fn value(
    coefficient: &[i32],
    monomial: &[u64],
    readings: &[i32],
    from: usize,
    to: usize,
) -> Number
    requires { (length readings.now ≤ 16) × (to ≤ length coefficient.now) × (to ≤ length monomial.now) }
    ensures { meaning result ≡ value_from readings.now (terms_of coefficient.now monomial.now from to) }
{
    let mut total = Number {
        fits: true,
        negative: false,
        magnitude: 0,
    };
    for i in from..to {
        let c = coefficient[i];
        let m = monomial[i];
        total = plus(total, term(readings, m, c));
    }
    total
}

// Whether the sign of a number is in a set: a set has three bits, for negative, zero and positive.
pub fn sign_in(number: Number, set: u32) -> bool
    ensures { (z : ℤ) → meaning number ≡ some z → result ≡ has (sign_of z) set }
{
    if number.magnitude == 0 {
        return set / 2 % 2 == 1;
    }
    if number.negative {
        return set / 4 % 2 == 1;
    }
    set % 2 == 1
}
