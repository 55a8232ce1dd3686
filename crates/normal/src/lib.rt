// 01, "Normal form", of one polynomial, whose terms stand at a run of places of lent slices.
// Its coefficients are divided and negated; its monomials stay as they are.

#![tactic(auto)]

ghost use Rattle.std.specs.Prelude.{◌≡◌, ◌^◌, ◌<◌, ◌≤◌, length};
ghost use Rattle.rules.specs.Polynomial.{gcd as gcd_of, content as content_of, first_is_negative as first_is_negative_of};
ghost use Rattle.normal.specs.Normal.{Bounded, coefficients, divided_run, negated_run, is_turned, normal_run};

// The greatest common divisor, by remainders.
fn gcd(first: u32, second: u32) -> u32
    ensures { result ≡ gcd_of first second }
{
    let mut a = first;
    let mut b = second;
    while b != 0 {
        let rest = a % b;
        a = b;
        b = rest;
    }
    a
}

// The greatest common divisor of the coefficients at the places from..to; 0, which no polynomial of a block has, is read as 1.
fn content(coefficient: &[i32], from: usize, to: usize) -> u32
    requires { Bounded coefficient.now from to }
    ensures { result ≡ content_of (coefficients coefficient.now from to) }
{
    let mut common = 0;
    for i in from..to {
        let c = coefficient[i];
        common = gcd(c.unsigned_abs(), common);
    }
    common.max(1)
}

// The quotients of the coefficients at the places from..to, stored at the same places of target.
fn divide(coefficient: &[i32], target: &mut [i32], from: usize, to: usize, by: u32)
    requires { (to ≤ length coefficient.now) × (to ≤ length target.old) × (0 < by) × (by < 2 ^ 31) }
    ensures { target.new ≡ divided_run by coefficient.now target.old from to }
{
    let divisor = by as i32;
    for i in from..to {
        let c = coefficient[i];
        target[i] = c / divisor;
    }
}

// The coefficients at the places from..to negated where they stand.
fn negate(coefficient: &mut [i32], from: usize, to: usize)
    requires { Bounded coefficient.old from to }
    ensures { coefficient.new ≡ negated_run coefficient.old from to }
{
    for i in from..to {
        let c = coefficient[i];
        coefficient[i] = 0 - c;
    }
}

// "if the first coefficient is negative"
fn first_is_negative(coefficient: &[i32], from: usize, to: usize) -> bool
    requires { to ≤ length coefficient.now }
    ensures { result ≡ first_is_negative_of (coefficients coefficient.now from to) }
{
    from < to && coefficient[from] < 0
}

// The normal form of the coefficients at the places from..to, stored at the same places of target; whether it was negated.
pub fn normalize(coefficient: &[i32], target: &mut [i32], from: usize, to: usize) -> bool
    requires { Bounded coefficient.now from to × (to ≤ length target.old) }
    ensures { (result ≡ is_turned coefficient.now from to) × (target.new ≡ normal_run coefficient.now target.old from to) }
{
    let by = content(coefficient, from, to);
    divide(coefficient, target, from, to, by);
    if first_is_negative(target, from, to) {
        negate(target, from, to);
        return true;
    }
    false
}
