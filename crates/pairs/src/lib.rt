// 02, #109: the pairs of a term in edition 2, "variable number (4 bits, strictly rising, below n) and exponent (4 bits, 1 to 15)".
// They are gone through once: whether the numbers rise, whether an exponent is 0, and the exponents as one number.

#![tactic(auto)]

ghost use Rattle.std.specs.Prelude.{◌&&◌, ◌≡◌, ◌*◌, ◌^◌, ◌≤◌, ◌<◌, ltb};
ghost use Rattle.pairs.specs.Pairs.{pairs_at, PairsInside, pairs_told};

use bits::get;

// What is wrong with the pairs of a term: numbers that do not rise or are not below n, else an exponent 0.
#[derive(Clone, Copy, Debug, PartialEq, Eq)]
pub enum PairsFault {
    NotRising,
    SomeZero,
}

// Whether each exponent so far is above 0, with one more.
fn still_above(above: bool, exponent: u64) -> bool
    ensures { result ≡ (above && ltb 0 exponent) }
{
    if above { 0 < exponent } else { false }
}

// An exponent in its place: `followers` variables come after its own.
fn placed(exponent: u64, followers: usize) -> u64
    requires { (exponent < 16) × (followers < 16) }
    ensures { result ≡ exponent * 16 ^ followers }
{
    exponent << (4 * followers)
}

// What `count` pairs from the bit `at` on are, by the book's tests of the pairs that are read there: the exponents of all n variables as one number.
pub fn tell(src: &[u8], at: usize, n: usize, count: usize) -> Result<u64, PairsFault>
    requires { PairsInside src.now at count × (n ≤ 16) }
    ensures { result ≡ pairs_told n (pairs_at src.now at count) }
{
    let mut least = 0;
    let mut above = true;
    let mut exponents: u64 = 0;
    for i in 0..count {
        let pair = get(src, at + 8 * i, 8);
        let variable = (pair / 16) as usize;
        if variable < least {
            return Err(PairsFault::NotRising);
        }
        if n <= variable {
            return Err(PairsFault::NotRising);
        }
        let exponent = pair % 16;
        above = still_above(above, exponent);
        exponents += placed(exponent, n - 1 - variable);
        least = variable + 1;
    }
    if above {
        return Ok(exponents);
    }
    Err(PairsFault::SomeZero)
}
