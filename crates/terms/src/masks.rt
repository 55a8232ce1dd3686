// The sign of a monomial from four masks of the board: 01, "Sign of a monomial", for all variables at once.
// It is here for cost. Signs are asked for at each place that a round reads, and again whenever a turn has changed the board; a loop over up to
// sixteen exponents each time was seen to take a third of a call on blocks with long monomials (docs/COST.md). A mask is one word, so that what
// is asked of all variables is one operation. The law `sign-by-masks` (specs/SignByMasks.antt): the masks of a board give the book's sign on it.
ghost use Rattle.std.specs.Prelude.{◌≡◌};
ghost use Rattle.terms.specs.View.{sets_of};
ghost use Rattle.terms.specs.Masks.{MasksOf, lacks as lacks_of, meets as meets_of, meets_odd as meets_odd_of, product_of as the_product_of, sign_by};

use crate::{Board, few};
use signs::SignSet;

// A monomial has four bits for the exponent of each variable, the first variable foremost. A mask has one bit for each variable, the lowest of
// these four: `all` has the variables of the board, `negative`, `zero` and `positive` those whose sets have the sign.
#[derive(Clone, Copy)]
pub struct Masks {
    pub all: u64,
    pub negative: u64,
    pub zero: u64,
    pub positive: u64,
}

// The masks of a board: each variable has the set at its place, the first at 0, which has three bits, "in that order": negative, zero, positive.
pub fn masks_of(b: Board) -> Masks
    ensures { MasksOf (sets_of b) result }
{
    let n = few(b.variables);
    let mut all = 0;
    let mut negative = 0;
    let mut zero = 0;
    let mut positive = 0;
    for i in 0..n {
        let set = b.sets[i];
        all = 16 * all + 1;
        negative = 16 * negative + (set / 4 % 2) as u64;
        zero = 16 * zero + (set / 2 % 2) as u64;
        positive = 16 * positive + (set % 2) as u64;
    }
    Masks {
        all,
        negative,
        zero,
        positive,
    }
}

// Whether x has a variable that y lacks.
fn lacks(x: u64, y: u64) -> bool
    ensures { result ≡ lacks_of x y }
{
    x & y != x
}

// Whether x and y have a variable in common.
fn meets(x: u64, y: u64) -> bool
    ensures { result ≡ meets_of x y }
{
    x & y != 0
}

// Whether x and y have an odd number of variables in common.
fn meets_odd(x: u64, y: u64) -> bool
    ensures { result ≡ meets_odd_of x y }
{
    u64::count_ones(x & y) % 2 == 1
}

// A product of sign sets, started from {positive}, by what its factors have: is one empty, has one zero alone, has one zero,
// has one both negative and positive, are an odd number of them negative?
fn product_of(empty: bool, alone: bool, zero: bool, both: bool, minus: bool) -> SignSet
    ensures { result.0 ≡ the_product_of empty alone zero both minus }
{
    // "Anything with the empty set gives the empty set."
    if empty {
        return SignSet::EMPTY;
    }
    // a factor is zero, so the product is
    if alone {
        return SignSet(2);
    }
    // else every factor can be other than zero, so the product can; and it can be zero where a factor can
    if zero {
        if both {
            return SignSet::FULL;
        }
        return if minus { SignSet(6) } else { SignSet(3) };
    }
    if both {
        return SignSet(5);
    }
    if minus { SignSet(4) } else { SignSet(1) }
}

impl Masks {
    // "Sign of a monomial: start from {positive}. For each variable with exponent above 0, multiply by its set if the exponent is odd,
    // by the square of its set if even." The square of a set is empty where the set is, is {zero} where the set is, has zero where the set has it,
    // and is never negative. So the first three questions are asked of every factor, the last two of those with an odd exponent.
    pub fn sign(self, m: u64) -> SignSet
        ensures { result.0 ≡ sign_by self m }
    {
        // the variables with exponent above 0: one of the four bits is set
        let factors = (m | (m >> 1) | (m >> 2) | (m >> 3)) & self.all;
        // those with an odd exponent: the lowest of the four is set
        let odd = m & self.all;
        let nonzero = self.negative | self.positive;
        product_of(
            lacks(factors, nonzero | self.zero),
            lacks(factors, nonzero),
            meets(factors, self.zero),
            meets(odd & self.negative, self.positive),
            meets_odd(odd, self.negative),
        )
    }
}
