// Deducing p from q without intervals, 02 #110: single values of t are tested against the conditions.
// Its `deduce_from` has the contract of the one in crate `deduce`, so that whoever calls one may call the other.

#![tactic(auto)]

pub mod value; // one t, and the sign of a + tb there
pub mod tests; // the tests of one value against all rows
pub mod met; // the values one after the other

ghost use Rattle.std.specs.Prelude.{◌≤◌, length};
ghost use Rattle.deduce.specs.Runs.{Within, Deduced};
ghost use Rattle.plain.specs.Tests.{SmallIf};

use crate::met::seen;
use deduce::Run;
use signs::SignSet;

// Whether no coefficient of the run is -2^31.
fn small(coefficient: &[i32], run: Run) -> bool
    requires { run.to ≤ length coefficient.now }
    ensures { SmallIf coefficient.now run result }
{
    for i in run.from..run.to {
        let c = coefficient[i];
        if c < -2147483647 {
            return false;
        }
    }
    true
}

pub fn deduce_from(
    coefficient: &[i32],
    monomial: &[u64],
    sign: &[u8],
    p: Run,
    q: Run,
    set: SignSet,
) -> SignSet
    requires within_p { Within coefficient.now monomial.now sign.now p }
    requires within_q { Within coefficient.now monomial.now sign.now q }
    ensures { Deduced coefficient.now monomial.now sign.now p q set.0 result.0 }
{
    let k = set.0;
    if k == 0 {
        return SignSet::EMPTY;
    }
    if !small(coefficient, p) || !small(coefficient, q) {
        return deduce::deduce_from(coefficient, monomial, sign, p, q, set);
    }
    seen(coefficient, monomial, sign, p, q, k).finding()
}
