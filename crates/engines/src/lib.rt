// The two engines for "deducing p from q", and the choice between them, 02 #110: "the program takes either".
// They have the same contract, and so has the choice: whoever calls it need not know which one finds.

#![tactic(auto)]

ghost use Rattle.std.specs.Prelude.{◌<◌, length};
ghost use Rattle.deduce.specs.Runs.{Within, Deduced};

use deduce::Run;
use signs::SignSet;

// Where the working table has the mark of its engine: behind the counts of its eighty slots.
pub const PLACE: usize = 80;

// The mark of the plain engine. Any other is that of the fast one, which works with intervals.
pub const PLAIN: u8 = 1;

// What the atom of q with this set says of p, where no set of the board is empty, by the engine that the table is marked with.
pub fn deduce_from(
    coefficient: &[i32],
    monomial: &[u64],
    terms: &[u8],
    sign: &[u8],
    p: Run,
    q: Run,
    set: SignSet,
) -> SignSet
    requires in_bounds { 80 < length terms.now }
    requires within_p { Within coefficient.now monomial.now sign.now p }
    requires within_q { Within coefficient.now monomial.now sign.now q }
    ensures { Deduced coefficient.now monomial.now sign.now p q set.0 result.0 }
{
    let mark = terms[PLACE];
    if mark == PLAIN {
        plain::deduce_from(coefficient, monomial, sign, p, q, set)
    } else {
        deduce::deduce_from(coefficient, monomial, sign, p, q, set)
    }
}

// The same, for a deduction that stands alone.
// kept: a function of its own, so that the plain engine is called in two places: the compiler then leaves that engine out of line, and takes these
// choices into their callers; with the plain engine inside, a choice cost half as much as a fast deduction.
pub fn deduce_alone(
    coefficient: &[i32],
    monomial: &[u64],
    terms: &[u8],
    sign: &[u8],
    p: Run,
    q: Run,
    set: SignSet,
) -> SignSet
    requires in_bounds { 80 < length terms.now }
    requires within_p { Within coefficient.now monomial.now sign.now p }
    requires within_q { Within coefficient.now monomial.now sign.now q }
    ensures { Deduced coefficient.now monomial.now sign.now p q set.0 result.0 }
{
    let mark = terms[PLACE];
    if mark != PLAIN {
        return deduce::deduce_from(coefficient, monomial, sign, p, q, set);
    }
    plain::deduce_from(coefficient, monomial, sign, p, q, set)
}
