// What is found of p by q's set, from the allowed t of L and of U and the monomials that are strict at them: 01's five bullets as 02, #104, has them.
// L gives > and ≥; what U gives is the same with < for > and ≤ for ≥.
ghost use Rattle.std.specs.Prelude.{◌≡◌, ◌&&◌, ◌||◌};
ghost use Rattle.rules.specs.Signs.{kind, mirror, intersect};
ghost use Rattle.deduction_laws.specs.Vanishing.{found_by, finding_by};
ghost use Rattle.interval.specs.Ends.{interval_of, vanishing_of};

use crate::interval::Interval;
use crate::vanishing::{Vanishing, is_strict};
use signs::SignSet;

// Strict where some t is: a monomial is strict at it, or q's set is < or > and it is other than 0.
pub fn strictly(q: bool, other: bool, monomial: bool) -> bool
    ensures { result ≡ ((q && other) || monomial) }
{
    q && other || monomial
}

// What the t of L give, all of which are allowed.
pub fn found_in(set: u8, r: Interval, v: Vanishing) -> SignSet
    ensures { result.0 ≡ found_by (kind set) (interval_of r) (vanishing_of v) }
{
    if !r.has_t() {
        return SignSet::FULL;
    }
    if strictly(is_strict(set), r.has_other(), v.strict_in(r)) {
        SignSet(1)
    } else {
        SignSet(3)
    }
}

// "The findings are intersected."
pub fn found_in_both(set: u8, l: Interval, u: Interval, v: Vanishing) -> SignSet
    ensures { result.0 ≡ intersect (found_by (kind set) (interval_of l) (vanishing_of v)) (mirror (found_by (kind set) (interval_of u) (vanishing_of v))) }
{
    found_in(set, l, v).intersect(found_in(set, u, v).mirror())
}

// The t that q's set allows: for L those from 0 up if it is < or ≤, those from 0 down if it is > or ≥, every t if it is =; for U the other way about.
// With ≠ and the full set no t is asked for. They are asked for here, once L and U are known: most deductions end before.
pub fn finding(set: u8, l: Interval, u: Interval, v: Vanishing) -> SignSet
    ensures { result.0 ≡ finding_by (kind set) (interval_of l) (interval_of u) (vanishing_of v) }
{
    match set {
        1 | 3 => found_in_both(set, l.cut_not_negative(0, -1), u.cut_not_negative(0, 1), v),
        4 | 6 => found_in_both(set, l.cut_not_negative(0, 1), u.cut_not_negative(0, -1), v),
        2 => found_in_both(set, l, u, v),
        _ => SignSet::FULL,
    }
}
