// What one try finds: by q1's and q2's sets the factors allow a test or the mirrored one, and the set by terms passes it or not.
ghost use Rattle.std.specs.Prelude.{◌≡◌, ◌&&◌, ◌||◌};
ghost use Rattle.rules.specs.Signs.{kind};
ghost use Rattle.rules.specs.TwoAtoms.{non_positive as non_positive_of, non_negative as non_negative_of, never_positive as never_positive_of, never_negative as never_negative_of, pair_found, pair_mirrored, tried, cut_by_all};

use signs::SignSet;

// Whether a set holds numbers that are never positive, and never negative; "sets ≠ and full being left out".
pub fn non_positive(set: u8) -> bool
    ensures { result ≡ non_positive_of (kind set) }
{
    matches!(set, 2 | 4 | 6)
}

pub fn non_negative(set: u8) -> bool
    ensures { result ≡ non_negative_of (kind set) }
{
    set != 0 && set <= 3
}

// Whether u·q is never positive, and never negative, by q's set.
pub fn never_positive(u: i32, set: u8) -> bool
    ensures { result ≡ never_positive_of u (kind set) }
{
    if u < 0 {
        non_negative(set)
    } else {
        non_positive(set)
    }
}

pub fn never_negative(u: i32, set: u8) -> bool
    ensures { result ≡ never_negative_of u (kind set) }
{
    if u < 0 {
        non_positive(set)
    } else {
        non_negative(set)
    }
}

pub fn both(a: bool, b: bool) -> bool
    ensures { result ≡ (a && b) }
{
    a && b
}

pub fn either(a: bool, b: bool) -> bool
    ensures { result ≡ (a || b) }
{
    a || b
}

// Whether a set allows a test with any factor.
pub fn one_sided(set: u8) -> bool
    ensures { result ≡ (non_positive_of (kind set) || non_negative_of (kind set)) }
{
    either(non_positive(set), non_negative(set))
}

// "If the set by terms lies inside ≥, then p ≥ 0; and p > 0 if that set is > or if q1's or q2's set is < or >."
#[tactic(auto, unfolding(rules::specs::TwoAtoms::pair_found, rules::specs::Deduce::found))]
pub fn found(total: SignSet, strict: bool) -> SignSet
    ensures { result.0 ≡ pair_found total.0 strict }
{
    if total.inside(SignSet(3)) {
        if either(total.inside(SignSet(1)), strict) {
            return SignSet(1);
        }
        return SignSet(3);
    }
    SignSet::FULL
}

// "The mirrored test gives ≤ and <."
#[tactic(auto, unfolding(rules::specs::TwoAtoms::pair_mirrored))]
pub fn mirrored(total: SignSet, strict: bool) -> SignSet
    ensures { result.0 ≡ pair_mirrored total.0 strict }
{
    found(total.mirror(), strict).mirror()
}

// A set, cut by the findings of the tests that the factors allow.
#[tactic(auto, unfolding(rules::specs::TwoAtoms::cut_by_all, rules::specs::TwoAtoms::tried))]
pub fn cut_by_tests(set: SignSet, below: bool, above: bool, total: SignSet, strict: bool) -> SignSet
    ensures { result.0 ≡ cut_by_all set.0 (tried below above total.0 strict) }
{
    if below {
        let finding = found(total, strict);
        if above {
            return set.intersect(finding.intersect(mirrored(total, strict)));
        }
        return set.intersect(finding);
    }
    if above {
        return set.intersect(mirrored(total, strict));
    }
    set
}
