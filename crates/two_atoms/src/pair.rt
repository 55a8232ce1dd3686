// What a pair of atoms says of p by the factors u and v, in the order of the tries: u from -4 up to 4 and inside it v, neither 0.
// A set is cut by the findings of all tries, or by the first that changes it.
ghost use Rattle.std.specs.Prelude.{◌≡◌, ◌<◌};
ghost use Rattle.two_atoms.specs.Cuts.{stops as stops_at};
ghost use Rattle.two_atoms.specs.Tries.{factor_at, PlacesOf, CutByTry, CutByV, CutByPair};
ghost use Rattle.two_atoms.specs.Ranges.{CutAt};

use crate::finding::{both, cut_by_tests, either, never_negative, never_positive, one_sided};
use crate::range::{Range, cutting, is_empty, within};
use crate::total::total;
use deduce::Run;
use interval::vanishing::is_strict;
use signs::SignSet;

// p, and the two atoms: their polynomials and their sets.
#[derive(Clone, Copy)]
pub struct Pair {
    pub p: Run,
    pub q1: Run,
    pub q2: Run,
    pub set1: u8,
    pub set2: u8,
}

// "whole factors from -4 up to 4, neither 0": the one at an index.
pub fn factor(i: usize) -> i32
    ensures { result ≡ factor_at i }
{
    match i {
        0 => -4,
        1 => -3,
        2 => -2,
        3 => -1,
        4 => 1,
        5 => 2,
        6 => 3,
        _ => 4,
    }
}

// Whether the tries end here: at the first that changes the set, unless all are asked for.
#[tactic(auto, unfolding(crate::specs::Cuts::stops))]
pub fn stops(all: bool, cut: u8, set: u8) -> bool
    ensures { result ≡ stops_at all cut set }
{
    if all { false } else { cut != set }
}

// A set, cut by the try with the factors u and v, v being -w.
pub fn cut_by_try(
    coefficient: &[i32],
    monomial: &[u64],
    sign: &[u8],
    pair: Pair,
    u: i32,
    v: i32,
    w: i32,
    set: SignSet,
) -> SignSet
    requires { PlacesOf coefficient.now monomial.now sign.now pair }
    ensures { CutByTry coefficient.now monomial.now sign.now pair u v w set.0 result.0 }
{
    let set1 = pair.set1;
    let set2 = pair.set2;
    let below = both(never_positive(u, set1), never_positive(v, set2));
    let above = both(never_negative(u, set1), never_negative(v, set2));
    if either(below, above) {
        let strict = either(is_strict(set1), is_strict(set2));
        let total = total(coefficient, monomial, sign, pair.p, pair.q1, pair.q2, u, w);
        return cut_by_tests(set, below, above, total, strict);
    }
    set
}

// A set, cut by the try with u and the v at an index, if that is in one of the ranges; no other try cuts it.
pub fn cut_at(
    coefficient: &[i32],
    monomial: &[u64],
    sign: &[u8],
    pair: Pair,
    u: i32,
    i: usize,
    below: Range,
    above: Range,
    set: SignSet,
) -> SignSet
    requires { PlacesOf coefficient.now monomial.now sign.now pair × (i < 8) }
    ensures { CutAt coefficient.now monomial.now sign.now pair u i below above set.0 result.0 }
{
    if either(within(below, i), within(above, i)) {
        return cut_by_try(
            coefficient,
            monomial,
            sign,
            pair,
            u,
            factor(i),
            factor(7 - i),
            set,
        );
    }
    set
}

// A set, cut by the tries with one u and all v.
pub fn cut_by_v(
    coefficient: &[i32],
    monomial: &[u64],
    sign: &[u8],
    pair: Pair,
    u: i32,
    all: bool,
    set: SignSet,
) -> SignSet
    requires { PlacesOf coefficient.now monomial.now sign.now pair }
    ensures { CutByV coefficient.now monomial.now sign.now pair u all set.0 result.0 }
{
    let below = cutting(coefficient, monomial, sign, pair, u, false, set);
    let above = cutting(coefficient, monomial, sign, pair, u, true, set);
    if both(is_empty(below), is_empty(above)) {
        return set;
    }
    let mut sofar = set;
    for i in 0..8 {
        let cut = cut_at(coefficient, monomial, sign, pair, u, i, below, above, sofar);
        if stops(all, cut.0, sofar.0) {
            return cut;
        }
        sofar = cut;
    }
    sofar
}

// A set, cut by the tries with all u and v.
pub fn cut_by_u(
    coefficient: &[i32],
    monomial: &[u64],
    sign: &[u8],
    pair: Pair,
    all: bool,
    set: SignSet,
) -> SignSet
    requires { PlacesOf coefficient.now monomial.now sign.now pair }
    ensures { CutByPair coefficient.now monomial.now sign.now pair all set.0 result.0 }
{
    let mut sofar = set;
    for i in 0..8 {
        let u = factor(i);
        let cut = cut_by_v(coefficient, monomial, sign, pair, u, all, sofar);
        if stops(all, cut.0, sofar.0) {
            return cut;
        }
        sofar = cut;
    }
    sofar
}

// And if one of the atoms' sets allows no test, there is no try.
pub fn cut_by_pair(
    coefficient: &[i32],
    monomial: &[u64],
    sign: &[u8],
    pair: Pair,
    all: bool,
    set: SignSet,
) -> SignSet
    requires { PlacesOf coefficient.now monomial.now sign.now pair }
    ensures { CutByPair coefficient.now monomial.now sign.now pair all set.0 result.0 }
{
    if both(one_sided(pair.set1), one_sided(pair.set2)) {
        return cut_by_u(coefficient, monomial, sign, pair, all, set);
    }
    set
}
