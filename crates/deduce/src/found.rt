// What is found of p from q and its set, over all monomials of p or q: no further than where neither L nor U has a t.
// Where one t is left the rest of the merge is about that t; where it is 0 the terms of q say no more.
ghost use Rattle.std.specs.Prelude.{◌≤◌, length};
ghost use Rattle.interval.specs.Ends.{There, Zero};
ghost use Rattle.deduce.specs.Merge.{nothing, Found};
ghost use Rattle.deduce.specs.Last.{last_of, FoundAtZero};
ghost use Rattle.deduce.specs.Runs.{Within};

use crate::Run;
use crate::last::{Last, leaves_one, rules_out};
use crate::merge::{Cuts, next};
use interval::finding::finding;
use interval::interval::{End, Interval};
use interval::vanishing::Vanishing;
use signs::SignSet;
use terms::sign_of;

// Where 0 is left: a + tb is a.
pub fn found_at_zero(coefficient: &[i32], sign: &[u8], p: Run, set: u8, last: Last) -> SignSet
    requires to_in_bounds { (p.to ≤ length coefficient.now) × (p.to ≤ length sign.now) }
    requires zero { Zero last.t }
    ensures { FoundAtZero coefficient.now sign.now p set last result.0 }
{
    let mut left = last;
    for i in p.from..p.to {
        let a = coefficient[i];
        let s = sign[i];
        let value = sign_of(a);
        if rules_out(value, s) {
            return SignSet::FULL;
        }
        left = left.by(value, s);
        if left.is_gone() {
            return SignSet::FULL;
        }
    }
    left.found(set)
}

// Where one t is left.
pub fn found_at(
    coefficient: &[i32],
    monomial: &[u64],
    sign: &[u8],
    p: Run,
    q: Run,
    set: u8,
    last: Last,
) -> SignSet
    requires within_p { Within coefficient.now monomial.now sign.now p }
    requires within_q { Within coefficient.now monomial.now sign.now q }
    requires there { There last.t }
    ensures { Found coefficient.now monomial.now sign.now p q set (last_of last) result.0 }
{
    let p_to = p.to;
    let q_to = q.to;
    let mut left = last;
    let mut i = p.from;
    let mut j = q.from;
    while i + j < p_to + q_to {
        let step = next(coefficient, monomial, sign, i, p_to, j, q_to);
        i = step.i;
        j = step.j;
        let t = left.t;
        let value = t.sign_at(step.a, step.b);
        if rules_out(value, step.s) {
            return SignSet::FULL;
        }
        left = left.by(value, step.s);
        if left.is_gone() {
            return SignSet::FULL;
        }
    }
    left.found(set)
}

pub fn found(coefficient: &[i32], monomial: &[u64], sign: &[u8], p: Run, q: Run, set: u8) -> SignSet
    requires within_p { Within coefficient.now monomial.now sign.now p }
    requires within_q { Within coefficient.now monomial.now sign.now q }
    ensures { Found coefficient.now monomial.now sign.now p q set nothing result.0 }
{
    let p_to = p.to;
    let q_to = q.to;
    let mut c = Cuts {
        l: Interval::EVERY_T,
        u: Interval::EVERY_T,
        vanishing: Vanishing::EVERYWHERE,
    };
    let mut i = p.from;
    let mut j = q.from;
    while i + j < p_to + q_to {
        let step = next(coefficient, monomial, sign, i, p_to, j, q_to);
        i = step.i;
        j = step.j;
        let a = step.a;
        let b = step.b;
        let s = step.s;
        if leaves_one(b, s) {
            let mine = Run { from: i, to: p_to };
            let its = Run { from: j, to: q_to };
            let last = c.at(End { a, b });
            if a == 0 {
                return found_at_zero(coefficient, sign, mine, set, last);
            }
            return found_at(coefficient, monomial, sign, mine, its, set, last);
        }
        c = c.by(a, b, s);
        if !c.has_t() {
            return SignSet::FULL;
        }
    }
    let l = c.l;
    let u = c.u;
    let v = c.vanishing;
    finding(set, l, u, v)
}
