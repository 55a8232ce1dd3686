// The set by terms of p + u·q1 + v·q2, in one walk over the terms of p + u·q1 and of q2, the greatest monomial first.
// It ends where neither ≥ nor ≤ can hold the set any more.
ghost use Rattle.std.specs.Prelude.{◌≡◌, ◌+◌, ◌<◌, ◌*ℤ◌, ◌-ℤ◌};
ghost use Rattle.two_atoms.specs.Sums.{Places};
ghost use Rattle.rules.specs.Signs.{only, sign_of};
ghost use Rattle.two_atoms.specs.Totals.{Stepped, Total};

use crate::sum::first;
use deduce::Run;
use deduce::last::asks_zero;
use interval::interval::{cross, sign_between};
use signs::SignSet;

// A monomial of p, q1 or q2: its coefficient in p + u·q1 + v·q2 is x + v·b; its sign set, and where the terms after it begin.
#[derive(Clone, Copy)]
pub struct Step {
    pub x: i64,
    pub b: i32,
    pub s: u8,
    pub i: usize,
    pub j: usize,
    pub k: usize,
}

// The sign of x - w·b.
pub fn sign_less(x: i64, w: i32, b: i32) -> SignSet
    ensures { result.0 ≡ only (sign_of (x -ℤ w *ℤ b)) }
{
    sign_between(x, cross(w, b))
}

// The greatest monomial of p + u·q1, of p's terms at i..m and q1's at j..n, and of q2's at k..o.
pub fn next_step(
    coefficient: &[i32],
    monomial: &[u64],
    sign: &[u8],
    i: usize,
    m: usize,
    j: usize,
    n: usize,
    k: usize,
    o: usize,
    u: i32,
) -> Step
    requires p_and_q1 { Places coefficient.now monomial.now sign.now i m × Places coefficient.now monomial.now sign.now j n }
    requires q2_and_left { Places coefficient.now monomial.now sign.now k o × (i + j + k < m + n + o) }
    ensures { Stepped coefficient.now monomial.now sign.now i m j n k o u result }
{
    let lead = first(coefficient, monomial, sign, i, m, j, n, u);
    let x = lead.c;
    if k < o {
        let its = monomial[k];
        let b = coefficient[k];
        let s = sign[k];
        if lead.there {
            let mine = lead.monomial;
            if mine == its {
                return Step {
                    x,
                    b,
                    s: lead.s,
                    i: lead.i,
                    j: lead.j,
                    k: k + 1,
                };
            }
            if its < mine {
                return Step {
                    x,
                    b: 0,
                    s: lead.s,
                    i: lead.i,
                    j: lead.j,
                    k,
                };
            }
            return Step {
                x: 0,
                b,
                s,
                i,
                j,
                k: k + 1,
            };
        }
        return Step {
            x: 0,
            b,
            s,
            i,
            j,
            k: k + 1,
        };
    }
    Step {
        x,
        b: 0,
        s: lead.s,
        i: lead.i,
        j: lead.j,
        k,
    }
}

// The set by terms of p + u·q1 + v·q2, v being -w; the full set where it lies neither inside ≥ nor inside ≤.
pub fn total(
    coefficient: &[i32],
    monomial: &[u64],
    sign: &[u8],
    p: Run,
    q1: Run,
    q2: Run,
    u: i32,
    w: i32,
) -> SignSet
    requires p_and_q1 { Places coefficient.now monomial.now sign.now p.from p.to
        × Places coefficient.now monomial.now sign.now q1.from q1.to }
    requires q2_places { Places coefficient.now monomial.now sign.now q2.from q2.to }
    ensures { Total coefficient.now monomial.now sign.now p q1 q2 u w result.0 }
{
    let m = p.to;
    let n = q1.to;
    let o = q2.to;
    let mut sofar = SignSet(2);
    let mut i = p.from;
    let mut j = q1.from;
    let mut k = q2.from;
    while i + j + k < m + n + o {
        let step = next_step(coefficient, monomial, sign, i, m, j, n, k, o, u);
        i = step.i;
        j = step.j;
        k = step.k;
        let value = sign_less(step.x, w, step.b);
        sofar = sofar.sum(value.product(SignSet(step.s)));
        if asks_zero(sofar.0) {
            return SignSet::FULL;
        }
    }
    sofar
}
