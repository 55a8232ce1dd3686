// The merge of p's and q's terms: the monomials of p or q, the greatest first, each cuts L and U.
// The signs of the monomials are lent; they were worked out once for the board.
ghost use Rattle.std.specs.Prelude.{◌≡◌, ◌||◌};
ghost use Rattle.rules.specs.Signs.{kind};
ghost use Rattle.rules.specs.Deduce.{has_t as has_t_of};
ghost use Rattle.interval.specs.Ends.{interval_of};
ghost use Rattle.deduce.specs.Merge.{gathered_of, gather_row, Left, Next};
ghost use Rattle.deduce.specs.Last.{AtLast};

use crate::last::Last;
use interval::interval::{End, Interval};
use interval::vanishing::Vanishing;

// L and U so far, and where the monomials with set > or < vanish.
#[derive(Clone, Copy)]
pub struct Cuts {
    pub l: Interval,
    pub u: Interval,
    pub vanishing: Vanishing,
}

// A monomial of p or q: its coefficients in p and in q, its sign set, and where the terms after it begin.
#[derive(Clone, Copy)]
pub struct Step {
    pub a: i32,
    pub b: i32,
    pub s: u8,
    pub i: usize,
    pub j: usize,
}

impl Cuts {
    // Cuts L and U by a monomial.
    pub fn by(self, a: i32, b: i32, s: u8) -> Cuts
        ensures { gathered_of result ≡ gather_row (kind s) a b (gathered_of self) }
    {
        let so_far = self.vanishing;
        let vanishing = so_far.by(a, b, s);
        let l = self.l;
        let u = self.u;
        match s {
            1 | 3 => {
                let l = l.cut_not_negative(a, b);
                let u = u.cut_not_positive(a, b);
                Cuts { l, u, vanishing }
            }
            4 | 6 => {
                let l = l.cut_not_positive(a, b);
                let u = u.cut_not_negative(a, b);
                Cuts { l, u, vanishing }
            }
            0 | 2 => Cuts { l, u, vanishing },
            _ => {
                let l = l.cut_not_positive(a, b).cut_not_negative(a, b);
                let u = u.cut_not_positive(a, b).cut_not_negative(a, b);
                Cuts { l, u, vanishing }
            }
        }
    }

    // Whether L and U hold a t, which is there, and whether some monomial with set > or < does not vanish at it.
    pub fn at(self, t: End) -> Last
        ensures { AtLast self t result }
    {
        let l = self.l;
        let u = self.u;
        let vanishing = self.vanishing;
        Last {
            t,
            l: l.holds(t),
            u: u.holds(t),
            strict: vanishing.strict_at(t),
        }
    }

    // Whether L or U has a t.
    pub fn has_t(self) -> bool
        ensures { result ≡ (has_t_of (interval_of self.l) || has_t_of (interval_of self.u)) }
    {
        self.l.has_t() || self.u.has_t()
    }
}

// The greatest monomial of p's terms at i..m and q's at j..n.
pub fn next(
    coefficient: &[i32],
    monomial: &[u64],
    sign: &[u8],
    i: usize,
    m: usize,
    j: usize,
    n: usize,
) -> Step
    requires { Left coefficient.now monomial.now sign.now i m j n }
    ensures { Next coefficient.now monomial.now sign.now i m j n result }
{
    if i < m {
        let a = coefficient[i];
        let s = sign[i];
        if j < n {
            let mine = monomial[i];
            let its = monomial[j];
            let b = coefficient[j];
            if mine == its {
                return Step {
                    a,
                    b,
                    s,
                    i: i + 1,
                    j: j + 1,
                };
            }
            if its < mine {
                return Step {
                    a,
                    b: 0,
                    s,
                    i: i + 1,
                    j,
                };
            }
            let s = sign[j];
            return Step {
                a: 0,
                b,
                s,
                i,
                j: j + 1,
            };
        }
        return Step {
            a,
            b: 0,
            s,
            i: i + 1,
            j,
        };
    }
    let b = coefficient[j];
    let s = sign[j];
    Step {
        a: 0,
        b,
        s,
        i,
        j: j + 1,
    }
}
