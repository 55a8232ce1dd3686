// p + u·q, term by term: the greatest monomial first, like monomials combined, those with the coefficient 0 left out.
// The signs of the monomials are lent; they were worked out once for the board.
ghost use Rattle.std.specs.Prelude.{◌≡◌, ◌+ℤ◌, ◌*ℤ◌};
ghost use Rattle.deduce.specs.Merge.{Left};
ghost use Rattle.two_atoms.specs.Sums.{Places, NextSum, Led};

use interval::interval::cross;

// A monomial of p or q: its coefficient in p + u·q, the monomial and its sign set, and where the terms after it begin.
#[derive(Clone, Copy)]
pub struct Row {
    pub c: i64,
    pub monomial: u64,
    pub s: u8,
    pub i: usize,
    pub j: usize,
}

// The first term of p + u·q, if there is one, and where the terms of p and q after it begin.
// kept: `first` is public and gives it; a flag beside the term is not made an Option, since its contract names the parts.
#[derive(Clone, Copy)]
pub struct Lead {
    pub there: bool,
    pub c: i64,
    pub monomial: u64,
    pub s: u8,
    pub i: usize,
    pub j: usize,
}

// a + u·b fits 64 signed bits.
pub fn plus(a: i32, u: i32, b: i32) -> i64
    ensures { result ≡ a +ℤ u *ℤ b }
{
    (a as i64) + cross(u, b)
}

// The greatest monomial of p's terms at i..m and q's at j..n.
pub fn next(
    coefficient: &[i32],
    monomial: &[u64],
    sign: &[u8],
    i: usize,
    m: usize,
    j: usize,
    n: usize,
    u: i32,
) -> Row
    requires { Left coefficient.now monomial.now sign.now i m j n }
    ensures { NextSum coefficient.now monomial.now sign.now i m j n u result }
{
    if i < m {
        let a = coefficient[i];
        let s = sign[i];
        let mine = monomial[i];
        if j < n {
            let its = monomial[j];
            let b = coefficient[j];
            if mine == its {
                let c = plus(a, u, b);
                return Row {
                    c,
                    monomial: mine,
                    s,
                    i: i + 1,
                    j: j + 1,
                };
            }
            if its < mine {
                let c = plus(a, u, 0);
                return Row {
                    c,
                    monomial: mine,
                    s,
                    i: i + 1,
                    j,
                };
            }
            let s = sign[j];
            let c = plus(0, u, b);
            return Row {
                c,
                monomial: its,
                s,
                i,
                j: j + 1,
            };
        }
        let c = plus(a, u, 0);
        return Row {
            c,
            monomial: mine,
            s,
            i: i + 1,
            j,
        };
    }
    let b = coefficient[j];
    let s = sign[j];
    let its = monomial[j];
    let c = plus(0, u, b);
    Row {
        c,
        monomial: its,
        s,
        i,
        j: j + 1,
    }
}

// The first term of p + u·q, of p's terms at i..m and q's at j..n.
pub fn first(
    coefficient: &[i32],
    monomial: &[u64],
    sign: &[u8],
    i: usize,
    m: usize,
    j: usize,
    n: usize,
    u: i32,
) -> Lead
    requires { Places coefficient.now monomial.now sign.now i m × Places coefficient.now monomial.now sign.now j n }
    ensures { Led coefficient.now monomial.now sign.now i m j n u result }
{
    let mut x = i;
    let mut y = j;
    while x + y < m + n {
        let row = next(coefficient, monomial, sign, x, m, y, n, u);
        x = row.i;
        y = row.j;
        let c = row.c;
        if c != 0 {
            return Lead {
                there: true,
                c,
                monomial: row.monomial,
                s: row.s,
                i: x,
                j: y,
            };
        }
    }
    Lead {
        there: false,
        c: 0,
        monomial: 0,
        s: 1,
        i: x,
        j: y,
    }
}
