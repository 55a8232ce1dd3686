// The monomials of p, q1 and q2 together, the greatest first, each with its three coefficients, 0 where a form does not have it.
// The monomials of each form have to fall, which is asked beforehand.
ghost use Rattle.std.specs.Prelude.{◌≡◌, true, ◌+◌, ◌<◌, ◌≤◌, length};
ghost use Rattle.two_atoms.specs.Tries.{PlacesOf};
ghost use Rattle.sieve.specs.Rows.{Falls, FallsOf, HeadOf, Larger, TakenAt, OneOf, Sized, NextRow, rows, Filled};

use deduce::Run;
use two_atoms::pair::Pair;

// What a form has at a monomial: its coefficient, the monomial's set if the form has it, and where its terms below begin.
#[derive(Clone, Copy)]
pub struct Share {
    pub c: i32,
    pub s: u8,
    pub i: usize,
}

// A monomial: its coefficients in p, q1 and q2, its set, and where the terms below it begin.
#[derive(Clone, Copy)]
pub struct Row {
    pub a: i32,
    pub b: i32,
    pub c: i32,
    pub s: u8,
    pub i: usize,
    pub j: usize,
    pub k: usize,
}

// Whether the monomials of a run fall.
pub fn falls(monomial: &[u64], run: Run) -> bool
    requires { run.to ≤ length monomial.now }
    ensures { result ≡ true → Falls monomial.now run.from run.to }
{
    for i in run.from..run.to {
        if i + 1 < run.to && monomial[i] <= monomial[i + 1] {
            return false;
        }
    }
    true
}

// The monomial at i, 0 at the end of the run.
fn head(monomial: &[u64], i: usize, to: usize) -> u64
    requires { to ≤ length monomial.now }
    ensures { HeadOf monomial.now i to result }
{
    if i < to { monomial[i] } else { 0 }
}

fn larger(x: u64, y: u64) -> u64
    ensures { Larger x y result }
{
    x.max(y)
}

// What the terms at i..to, of which the first is at most the greatest left, have at a monomial.
fn taken(coefficient: &[i32], monomial: &[u64], sign: &[u8], i: usize, to: usize, top: u64) -> Share
    requires { Sized to coefficient.now monomial.now sign.now }
    ensures { TakenAt coefficient.now monomial.now sign.now i to top result }
{
    if i < to {
        let its = monomial[i];
        if its == top {
            let c = coefficient[i];
            let s = sign[i];
            return Share { c, s, i: i + 1 };
        }
        return Share { c: 0, s: 0, i };
    }
    Share { c: 0, s: 0, i }
}

// The set of a monomial, from the forms that have it.
fn shared(x: u8, y: u8, z: u8) -> u8
    ensures { OneOf x y z result }
{
    if x != 0 {
        return x;
    }
    if y != 0 {
        return y;
    }
    z
}

// The row of the greatest monomial of p's terms from i on, q1's from j on and q2's from k on.
fn next_row(
    coefficient: &[i32],
    monomial: &[u64],
    sign: &[u8],
    pair: Pair,
    i: usize,
    j: usize,
    k: usize,
) -> Row
    requires { PlacesOf coefficient.now monomial.now sign.now pair × (i + j + k < pair.p.to + pair.q1.to + pair.q2.to) }
    ensures { NextRow coefficient.now monomial.now sign.now pair i j k result }
{
    let m = pair.p.to;
    let n = pair.q1.to;
    let o = pair.q2.to;
    let top = larger(
        larger(head(monomial, i, m), head(monomial, j, n)),
        head(monomial, k, o),
    );
    let first = taken(coefficient, monomial, sign, i, m, top);
    let second = taken(coefficient, monomial, sign, j, n, top);
    let third = taken(coefficient, monomial, sign, k, o, top);
    let s = shared(first.s, second.s, third.s);
    Row {
        a: first.c,
        b: second.c,
        c: third.c,
        s,
        i: first.i,
        j: second.i,
        k: third.i,
    }
}

// The rows of a pair, at most 48, and how many there are.
pub fn fill(
    coefficient: &[i32],
    monomial: &[u64],
    sign: &[u8],
    pair: Pair,
    a: &mut [i32],
    b: &mut [i32],
    c: &mut [i32],
    s: &mut [u8],
) -> usize
    requires places_of { PlacesOf coefficient.now monomial.now sign.now pair × FallsOf monomial.now pair }
    requires lengths { (length a.old ≡ 48) × ((length b.old ≡ 48) × ((length c.old ≡ 48) × (length s.old ≡ 48))) }
    ensures { let x = rows a.new b.new c.new s.new in
        Filled coefficient.now monomial.now sign.now pair x result }
{
    let mut i = pair.p.from;
    let mut j = pair.q1.from;
    let mut k = pair.q2.from;
    for count in 0..48 {
        if i + j + k >= pair.p.to + pair.q1.to + pair.q2.to {
            return count;
        }
        let row = next_row(coefficient, monomial, sign, pair, i, j, k);
        a[count] = row.a;
        b[count] = row.b;
        c[count] = row.c;
        s[count] = row.s;
        i = row.i;
        j = row.j;
        k = row.k;
    }
    48
}
