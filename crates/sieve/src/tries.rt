// The tries of a pair by its rows: with the factors u and v, v being -w, a row's coefficient is a + u·b - w·c.
// A try is given up at a row that bars it; the next one begins at that row, which mostly bars it too.
ghost use Rattle.std.specs.Prelude.{◌≡◌, ◌≤◌};
ghost use Rattle.rules.specs.Signs.{kind};
ghost use Rattle.deduction_laws.specs.FractionSets.{L};
ghost use Rattle.sieve.specs.Rows.{rows};
ghost use Rattle.sieve.specs.Tries.{Wrapped, can_be as can_be_of, RowBars, Held, Stopped, StoppedAll, StoppedBoth, StoppedHalves, half_of, PassedTest};
ghost use Rattle.sieve.specs.Tries.{PassedPair};

use interval::interval::cross;
use two_atoms::finding::{both, non_negative, non_positive};
use two_atoms::pair::factor;
use two_atoms::sum::plus;

// Whether a set has the sign that bars a test, + for the mirrored one and - for ≥.
fn can_be(s: u8, lowers: bool) -> bool
    ensures { result ≡ can_be_of lowers s }
{
    if lowers { s % 2 == 1 } else { s / 4 % 2 == 1 }
}

// Whether a row with the set s bars a test: the mirrored one where `lowers`, else ≥.
fn row_bars(a: i32, b: i32, c: i32, s: u8, u: i32, w: i32, lowers: bool) -> bool
    ensures { RowBars a b c s u w lowers result }
{
    let x = plus(a, u, b);
    let y = cross(w, c);
    if x <= y {
        if y <= x {
            return false;
        }
        return can_be(s, !lowers);
    }
    can_be(s, lowers)
}

// A row that is there, the first one past the end.
fn wrapped(i: usize, n: usize) -> usize
    ensures { Wrapped n result }
{
    if i < n { i } else { 0 }
}

// A row that bars the test, n if there is none; they are walked round from the hint on.
fn may_pass(
    a: &[i32],
    b: &[i32],
    c: &[i32],
    s: &[u8],
    n: usize,
    u: i32,
    w: i32,
    lowers: bool,
    hint: usize,
) -> usize
    requires { Held (rows a.now b.now c.now s.now) n }
    ensures { Stopped (rows a.now b.now c.now s.now) n u w lowers result }
{
    let mut i = hint;
    for _ in 0..n {
        let at = wrapped(i, n);
        let x = a[at];
        let y = b[at];
        let z = c[at];
        let t = s[at];
        i = at + 1;
        if row_bars(x, y, z, t, u, w, lowers) {
            return at;
        }
    }
    n
}

// With one u, and the w at the indices from..to: the row that bars the last one, n if one of them may pass.
fn some_second(
    a: &[i32],
    b: &[i32],
    c: &[i32],
    s: &[u8],
    n: usize,
    u: i32,
    from: usize,
    to: usize,
    lowers: bool,
    hint: usize,
) -> usize
    requires { Held (rows a.now b.now c.now s.now) n × (to ≤ 8) }
    ensures { StoppedAll (rows a.now b.now c.now s.now) n u from to lowers result }
{
    let mut row = hint;
    for j in from..to {
        let w = factor(j);
        row = may_pass(a, b, c, s, n, u, w, lowers, row);
        if n <= row {
            return n;
        }
    }
    row
}

// With the u at the indices first..last too.
fn some_both(
    a: &[i32],
    b: &[i32],
    c: &[i32],
    s: &[u8],
    n: usize,
    first: usize,
    last: usize,
    from: usize,
    to: usize,
    lowers: bool,
    hint: usize,
) -> usize
    requires { Held (rows a.now b.now c.now s.now) n × ((last ≤ 8) × (to ≤ 8)) }
    ensures { StoppedBoth (rows a.now b.now c.now s.now) n first last from to lowers result }
{
    let mut row = hint;
    for i in first..last {
        let u = factor(i);
        row = some_second(a, b, c, s, n, u, from, to, lowers, row);
        if n <= row {
            return n;
        }
    }
    row
}

// Whether u·q is never positive for the u above 0, or for those below, by q's set.
#[tactic(auto, unfolding(crate::specs::Tries::half_of))]
fn half(above: bool, set: u8) -> bool
    ensures { result ≡ half_of L above (kind set) }
{
    if above {
        non_positive(set)
    } else {
        non_negative(set)
    }
}

// With the u of one sign and the v of one sign, if the sets allow them.
fn some_halves(
    a: &[i32],
    b: &[i32],
    c: &[i32],
    s: &[u8],
    n: usize,
    first: usize,
    from: usize,
    allowed: bool,
    lowers: bool,
    hint: usize,
) -> usize
    requires { Held (rows a.now b.now c.now s.now) n × ((first ≤ 4) × (from ≤ 4)) }
    ensures { StoppedHalves (rows a.now b.now c.now s.now) n first from allowed lowers result }
{
    if allowed {
        return some_both(
            a,
            b,
            c,
            s,
            n,
            first,
            first + 4,
            from,
            from + 4,
            lowers,
            hint,
        );
    }
    hint
}

// Whether one of the tests, which can cut the set where `cuts`, may pass.
fn some_test(
    a: &[i32],
    b: &[i32],
    c: &[i32],
    s: &[u8],
    n: usize,
    set1: u8,
    set2: u8,
    cuts: bool,
    lowers: bool,
) -> bool
    requires { Held (rows a.now b.now c.now s.now) n }
    ensures { PassedTest (rows a.now b.now c.now s.now) n set1 set2 cuts lowers result }
{
    if !cuts {
        return false;
    }
    let below1 = half(lowers, set1);
    let above1 = half(!lowers, set1);
    let below2 = half(lowers, set2);
    let above2 = half(!lowers, set2);
    let row1 = some_halves(a, b, c, s, n, 0, 4, both(below1, below2), lowers, 0);
    if n <= row1 {
        return true;
    }
    let row2 = some_halves(a, b, c, s, n, 0, 0, both(below1, above2), lowers, row1);
    if n <= row2 {
        return true;
    }
    let row3 = some_halves(a, b, c, s, n, 4, 4, both(above1, below2), lowers, row2);
    if n <= row3 {
        return true;
    }
    let row4 = some_halves(a, b, c, s, n, 4, 0, both(above1, above2), lowers, row3);
    n <= row4
}

// Whether some try may cut the set.
pub fn any_try(
    a: &[i32],
    b: &[i32],
    c: &[i32],
    s: &[u8],
    n: usize,
    set1: u8,
    set2: u8,
    set: u8,
) -> bool
    requires { Held (rows a.now b.now c.now s.now) n }
    ensures { PassedPair (rows a.now b.now c.now s.now) n set1 set2 set result }
{
    if some_test(a, b, c, s, n, set1, set2, 2 <= set, false) {
        return true;
    }
    some_test(a, b, c, s, n, set1, set2, set % 4 != 0, true)
}
