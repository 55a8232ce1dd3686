// The values one after the other: each -a/b with b not 0, and 0; behind each the one between it and its neighbour above, or the greatest plus 1; last the least less 1.
// None is stored. Of equal fractions each is met, and gives what the others give: "equal fractions are one value".
ghost use Rattle.std.specs.Prelude.{◌≡◌, [], ◌∷◌, ◌*◌};
ghost use Rattle.rules.specs.Deduce.{Fraction};
ghost use Rattle.plain_laws.specs.Bounds.{largest};
ghost use Rattle.interval.specs.Ends.{end_of};
ghost use Rattle.plain.specs.Met.{nearer as nearer_of, met_from, met_end};
ghost use Rattle.plain.specs.Values.{Is, Held, SmallEnd};
ghost use Rattle.plain.specs.Tests.{Lent, Neighbour, SeenOf, nothing};

use crate::tests::{Seen, and_then, test_value};
use crate::value::{Value, beside, listed, under};
use deduce::Run;
use deduce::merge::next;
use interval::interval::End;

// The nearer of two above f, where e may be none.
fn nearer(f: End, near: End, e: End) -> End
    requires { SmallEnd near × SmallEnd e }
    ensures { (end_of result ≡ nearer_of (end_of f) (end_of near) (end_of e)) × SmallEnd result }
{
    let b = e.b;
    if b == 0 {
        return near;
    }
    if f.below(e) { near.lower(e) } else { near }
}

// The neighbour above f among 0 and the fractions -a/b; none above the greatest. Of an f that is none it is the least of all.
fn neighbour(coefficient: &[i32], monomial: &[u64], sign: &[u8], p: Run, q: Run, f: End) -> End
    requires { Lent coefficient.now monomial.now sign.now p q }
    ensures { Neighbour coefficient.now monomial.now sign.now p q f result }
{
    let p_to = p.to;
    let q_to = q.to;
    let mut near = nearer(f, End { a: 0, b: 0 }, End::ZERO);
    let mut i = p.from;
    let mut j = q.from;
    while i + j < p_to + q_to {
        let step = next(coefficient, monomial, sign, i, p_to, j, q_to);
        i = step.i;
        j = step.j;
        let a = step.a;
        let b = step.b;
        near = nearer(f, near, End { a, b });
    }
    near
}

// What was seen, and then of t.
fn tested(
    coefficient: &[i32],
    monomial: &[u64],
    sign: &[u8],
    p: Run,
    q: Run,
    set: u8,
    seen: Seen,
    t: Value,
) -> Seen
    requires lent { Lent coefficient.now monomial.now sign.now p q }
    requires held { Held (2 * largest) t }
    ensures { (f : Fraction) → Is t f → SeenOf coefficient.now monomial.now sign.now p q set seen (λ xs. f ∷ []) result }
{
    let passed = test_value(coefficient, monomial, sign, p, q, t);
    and_then(set, seen, t.sign(), passed)
}

// What was seen, and then of the listed fraction f and of the value behind it; nothing more where f is none.
fn met(
    coefficient: &[i32],
    monomial: &[u64],
    sign: &[u8],
    p: Run,
    q: Run,
    set: u8,
    seen: Seen,
    f: End,
) -> Seen
    requires { Lent coefficient.now monomial.now sign.now p q × SmallEnd f }
    ensures { SeenOf coefficient.now monomial.now sign.now p q set seen (λ xs. met_end xs (end_of f) []) result }
{
    let b = f.b;
    if b == 0 {
        return seen;
    }
    let near = neighbour(coefficient, monomial, sign, p, q, f);
    let more = tested(coefficient, monomial, sign, p, q, set, seen, listed(f));
    tested(
        coefficient,
        monomial,
        sign,
        p,
        q,
        set,
        more,
        beside(f, near),
    )
}

// What is seen of all of them.
pub fn seen(coefficient: &[i32], monomial: &[u64], sign: &[u8], p: Run, q: Run, set: u8) -> Seen
    requires { Lent coefficient.now monomial.now sign.now p q }
    ensures { SeenOf coefficient.now monomial.now sign.now p q set nothing (λ xs. met_from xs xs) result }
{
    let p_to = p.to;
    let q_to = q.to;
    let mut so_far = Seen {
        l: false,
        above: false,
        u: false,
        below: false,
    };
    let mut i = p.from;
    let mut j = q.from;
    while i + j < p_to + q_to {
        let step = next(coefficient, monomial, sign, i, p_to, j, q_to);
        i = step.i;
        j = step.j;
        let a = step.a;
        let b = step.b;
        so_far = met(coefficient, monomial, sign, p, q, set, so_far, End { a, b });
    }
    so_far = met(coefficient, monomial, sign, p, q, set, so_far, End::ZERO);
    let least = neighbour(coefficient, monomial, sign, p, q, End { a: 0, b: 0 });
    tested(coefficient, monomial, sign, p, q, set, so_far, under(least))
}
