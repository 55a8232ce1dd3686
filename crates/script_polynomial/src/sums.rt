// Terms and polynomials of a script, stored from a place of two lent arrays on.
ghost use Rattle.std.specs.Prelude.{◌&&◌, ◌≡◌, ℕ, ◌+◌, ◌-◌, ◌≤◌, ◌<◌, eqb, ltb, length, get_or};
ghost use Rattle.rules.specs.Reading.{beyond, next_term, other_terms, polynomial};
ghost use Rattle.script_polynomial.specs.Terms.{Room, opens_with, product_term, TermFound, ConstantFound, alone_term, sum_of_terms, SumFound};
ghost use Rattle.script_polynomial.specs.Terms.{AfterFound, StepFound, OthersFound, SpaceFound};

use crate::bytes::{agreed, byte_at};
use crate::numbers::read_number;
use crate::products::read_product;
use crate::{Read, Stop};

// What reading the next term of a sum finds: the position behind the sum, if it is the last;
// or the monomial that the next one must stand below, and its position.
#[derive(Clone, Copy)]
pub enum Step {
    Last(usize),
    More { below: u64, behind: usize },
}

// Does a parenthesis with this byte behind it stand there?
fn opens(text: &[u8], at: usize, byte: u8) -> bool
    requires { at ≤ length text.now }
    ensures { result ≡ opens_with text.now at byte }
{
    if byte_at(text, at) != 40 {
        return false;
    }
    byte_at(text, at + 1) == byte
}

// A product with the parenthesis before it, stored at a place: its monomial is given.
fn read_term(
    text: &[u8],
    coefficient: &mut [i32],
    monomial: &mut [u64],
    at: usize,
    n: usize,
    limit: u64,
    place: usize,
) -> Result<Read<u64>, Stop>
    requires { (at ≤ length text.now) × (0 < n) × (n ≤ 16) × (0 < limit) × Room coefficient.old monomial.old place 1 }
    ensures { TermFound text.now at (product_term n limit) place coefficient.old coefficient.new
        monomial.old monomial.new result }
{
    let start = agreed(text, at, b"(* ");
    if start - at < 3 {
        return Err(Stop { at: start });
    }
    let found = read_product(text, start, n, limit)?;
    coefficient[place] = found.coefficient;
    monomial[place] = found.monomial;
    Ok(Read {
        value: found.monomial,
        behind: found.behind,
    })
}

// A number as the only or the last term, stored at a place: the position behind it is given.
fn read_constant(
    text: &[u8],
    coefficient: &mut [i32],
    monomial: &mut [u64],
    at: usize,
    last: u8,
    place: usize,
) -> Result<usize, Stop>
    requires { (at ≤ length text.now) × (0 < last) × Room coefficient.old monomial.old place 1 }
    ensures { ConstantFound text.now at last place coefficient.old coefficient.new
        monomial.old monomial.new result }
{
    let found = read_number(text, at, last)?;
    coefficient[place] = found.value;
    monomial[place] = 0;
    Ok(found.behind)
}

// May and does a product come next, below that monomial?
fn product_next(text: &[u8], at: usize, above: u64) -> bool
    requires { at ≤ length text.now }
    ensures { result ≡ (ltb 1 above && opens_with text.now at 42) }
{
    if above < 2 {
        return false;
    }
    opens(text, at, 42)
}

// Behind a product of a sum: its end, or a space if more terms may come.
fn after_term(text: &[u8], at: usize, above: u64, most: usize) -> Result<Step, Stop>
    requires { at ≤ length text.now }
    ensures { (n : ℕ) → AfterFound text.now at n most above result }
{
    let byte = byte_at(text, at);
    if byte == 41 {
        return Ok(Step::Last(at + 1));
    }
    if most == 0 {
        return Err(Stop { at });
    }
    if byte != 32 {
        return Err(Stop { at });
    }
    Ok(Step::More {
        below: above,
        behind: at + 1,
    })
}

// The next term of a sum, below a monomial, stored at a place; so many more may come.
fn read_next_term(
    text: &[u8],
    coefficient: &mut [i32],
    monomial: &mut [u64],
    at: usize,
    n: usize,
    above: u64,
    place: usize,
    most: usize,
) -> Result<Step, Stop>
    requires { (at ≤ length text.now) × (0 < n) × (n ≤ 16) × Room coefficient.old monomial.old place 1 }
    ensures { StepFound text.now at n most above place coefficient.old coefficient.new
        monomial.old monomial.new result }
{
    if !product_next(text, at, above) {
        let behind = read_constant(text, coefficient, monomial, at, 41, place)?;
        return Ok(Step::Last(behind));
    }
    let found = read_term(text, coefficient, monomial, at, n, above - 1, place)?;
    after_term(text, found.behind, found.value, most)
}

// The next terms of a sum, below a monomial, stored from a place on: one and at most so many more. It is given how many there are.
fn read_next_terms(
    text: &[u8],
    coefficient: &mut [i32],
    monomial: &mut [u64],
    at: usize,
    n: usize,
    above: u64,
    place: usize,
    most: usize,
) -> Result<Read<usize>, Stop>
    requires { (at ≤ length text.now) × (0 < n) × (n ≤ 16) × Room coefficient.old monomial.old place (most + 1) }
    ensures { SumFound text.now at (next_term n above (other_terms n most)) place coefficient.old coefficient.new
        monomial.old monomial.new result }
{
    let step = read_next_term(text, coefficient, monomial, at, n, above, place, most)?;
    match step {
        Step::Last(behind) => Ok(Read { value: 1, behind }),
        Step::More { below, behind } => {
            let rest = read_next_terms(
                text,
                coefficient,
                monomial,
                behind,
                n,
                below,
                place + 1,
                most - 1,
            )?;
            Ok(Read {
                value: rest.value + 1,
                behind: rest.behind,
            })
        }
    }
}

// The highest monomial of n variables.
fn highest(n: usize) -> u64
    requires { (0 < n) × (n ≤ 16) }
    ensures { (result ≡ beyond n - 1) × (0 < result) }
{
    let half: u64 = 1 << (4 * n - 1);
    half - 1 + half
}

// The space behind a polynomial of so many terms.
fn spaced(text: &[u8], at: usize, count: usize) -> Result<Read<usize>, Stop>
    requires { at ≤ length text.now }
    ensures { SpaceFound text.now at count result }
{
    if byte_at(text, at) != 32 {
        return Err(Stop { at });
    }
    Ok(Read {
        value: count,
        behind: at + 1,
    })
}

// A product alone.
fn read_alone(
    text: &[u8],
    coefficient: &mut [i32],
    monomial: &mut [u64],
    at: usize,
    n: usize,
) -> Result<Read<usize>, Stop>
    requires { (at ≤ length text.now) × (0 < n) × (n ≤ 16) × Room coefficient.old monomial.old 0 16 }
    ensures { SumFound text.now at (alone_term n) 0 coefficient.old coefficient.new
        monomial.old monomial.new result }
{
    let found = read_term(text, coefficient, monomial, at, n, highest(n), 0)?;
    spaced(text, found.behind, 1)
}

// The terms behind the first one of a sum, stored from place 1 on.
fn read_others(
    text: &[u8],
    coefficient: &mut [i32],
    monomial: &mut [u64],
    at: usize,
    n: usize,
    above: u64,
) -> Result<Read<usize>, Stop>
    requires { (at ≤ length text.now) × (0 < n) × (n ≤ 16) × Room coefficient.old monomial.old 1 15 }
    ensures { OthersFound text.now at n above coefficient.old coefficient.new
        monomial.old monomial.new result }
{
    if byte_at(text, at) != 32 {
        return Err(Stop { at });
    }
    let found = read_next_terms(text, coefficient, monomial, at + 1, n, above, 1, 14)?;
    spaced(text, found.behind, found.value + 1)
}

// A sum.
fn read_sum(
    text: &[u8],
    coefficient: &mut [i32],
    monomial: &mut [u64],
    at: usize,
    n: usize,
) -> Result<Read<usize>, Stop>
    requires { (at ≤ length text.now) × (0 < n) × (n ≤ 16) × Room coefficient.old monomial.old 0 16 }
    ensures { SumFound text.now at (sum_of_terms n) 0 coefficient.old coefficient.new
        monomial.old monomial.new result }
{
    let start = agreed(text, at, b"(+ ");
    if start - at < 3 {
        return Err(Stop { at: start });
    }
    let found = read_term(text, coefficient, monomial, start, n, highest(n), 0)?;
    read_others(text, coefficient, monomial, found.behind, n, found.value)
}

// A polynomial with the space behind it, stored from the first place on. It is given how many terms it has.
pub fn read_polynomial(
    text: &[u8],
    coefficient: &mut [i32],
    monomial: &mut [u64],
    at: usize,
    n: usize,
) -> Result<Read<usize>, Stop>
    requires { (at ≤ length text.now) × (0 < n) × (n ≤ 16) × Room coefficient.old monomial.old 0 16 }
    ensures { SumFound text.now at (polynomial n) 0 coefficient.old coefficient.new
        monomial.old monomial.new result }
{
    if opens(text, at, 43) {
        return read_sum(text, coefficient, monomial, at, n);
    }
    if opens(text, at, 42) {
        return read_alone(text, coefficient, monomial, at, n);
    }
    let behind = read_constant(text, coefficient, monomial, at, 32, 0)?;
    Ok(Read { value: 1, behind })
}
