// The texts of terms and polynomials, from the arrays that hold a block.
// A polynomial is so many terms from a place of the arrays on.
ghost use Rattle.std.specs.Prelude.{◌+◌, ◌≤◌};
ghost use Rattle.terms.specs.View.{terms_from};
ghost use Rattle.rules.specs.Text.{factors, term_text, summands, polynomial_text};
ghost use Rattle.lines.specs.Written.{Wrote};
ghost use Rattle.script_text.specs.Runs.{Fits};
ghost use Rattle.script_text.specs.Tree.{Terms};

use crate::runs::{put_byte, put_bytes, put_number, put_power};

// The variables from number i on, of which there are so many.
fn put_factors(text: &mut [u8], at: usize, i: u8, count: usize, monomial: u64) -> usize
    requires { (i + count ≤ 16) × Fits at (factors i count monomial) }
    ensures { Wrote text.old text.new at (factors i count monomial) result }
{
    if count == 0 {
        return at;
    }
    let exponent = (monomial >> (4 * (count - 1))) % 16;
    let next = put_power(text, at, i, exponent);
    put_factors(text, next, i + 1, count - 1, monomial)
}

// "a number alone is the constant term"; "the coefficient is always written, also 1".
fn put_term(text: &mut [u8], at: usize, n: usize, coefficient: i32, monomial: u64) -> usize
    requires { (n ≤ 16) × Fits at (term_text n (record { coefficient = coefficient; monomial = monomial })) }
    ensures { Wrote text.old text.new at (term_text n (record { coefficient = coefficient; monomial = monomial })) result }
{
    if monomial == 0 {
        return put_number(text, at, coefficient);
    }
    let number = put_bytes(text, at, b"(* ");
    let product = put_number(text, number, coefficient);
    let end = put_factors(text, product, 0, n, monomial);
    put_byte(text, end, b')')
}

// The terms of a sum, each behind a space.
fn put_summands(
    text: &mut [u8],
    coefficient: &[i32],
    monomial: &[u64],
    at: usize,
    n: usize,
    k: usize,
    count: usize,
) -> usize
    requires { (n ≤ 16) × Terms coefficient.now monomial.now k count × Fits at (summands n (terms_from coefficient.now monomial.now k count)) }
    ensures { Wrote text.old text.new at (summands n (terms_from coefficient.now monomial.now k count)) result }
{
    if count == 0 {
        return at;
    }
    let term = put_byte(text, at, b' ');
    let value = coefficient[k];
    let next = put_term(text, term, n, value, monomial[k]);
    put_summands(text, coefficient, monomial, next, n, k + 1, count - 1)
}

pub fn put_polynomial(
    text: &mut [u8],
    coefficient: &[i32],
    monomial: &[u64],
    at: usize,
    n: usize,
    k: usize,
    count: usize,
) -> usize
    requires { (n ≤ 16) × Terms coefficient.now monomial.now k count × Fits at (polynomial_text n (terms_from coefficient.now monomial.now k count)) }
    ensures { Wrote text.old text.new at (polynomial_text n (terms_from coefficient.now monomial.now k count)) result }
{
    if count == 0 {
        return at;
    }
    if count == 1 {
        let value = coefficient[k];
        return put_term(text, at, n, value, monomial[k]);
    }
    let terms = put_bytes(text, at, b"(+");
    let end = put_summands(text, coefficient, monomial, terms, n, k, count);
    put_byte(text, end, b')')
}
