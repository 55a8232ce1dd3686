// The runs of bytes that a script is made of, stored in lent bytes as far as these reach.
// Each function returns the place behind the run, also where the run does not fit: so a text of no length measures.
ghost use Rattle.std.specs.Prelude.{[], ◌∷◌, ◌<◌};
ghost use Rattle.rules.specs.Text.{number_text, digits_within, power};
ghost use Rattle.rules.specs.Report.{digit};
ghost use Rattle.lines.specs.Written.{Wrote};
ghost use Rattle.script_text.specs.Runs.{Fits};

use writer::{magnitude_of, minus_of};

pub fn put_byte(text: &mut [u8], at: usize, byte: u8) -> usize
    requires { Fits at (byte ∷ []) }
    ensures { Wrote text.old text.new at (byte ∷ []) result }
{
    if text.len() <= at {
        return at + 1;
    }
    text[at] = byte;
    at + 1
}

pub fn put_bytes(text: &mut [u8], at: usize, bytes: &[u8]) -> usize
    requires { Fits at bytes.now }
    ensures { Wrote text.old text.new at bytes.now result }
{
    let mut next = at;
    for byte in bytes {
        next = put_byte(text, next, *byte);
    }
    next
}

// ---- numbers

// The last digit.
fn put_digit(text: &mut [u8], at: usize, x: u64) -> usize
    requires { Fits at (digit x ∷ []) }
    ensures { Wrote text.old text.new at (digit x ∷ []) result }
{
    put_byte(text, at, 48 + (x % 10) as u8)
}

// A number in decimal digits, at most so many and one.
fn put_digits(text: &mut [u8], at: usize, most: usize, x: u64) -> usize
    requires { Fits at (digits_within most x) }
    ensures { Wrote text.old text.new at (digits_within most x) result }
{
    if most == 0 {
        return put_digit(text, at, x);
    }
    if x < 10 {
        return put_digit(text, at, x);
    }
    let last = put_digits(text, at, most - 1, x / 10);
    put_digit(text, last, x)
}

// "negative numbers use the unary minus of that language"
pub fn put_number(text: &mut [u8], at: usize, x: i32) -> usize
    requires { Fits at (number_text x) }
    ensures { Wrote text.old text.new at (number_text x) result }
{
    let magnitude = magnitude_of(x);
    if minus_of(x) == 0 {
        return put_digits(text, at, 9, magnitude);
    }
    let number = put_bytes(text, at, b"(- ");
    let end = put_digits(text, number, 9, magnitude);
    put_byte(text, end, b')')
}

// "Powers become repeated products": a variable as often as its exponent says, a space before it.
pub fn put_power(text: &mut [u8], at: usize, variable: u8, exponent: u64) -> usize
    requires { (variable < 16) × Fits at (power variable exponent) }
    ensures { Wrote text.old text.new at (power variable exponent) result }
{
    if exponent == 0 {
        return at;
    }
    let letter = put_byte(text, at, b' ');
    let next = put_byte(text, letter, 97 + variable);
    put_power(text, next, variable, exponent - 1)
}
