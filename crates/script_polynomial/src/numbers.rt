// Numbers of a script, up to 2147483647, with the byte behind them.
ghost use Rattle.std.specs.Prelude.{◌≡◌, [], ◌≤◌, ◌<◌, length};
ghost use Rattle.rules.specs.Reading.{digit_may as digit_may_of, digits_after, magnitude, number_or};
ghost use Rattle.script_laws.specs.Numbers.{Sized};
ghost use Rattle.script_polynomial.specs.Found.{NumberFound, plain_number, minus_number, ValueFound};

use crate::bytes::{agreed, byte_at};
use crate::{Read, Stop};

// Is this byte a digit that may stand behind x?
fn digit_may(x: u64, byte: u8) -> bool
    requires { x ≤ 2147483647 }
    ensures { result ≡ digit_may_of x byte }
{
    if byte < 48 {
        return false;
    }
    if 57 < byte {
        return false;
    }
    10 * x + (byte - 48) as u64 <= 2147483647
}

// The rest of a number that begins with x: the byte at its end, or one more digit, of which there are at most so many.
fn read_digits(text: &[u8], at: usize, most: usize, last: u8, x: u64) -> Result<Read<u64>, Stop>
    requires { (at ≤ length text.now) × (0 < last) × Sized x }
    ensures { NumberFound text.now at (digits_after most last x) Sized result }
{
    let byte = byte_at(text, at);
    if byte == last {
        return Ok(Read {
            value: x,
            behind: at + 1,
        });
    }
    if most == 0 {
        return Err(Stop { at });
    }
    if !digit_may(x, byte) {
        return Err(Stop { at });
    }
    read_digits(text, at + 1, most - 1, last, 10 * x + (byte - 48) as u64)
}

// "no leading zero"
fn read_magnitude(text: &[u8], at: usize, last: u8) -> Result<Read<u64>, Stop>
    requires { (at ≤ length text.now) × (0 < last) }
    ensures { NumberFound text.now at (magnitude last) Sized result }
{
    let byte = byte_at(text, at);
    if byte < 49 {
        return Err(Stop { at });
    }
    if 57 < byte {
        return Err(Stop { at });
    }
    read_digits(text, at + 1, 9, last, (byte - 48) as u64)
}

// A number without a sign.
fn read_plain(text: &[u8], at: usize, last: u8) -> Result<Read<i32>, Stop>
    requires { (at ≤ length text.now) × (0 < last) }
    ensures { ValueFound text.now at (plain_number last) result }
{
    let found = read_magnitude(text, at, last)?;
    Ok(Read {
        value: found.value as i32,
        behind: found.behind,
    })
}

// A number with the unary minus.
fn read_minus(text: &[u8], at: usize, last: u8) -> Result<Read<i32>, Stop>
    requires { (at ≤ length text.now) × (0 < last) }
    ensures { ValueFound text.now at (minus_number last) result }
{
    let digits = agreed(text, at, b"(- ");
    if digits - at < 3 {
        return Err(Stop { at: digits });
    }
    let found = read_magnitude(text, digits, 41)?;
    if byte_at(text, found.behind) != last {
        return Err(Stop { at: found.behind });
    }
    Ok(Read {
        value: 0 - (found.value as i32),
        behind: found.behind + 1,
    })
}

// A number of either sign.
pub fn read_number(text: &[u8], at: usize, last: u8) -> Result<Read<i32>, Stop>
    requires { (at ≤ length text.now) × (0 < last) }
    ensures { ValueFound text.now at (number_or last (λ c. c) []) result }
{
    if byte_at(text, at) == 40 {
        return read_minus(text, at, last);
    }
    read_plain(text, at, last)
}
