// 01, "The program": the runs of bytes that the report line and the hex line are made of, stored in lent bytes.
// Each function stores, from a place on, what the definition of its name in `rules/specs/Report.antt` is, and returns the place behind it.

#![tactic(auto)]

ghost use Rattle.std.specs.Prelude.{◌≡◌, [], ◌∷◌, ◌+◌, ◌-◌, ◌*◌, ◌<◌, ◌≤◌, length};
ghost use Rattle.rules.specs.Report.{digit, decimal, hex_digit as hex_digit_of, hex_pair, hex_rest, hex_text, space};
ghost use Rattle.lines.specs.Written.{Wrote};

// ---- bytes

pub fn put_byte(text: &mut [u8], at: usize, byte: u8) -> usize
    requires { at < length text.old }
    ensures { Wrote text.old text.new at (byte ∷ []) result }
{
    text[at] = byte;
    at + 1
}

pub fn put_bytes(text: &mut [u8], at: usize, bytes: &[u8]) -> usize
    requires { at + length bytes.now ≤ length text.old }
    ensures { Wrote text.old text.new at bytes.now result }
{
    for i in 0..bytes.len() {
        text[at + i] = bytes[i];
    }
    at + bytes.len()
}

// ---- numbers in decimal digits

// The last digit.
fn put_digit(text: &mut [u8], at: usize, n: usize) -> usize
    requires { at < length text.old }
    ensures { Wrote text.old text.new at (digit n ∷ []) result }
{
    put_byte(text, at, 48 + (n % 10) as u8)
}

fn put_decimal(text: &mut [u8], at: usize, n: usize) -> usize
    requires { at + length (decimal n) ≤ length text.old }
    ensures { Wrote text.old text.new at (decimal n) result }
{
    if n < 10 {
        return put_digit(text, at, n);
    }
    if n < 100 {
        let ones = put_digit(text, at, n / 10);
        return put_digit(text, ones, n);
    }
    let tens = put_digit(text, at, n / 100);
    let ones = put_digit(text, tens, n / 10);
    put_digit(text, ones, n)
}

// A number behind a space.
pub fn put_number(text: &mut [u8], at: usize, n: usize) -> usize
    requires { at + length (space ∷ decimal n) ≤ length text.old }
    ensures { Wrote text.old text.new at (space ∷ decimal n) result }
{
    let digits = put_byte(text, at, 32);
    put_decimal(text, digits, n)
}

// ---- bytes in hex pairs

fn hex_digit(d: u8) -> u8
    requires { d < 16 }
    ensures { result ≡ hex_digit_of d }
{
    if d < 10 { 48 + d } else { 87 + d }
}

fn put_pair(text: &mut [u8], at: usize, byte: u8) -> usize
    requires { at + 2 ≤ length text.old }
    ensures { Wrote text.old text.new at (hex_pair byte) result }
{
    let second = put_byte(text, at, hex_digit(byte / 16));
    put_byte(text, second, hex_digit(byte % 16))
}

// Each pair behind a space.
fn put_rest(text: &mut [u8], at: usize, block: &[u8]) -> usize
    requires { at + length (hex_rest block.now) ≤ length text.old }
    ensures { Wrote text.old text.new at (hex_rest block.now) result }
{
    let mut next = at;
    for byte in block {
        let pair = put_byte(text, next, 32);
        next = put_pair(text, pair, *byte);
    }
    next
}

pub fn put_hex(text: &mut [u8], at: usize, block: &[u8]) -> usize
    requires { at + length (hex_text block.now) ≤ length text.old }
    ensures { Wrote text.old text.new at (hex_text block.now) result }
{
    if block.len() == 0 {
        return at;
    }
    let rest = put_pair(text, at, block[0]);
    put_rest(text, rest, &block[1..])
}

// How many bytes the hex pairs of so many bytes are.
pub fn hex_length(bytes: usize) -> usize
    requires { bytes < 65536 }
    ensures { result ≡ 3 * bytes - 1 }
{
    if bytes == 0 {
        return 0;
    }
    3 * bytes - 1
}
