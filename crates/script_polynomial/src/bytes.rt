// The bytes of a text, one by one or in a run.
// Past its end a text has zeros: no reader takes one, so a text that ends stops it as a wrong byte does.
ghost use Rattle.std.specs.Prelude.{◌≡◌, ◌+◌, ◌≤◌, length, get_or, drop};
ghost use Rattle.script_polynomial.specs.Agreement.{common};

pub fn byte_at(text: &[u8], at: usize) -> u8
    ensures { result ≡ get_or text.now at 0 }
{
    if text.len() <= at {
        return 0;
    }
    text[at]
}

// The position up to which the text from a position on agrees with these bytes.
pub fn agreed(text: &[u8], at: usize, bytes: &[u8]) -> usize
    requires { at ≤ length text.now }
    ensures { result ≡ at + common bytes.now (drop at text.now) }
{
    for i in 0..bytes.len() {
        if text.len() - at <= i {
            return at + i;
        }
        if text[at + i] != bytes[i] {
            return at + i;
        }
    }
    at + bytes.len()
}
