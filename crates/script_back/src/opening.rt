// What a node begins with: one byte decides at every place.
ghost use Rattle.std.specs.Prelude.{◌<◌, ◌≤◌, length};
ghost use Rattle.script_back.specs.Opening.{one, one_given, either, any, Only, OnlyGiven, OfAtom, Allowed, Opened};

use crate::runs::said;
use script_polynomial::Stop;
use script_polynomial::bytes::byte_at;

// What a node begins with, and the position behind that: 1 to 6 is an atom with this set, 7 is an AND, 8 is an OR.
#[derive(Clone, Copy)]
pub struct Opening {
    pub which: u32,
    pub next: usize,
}

// The rest of one beginning.
fn beginning(text: &[u8], at: usize, bytes: &[u8], which: u32) -> Result<Opening, Stop>
    requires { at ≤ length text.now }
    ensures { Opened text.now at (one bytes.now which) (Only which) result }
{
    let next = said(text, at, bytes)?;
    Ok(Opening { which, next })
}

// Behind `(<` or `(>`: a space, or `= ` and the set with zero.
fn compared(text: &[u8], at: usize, set: u32) -> Result<Opening, Stop>
    requires { (at ≤ length text.now) × (0 < set) × (set ≤ 4) }
    ensures { Opened text.now at (either set) OfAtom result }
{
    if byte_at(text, at) == b'=' {
        return beginning(text, at, b"= ", set + 2);
    }
    beginning(text, at, b" ", set)
}

// The rest of an AND's or an OR's beginning, where it is allowed; else the byte before was none that goes on.
fn joining(text: &[u8], at: usize, allowed: bool, bytes: &[u8], which: u32) -> Result<Opening, Stop>
    requires { (0 < at) × (at ≤ length text.now) }
    ensures { Opened text.now at (one_given allowed bytes.now which) (OnlyGiven allowed which) result }
{
    if allowed {
        return beginning(text, at, bytes, which);
    }
    Err(Stop { at: at - 1 })
}

// "At a node's `(`: `<` `>` `=` `n`; `a` or `o`" where an AND or an OR is allowed.
pub fn open_node(text: &[u8], at: usize, ands: bool, ors: bool) -> Result<Opening, Stop>
    requires { at ≤ length text.now }
    ensures { Opened text.now at (any ands ors) (Allowed ands ors) result }
{
    if byte_at(text, at) != b'(' {
        return Err(Stop { at });
    }
    let second = byte_at(text, at + 1);
    if second == b'<' {
        return compared(text, at + 2, 4);
    }
    if second == b'>' {
        return compared(text, at + 2, 1);
    }
    if second == b'=' {
        return beginning(text, at + 2, b" ", 2);
    }
    if second == b'n' {
        return beginning(text, at + 2, b"ot (= ", 5);
    }
    if second == b'a' {
        return joining(text, at + 2, ands, b"nd", 7);
    }
    if second == b'o' {
        return joining(text, at + 2, ors, b"r", 8);
    }
    Err(Stop { at: at + 1 })
}
