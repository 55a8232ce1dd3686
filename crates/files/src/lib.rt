// The files that a program's arguments and its input name: an argument as bytes, a file opened by the bytes of its name, and the line on standard error
// that says why it could not be opened or written. What the system gives is no promise of ours.

#![tactic(auto)]

ghost use Rattle.std.specs.Prelude.{◌≤◌, length};

use std::env::{Env, FillError};
use std::fs::OpenOptions;
use std::io;
use std::io::{Error, ErrorKind, Write};
use std::rt::Files;

// Puts an argument at the start of `word` and returns its length; 0 if there is none or it is longer than `word`.
pub fn argument<R: Env>(rt: &R, i: usize, word: &mut [u8]) -> usize
    ensures { result ≤ length word.new }
{
    match rt.arg(i, word) {
        Ok(n) => n,
        Err(_) => 0,
    }
}

// Whether there is such an argument, however long.
pub fn is_given<R: Env>(rt: &R, i: usize) -> bool {
    let mut none = [0u8; 0];
    !matches!(rt.arg(i, &mut none), Err(FillError::NotPresent))
}

// Opens the file of that name, for reading, or for reading and writing with its bytes as they are. A name that is no UTF-8 text names no file.
pub fn open<R: Files>(rt: &R, name: &[u8], update: bool) -> io::Result<R::File> {
    match std::str::from_utf8(name) {
        Ok(path) => OpenOptions::new().read(true).write(update).open(rt, path),
        Err(_) => Err(Error::new(ErrorKind::InvalidInput, "The file name is no text")),
    }
}

// Without what `Display` puts behind the system's own words, as ` (os error 2)`.
fn without_number(text: &str) -> &str {
    match text.split_once(" (os error ") {
        Some((words, _)) => words,
        None => text,
    }
}

// Puts the text of an error at the start of `space` and returns its length.
fn put_text(error: &Error, space: &mut [u8]) -> io::Result<usize> {
    let size = space.len();
    let mut room = space;
    write!(room, "{error}")?;
    Ok(size.saturating_sub(room.len()))
}

// Writes a line: what failed, a colon, and the system's words for why.
pub fn tell<W: Write>(out: &mut W, what: &[u8], error: &Error) -> io::Result<()> {
    let mut space = [0u8; 320];
    let n = put_text(error, &mut space)?;
    let text = std::str::from_utf8(&space[..n.min(320)]).unwrap_or("");
    out.write_all(what)?;
    out.write_all(b": ")?;
    out.write_all(without_number(text).as_bytes())?;
    out.write_all(b"\n")
}
