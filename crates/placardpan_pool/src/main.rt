// The program of request #113: lines on standard input, `add 3 FILE`, `withdraw 3`, `show`. Thin over `pool::add` and `pool::withdraw`.
// A line that is none of these prints NO CALL, a file that cannot be read NO FILE, and the script goes on.

#![tactic(auto)]

ghost use Rattle.std.specs.Prelude.{◌≤◌, length};

use frames::fill;
use frames::lines::{Lines, answer_all};
use std::fs::Files;
use std::io;
use std::io::{Read, Write};

// ---- the words of a line

// Where the digits that a line begins with end.
fn digits_end(line: &[u8]) -> usize
    ensures { result ≤ length line.now }
{
    for (i, byte) in line.iter().enumerate() {
        if !byte.is_ascii_digit() {
            return i;
        }
    }
    line.len()
}

// The number of some digits; from 100 on it stays, above all numbers of blocks.
fn number_of(digits: &[u8]) -> usize {
    let mut number = 0;
    for byte in digits {
        if number < 100 {
            number = number * 10 + usize::from(byte.saturating_sub(b'0'));
        }
    }
    number
}

// ---- the calls

fn no_call<W: Write>(out: &mut W) -> io::Result<()> {
    out.write_all(b"NO CALL\n")
}

fn no_file<W: Write>(out: &mut W) -> io::Result<()> {
    out.write_all(b"NO FILE\n")
}

// The block of an open file, added under a number. A directory can be opened, and has no bytes that can be read.
fn add_opened<F: Read, W: Write>(
    out: &mut W,
    words: &mut [u64],
    number: usize,
    file: &mut F,
) -> io::Result<()> {
    let mut space = [0u8; 32768];
    match fill(file, &mut space) {
        Ok(length) => pool_telling::add(out, words, number, &space[..length]),
        Err(_) => no_file(out),
    }
}

fn add_file<R: Files, W: Write>(
    rt: &R,
    out: &mut W,
    words: &mut [u64],
    number: usize,
    path: &[u8],
) -> io::Result<()> {
    match files::open(rt, path, false) {
        Ok(mut file) => add_opened(out, words, number, &mut file),
        Err(_) => no_file(out),
    }
}

// Behind `add `: a number, a space and the name of a file.
fn add_named<R: Files, W: Write>(
    rt: &R,
    out: &mut W,
    words: &mut [u64],
    line: &[u8],
) -> io::Result<()> {
    let (digits, rest) = line.split_at(digits_end(line));
    match rest.split_first() {
        Some((byte, path)) if *byte == b' ' && !digits.is_empty() => {
            add_file(rt, out, words, number_of(digits), path)
        }
        _ => no_call(out),
    }
}

// Behind `withdraw `: a number and nothing else.
fn withdraw_named<W: Write>(out: &mut W, words: &mut [u64], line: &[u8]) -> io::Result<()> {
    if line.is_empty() || digits_end(line) < line.len() {
        return no_call(out);
    }
    pool_telling::withdraw(out, words, number_of(line))
}

// A line.
fn call<R: Files, W: Write>(rt: &R, out: &mut W, words: &mut [u64], line: &[u8]) -> io::Result<()> {
    if let Some(rest) = line.strip_prefix(b"add ") {
        return add_named(rt, out, words, rest);
    }
    if let Some(rest) = line.strip_prefix(b"withdraw ") {
        return withdraw_named(out, words, rest);
    }
    if line == b"show".as_slice() {
        return pool_telling::show(out, words);
    }
    no_call(out)
}

// ---- the lines of standard input

// A script: the pool, and of the line at hand how many bytes are held; none if there were more than there is room for.
#[derive(Drop)]
struct Script<'a> {
    rt: &'a HostRuntime,
    words: [u64; 4354],
    text: [u8; 8192],
    held: Option<usize>,
}

impl<W: Write> Lines<W> for Script<'_> {
    fn take(&mut self, byte: u8) {
        self.held = match self.held {
            Some(n) if n < 8192 => {
                self.text[n] = byte;
                Some(n + 1)
            }
            _ => None,
        };
    }

    fn has_begun(&self) -> bool {
        self.held != Some(0)
    }

    fn answer(&mut self, out: &mut W) -> io::Result<()> {
        match self.held {
            Some(n) if n <= 8192 => call(self.rt, out, &mut self.words, &self.text[..n])?,
            _ => no_call(out)?,
        }
        self.held = Some(0);
        Ok(())
    }
}

fn main(rt: HostRuntime) -> io::Result<()> {
    let mut bytes = [0u8; 4096];
    let mut script = Script {
        rt: &rt,
        words: [0; 4354],
        text: [0; 8192],
        held: Some(0),
    };
    answer_all(&mut rt.stdin(), &mut bytes, &mut script, &mut rt.stdout())
}
