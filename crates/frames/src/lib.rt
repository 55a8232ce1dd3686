// A stream of blocks, each after its length in 2 bytes, most significant first. Of a block at most 32,768 bytes are taken.
// What standard input gives is no promise of ours: the programs over this library hand each block to a proved function.

#![tactic(auto)]

ghost use Rattle.std.specs.Prelude.{ℕ, ◌≤◌, ◌<◌, ◌≡◌, ◌+◌, IfOk, IfSome, length, take, drop};
ghost use Rattle.std.specs.Io.KnownBytes.{Consumes, IsAtEnd};
ghost use Rattle.frames.specs.Taken.{taken_of};

use std::io;
use std::io::{Read, Write};

pub mod lines; // a stream of lines, piece by piece

// What comes next: a whole block, of which so many bytes are taken, a frame that ends too early, or nothing more.
#[derive(Clone, Copy)]
pub enum Frame {
    Block(usize),
    CutOff,
    End,
}

impl Frame {
    // How many bytes are taken of its block; 0 if there is none.
    pub fn length(self) -> usize
        ensures { result ≡ taken_of self }
    {
        match self {
            Frame::Block(length) => length,
            Frame::CutOff => 0,
            Frame::End => 0,
        }
    }
}

// One read behind the first bytes of the space, which stay as they are.
fn more<R: Read>(input: &mut R, space: &mut [u8], from: usize) -> io::Result<usize>
    requires { from < length space.old }
    ensures front { take from space.new ≡ take from space.old }
    ensures within { IfOk result (λ n. from + n ≤ length space.new) }
    ensures bytes { IfOk result (λ n. Consumes (R.remaining input.old) (R.remaining input.new) (take n (drop from space.new))) }
    ensures end { IfOk result (λ n. n ≡ 0 → IsAtEnd (R.remaining input.new)) }
{
    input.read(&mut space[from..])
}

// Reads until the space is full or the input ends, and returns how many bytes it put at the start of the space.
pub fn fill<R: Read>(input: &mut R, space: &mut [u8]) -> io::Result<usize>
    ensures within { IfOk result (λ n. n ≤ length space.new) }
    ensures bytes { IfOk result (λ n. Consumes (R.remaining input.old) (R.remaining input.new) (take n space.new)) }
    ensures end { IfOk result (λ n. n < length space.new → IsAtEnd (R.remaining input.new)) }
    ensures first { IfOk result (λ n. IfSome (R.remaining input.old) (λ xs. take n space.new ≡ take (length space.new) xs)) }
{
    let mut filled = 0;
    // kept: no index loop, since a read gives as many bytes as it has; std's loops over reads say too little of what was read
    while filled < space.len() {
        let n = more(input, space, filled)?;
        if n == 0 {
            return Ok(filled);
        }
        filled += n;
    }
    Ok(filled)
}

// Reads the next frame into the start of `block`. A block that `block` has no room for counts as cut off.
// "It reads at most 32,768 bytes of a block": of a longer one so many are taken.
pub fn next<R: Read>(input: &mut R, block: &mut [u8]) -> io::Result<Frame>
    ensures within { IfOk result (λ frame. taken_of frame ≤ length block.new) }
    ensures most { IfOk result (λ frame. taken_of frame ≤ 32768) }
{
    let mut head = [0u8; 2];
    let got = fill(input, &mut head)?;
    if got == 0 {
        return Ok(Frame::End);
    }
    if got < 2 {
        return Ok(Frame::CutOff);
    }
    let length = usize::from(u16::from_be_bytes(head));
    if block.len() < length {
        return Ok(Frame::CutOff);
    }
    let had = fill(input, &mut block[..length])?;
    if had < length {
        return Ok(Frame::CutOff);
    }
    Ok(Frame::Block(length.min(32768)))
}

// Answers each block of a stream, in order; a frame that is cut off ends it with a line that says so. The space is what blocks are read into.
// A proved loop has to end, and nothing says that the input does: the turns are counted up to a number that no run reaches.
pub fn answer_each<R: Read, W: Write, F: FnMut(&mut W, &[u8]) -> io::Result<()>>(
    input: &mut R,
    out: &mut W,
    space: &mut [u8],
    mut answer: F,
) -> io::Result<()>
    requires { F.IsAlwaysCallable answer }
{
    for _ in 0..u64::MAX {
        match next(input, space)? {
            Frame::Block(length) => answer(out, &space[..length])?,
            Frame::CutOff => return out.write_all(b"CUT OFF\n"),
            Frame::End => return Ok(()),
        }
    }
    Ok(())
}

// The same for an answer that gets the whole space, and how many of its first bytes are the block. That it looks at no others nothing here says.
// kept: beside `answer_each` and not under it; a closure of `answer_each` that hands a part of the space on was tried, and its proof did not close
pub fn answer_each_in_space<R: Read, W: Write, F: FnMut(&mut W, &[u8], usize) -> io::Result<()>>(
    input: &mut R,
    out: &mut W,
    space: &mut [u8],
    mut answer: F,
) -> io::Result<()>
    requires { (state : F) (to : _) (held : _) (taken : ℕ) → taken ≤ length held.now → F.pre state to held taken }
{
    for _ in 0..u64::MAX {
        match next(input, space)? {
            Frame::Block(length) => answer(out, space, length)?,
            Frame::CutOff => return out.write_all(b"CUT OFF\n"),
            Frame::End => return Ok(()),
        }
    }
    Ok(())
}
