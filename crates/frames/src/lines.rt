// A stream of lines, piece by piece: what the input has is answered as soon as it is there.
// What is read and what is answered is no promise of ours.

use std::io;
use std::io::{Read, Write};

// What takes lines, byte by byte, and answers each on an output.
pub trait Lines<W: Write> {
    // One byte of the line at hand.
    fn take(&mut self, byte: u8);

    // Whether the line at hand counts if the input ends here.
    fn has_begun(&self) -> bool;

    // The line at hand is over: it is answered, and the next one begins.
    fn answer(&mut self, out: &mut W) -> io::Result<()>;
}

// Some bytes.
fn take_all<W: Write, L: Lines<W>>(lines: &mut L, bytes: &[u8], out: &mut W) -> io::Result<()> {
    for byte in bytes {
        if *byte == b'\n' {
            lines.answer(out)?;
        } else {
            lines.take(*byte);
        }
    }
    Ok(())
}

// Answers the lines of an input, which is read into `bytes`. A last line without its end counts if it has begun.
// A proved loop has to end, and nothing says that the input does: the turns are counted up to a number that no run reaches.
pub fn answer_all<R: Read, W: Write, L: Lines<W>>(
    input: &mut R,
    bytes: &mut [u8],
    lines: &mut L,
    out: &mut W,
) -> io::Result<()> {
    for _ in 0..u64::MAX {
        let got = input.read(bytes)?;
        if got == 0 {
            break;
        }
        take_all(lines, &bytes[..got], out)?;
    }
    if lines.has_begun() {
        lines.answer(out)?;
    }
    Ok(())
}
