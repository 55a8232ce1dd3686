// Runs the converters over a stream: each frame has the room in 2 bytes, most significant first, and a block behind them.
// Prints for each the conversion to edition 1 and then that to edition 2: the finished block in hex, or REFUSED and the number. The frames and the
// expected lines come from the independent reading.

#![tactic(auto)]

ghost use Rattle.std.specs.Prelude.{◌≤◌};

use convert::{Refusal, to_edition1, to_edition2};
use frames::answer_each;
use std::io;
use std::io::Write;

fn wide(byte: u8) -> u64
    ensures { result ≤ 255 }
{
    byte as u64
}

// The last hex digit of a number.
fn digit(number: u8) -> u8 {
    let last = number % 16;
    if last < 10 { last + 48 } else { last + 87 }
}

// A byte in two hex digits, with a space before them unless it is the first.
fn print_pair<W: Write>(out: &mut W, byte: u8, first: bool) -> io::Result<()> {
    let pair = [b' ', digit(byte / 16), digit(byte)];
    if first {
        out.write_all(&pair[1..])
    } else {
        out.write_all(&pair)
    }
}

// So many bytes of the output in lower-case hex pairs, one space apart.
fn print_hex<W: Write>(out: &mut W, output: &[u8], size: usize) -> io::Result<()> {
    if output.len() < size {
        return Ok(());
    }
    for (i, byte) in output[..size].iter().enumerate() {
        print_pair(out, *byte, i == 0)?;
    }
    out.write_all(b"\n")
}

fn tell<W: Write>(out: &mut W, outcome: Result<usize, Refusal>, output: &[u8]) -> io::Result<()> {
    match outcome {
        Err(refusal) => {
            let number = refusal.number();
            writeln!(out, "REFUSED {number}")
        }
        Ok(size) => print_hex(out, output, size),
    }
}

// A frame: the room and a block.
fn run<W: Write>(out: &mut W, frame: &[u8], output: &mut [u8]) -> io::Result<()> {
    if frame.len() < 2 {
        return Ok(());
    }
    let room = (wide(frame[0]) * 256 + wide(frame[1])) as usize;
    if output.len() < room {
        return Ok(());
    }
    let first = to_edition1(&frame[2..], &mut output[..room]);
    tell(out, first, output)?;
    let second = to_edition2(&frame[2..], &mut output[..room]);
    tell(out, second, output)
}

fn main(rt: HostRuntime) -> io::Result<()> {
    let mut space = [0u8; 65536];
    let mut output = [0u8; 65536];
    answer_each(
        &mut rt.stdin(),
        &mut rt.stdout(),
        &mut space,
        |out, frame| run(out, frame, &mut output),
    )
}
