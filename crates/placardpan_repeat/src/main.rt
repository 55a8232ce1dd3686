// How often, in 4 bytes, most significant first, then a block: `lift::simplify_by` is called so often, with the argument `rounds`
// `lift::with_rounds`, and document 01's lines are printed once, with those that the arguments ask for.
// For measuring one call: a second run with another number takes reading, printing and the start of the program off.

#![tactic(auto)]

use frames::fill;
use printing::{Asked, asked_for, print_asked};
use std::io;
use std::io::{Read, Write};

// How often: the first four bytes.
fn times<R: Read>(input: &mut R) -> io::Result<u32> {
    let mut head = [0u8; 4];
    fill(input, &mut head)?;
    Ok(u32::from_be_bytes(head))
}

fn call(input: &[u8], output: &mut [u8], plain: bool, rounds: bool) {
    if rounds {
        lift::with_rounds(input, output);
        return;
    }
    let _ = lift::simplify_by(plain, input, output);
}

// Answers the block so many times, and once at least; the last answer is printed.
fn repeat<W: Write>(
    out: &mut W,
    input: &[u8],
    output: &mut [u8],
    text: &mut [u8],
    times: u32,
    asked: Asked,
) -> io::Result<()> {
    for _ in 1..times {
        call(input, output, asked.plain, asked.rounds);
    }
    print_asked(out, input, output, text, asked)
}

// "It reads at most 32,768 bytes of a block"
fn main(rt: HostRuntime) -> io::Result<()> {
    let mut input = rt.stdin();
    let mut out = rt.stdout();
    let often = times(&mut input)?;
    let mut space = [0u8; 32768];
    let length = fill(&mut input, &mut space)?;
    let mut output = [0u8; 32768];
    let mut text = [0u8; 64578];
    let asked = asked_for(&rt);
    repeat(
        &mut out,
        &space[..length],
        &mut output,
        &mut text,
        often,
        asked,
    )
}
