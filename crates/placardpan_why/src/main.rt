// The program of request #106: a block on standard input; a head line, and a line for each atom with what became of it, or REFUSED and the number.

#![tactic(auto)]

use frames::fill;
use std::io;

// "It reads at most 32,768 bytes of a block on standard input; the rest is not read."
fn main(rt: HostRuntime) -> io::Result<()> {
    let mut space = [0u8; 32768];
    let length = fill(&mut rt.stdin(), &mut space)?;
    why_telling::tell(&mut rt.stdout(), &space[..length])
}
