// Runs the reader over a stream of blocks and prints, for each, ACCEPTED, or REFUSED and the number.
// The blocks and the expected lines come from the independent reading.

#![tactic(auto)]

use frames::answer_each_in_space;
use std::io;
use std::io::Write;

fn tell<W: Write>(out: &mut W, block: &[u8]) -> io::Result<()> {
    match block::read(block) {
        Ok(_) => out.write_all(b"ACCEPTED\n"),
        Err(refusal) => writeln!(out, "REFUSED {}", refusal.number()),
    }
}

fn main(rt: HostRuntime) -> io::Result<()> {
    let mut space = [0u8; 65536];
    answer_each_in_space(
        &mut rt.stdin(),
        &mut rt.stdout(),
        &mut space,
        |out, space, n| tell(out, &space[..n]),
    )
}
