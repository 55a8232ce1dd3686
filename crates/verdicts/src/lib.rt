// A block run on readings, and its line on standard output: PERMIT, DENY, or REFUSED and the number. What the two programs share.

#![tactic(auto)]

use evaluate::{Refusal, Verdict, evaluate};
use std::io;
use std::io::Write;

fn tell<W: Write>(out: &mut W, evaluation: Result<Verdict, Refusal>) -> io::Result<()> {
    match evaluation {
        Err(refusal) => {
            let number = refusal.number();
            writeln!(out, "REFUSED {number}")
        }
        Ok(Verdict::Deny) => out.write_all(b"DENY\n"),
        Ok(Verdict::Permit) => out.write_all(b"PERMIT\n"),
    }
}

// Runs the block on the first `count` readings. More than there are stand for readings of no number: no block has so few, which is 16 after the reader's.
// kept: a number beside the readings, since a public function keeps its signature
pub fn answer<W: Write>(
    out: &mut W,
    block: &[u8],
    readings: &[i32],
    count: usize,
) -> io::Result<()> {
    if count <= readings.len() {
        return tell(out, evaluate(block, &readings[..count]));
    }
    tell(out, evaluate(block, &readings[..0]))
}
