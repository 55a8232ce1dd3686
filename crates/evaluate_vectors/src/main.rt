// Runs blocks on readings: each frame of the stream has a line of readings, as `placardpan_evaluate` takes them, and a block behind it.
// Prints for each PERMIT, DENY, or REFUSED and the number. The frames and the expected lines come from the independent reading.

#![tactic(auto)]

use frames::answer_each;
use readings::{begin, over, word_taken};
use std::io;
use std::io::Write;
use verdicts::answer;

// How many bytes the frame's line has.
fn line_length(frame: &[u8]) -> usize {
    for (i, byte) in frame.iter().enumerate() {
        if *byte == b'\n' {
            return i;
        }
    }
    frame.len()
}

// A line of readings and a block.
fn run<W: Write>(out: &mut W, frame: &[u8]) -> io::Result<()> {
    let mut numbers = [0i32; 16];
    let end = line_length(frame);
    if end < frame.len() {
        let count = over(
            word_taken(begin(), &frame[..end], &mut numbers),
            &mut numbers,
        );
        answer(out, &frame[end + 1..], &numbers, count)?;
    }
    Ok(())
}

fn main(rt: HostRuntime) -> io::Result<()> {
    let mut space = [0u8; 65536];
    answer_each(
        &mut rt.stdin(),
        &mut rt.stdout(),
        &mut space,
        |out, frame| run(out, frame),
    )
}
