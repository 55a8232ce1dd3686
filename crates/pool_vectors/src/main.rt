// Runs sequences of calls on a pool: each frame of the stream is an operation, a number and, for an addition, a block.
// 0 is a new pool, 1 an addition, 2 a withdrawal, 3 asks what the pool holds. Prints the lines that `placardpan_pool` prints.

#![tactic(auto)]

use frames::answer_each;
use std::io;
use std::io::Write;

// One call.
fn run<W: Write>(out: &mut W, words: &mut [u64], frame: &[u8]) -> io::Result<()> {
    if frame.len() < 2 {
        return out.write_all(b"NO CALL\n");
    }
    let number = frame[1] as usize;
    match frame[0] {
        0 => {
            words.fill(0);
            Ok(())
        }
        1 => pool_telling::add(out, words, number, &frame[2..]),
        2 => pool_telling::withdraw(out, words, number),
        3 => pool_telling::show(out, words),
        _ => out.write_all(b"NO CALL\n"),
    }
}

fn main(rt: HostRuntime) -> io::Result<()> {
    let mut space = [0u8; 65536];
    let mut words = [0u64; 4354];
    answer_each(
        &mut rt.stdin(),
        &mut rt.stdout(),
        &mut space,
        |out, frame| run(out, &mut words, frame),
    )
}
