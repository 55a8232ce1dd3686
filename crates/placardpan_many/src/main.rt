// Answers each block of a stream, each after its length in 2 bytes, most significant first: the lines of document 01's program for each.
// Thin over `lift::report_by`; a frame that is cut off gets a line that says so. The arguments `places`, `rounds` and `plain` are as for `placardpan`.

#![tactic(auto)]

use frames::answer_each_in_space;
use printing::{Asked, asked_for, print_asked};
use std::io;
use std::io::Write;

fn main(rt: HostRuntime) -> io::Result<()> {
    let mut space = [0u8; 65536];
    let mut output = [0u8; 65536];
    let mut text = [0u8; 65536];
    let asked = asked_for(&rt);
    answer_each_in_space(
        &mut rt.stdin(),
        &mut rt.stdout(),
        &mut space,
        |out, space, n| print_asked(out, &space[..n], &mut output, &mut text, asked),
    )
}
