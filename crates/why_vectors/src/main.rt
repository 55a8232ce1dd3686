// Tells why, for each block of a stream: the lines that `placardpan_why` prints.

#![tactic(auto)]

use frames::answer_each_in_space;
use std::io;

fn main(rt: HostRuntime) -> io::Result<()> {
    let mut space = [0u8; 65536];
    answer_each_in_space(
        &mut rt.stdin(),
        &mut rt.stdout(),
        &mut space,
        |out, space, n| why_telling::tell(out, &space[..n]),
    )
}
