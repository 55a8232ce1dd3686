// `placardpan_start AREA`: the check at the start, on the file AREA that stands for the memory: STARTS and the block's length, or REFUSED and the
// number. Thin over `loading::start`. No head says more than 65,535 bytes, so that what lies past 65,536 is not read.

#![tactic(auto)]

use areas::{open, print_answer};
use frames::fill;
use std::io;

fn main(rt: HostRuntime) -> io::Result<()> {
    let Some(mut file) = open(&rt, false)? else {
        return Ok(());
    };
    let mut area = [0u8; 65536];
    let n = fill(&mut file, &mut area)?;
    print_answer(&mut rt.stdout(), loading::start(&area[..n]), b"STARTS ")
}
