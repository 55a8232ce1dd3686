// `placardpan_load AREA [sync]`: loads the block on standard input into the file AREA that stands for the memory, one byte after the other in the
// order that a power cut cannot hurt: LOADED and the length, or REFUSED and the number. With `sync` each write is waited for. Thin over `loading`.

#![tactic(auto)]

use areas::{open, print_answer, put_all};
use files::{is_given, tell};
use frames::fill;
use loading::{first_write, load};
use std::env::Env;
use std::io;

// "a second argument": whether each write is waited for.
fn asks_sync<R: Env>(rt: &R) -> bool {
    is_given(rt, 2)
}

fn main(rt: HostRuntime) -> io::Result<()> {
    let Some(mut file) = open(&rt, true)? else {
        return Ok(());
    };
    let mut area = [0u8; 65536];
    let n = fill(&mut file, &mut area)?;
    let mut given = [0u8; 32768];
    let length = fill(&mut rt.stdin(), &mut given)?;
    let block = &given[..length];
    let first = first_write(&area[..n]);
    let answer = load(block, &mut area[..n]);
    match answer {
        Err(_) => print_answer(&mut rt.stdout(), answer, b""),
        Ok(_) => match put_all(&file, block, first, asks_sync(&rt)) {
            Ok(()) => print_answer(&mut rt.stdout(), answer, b"LOADED "),
            Err(error) => tell(&mut rt.stderr(), b"placardpan_load", &error),
        },
    }
}
