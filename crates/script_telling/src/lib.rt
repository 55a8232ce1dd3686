// A script read back, and its line on standard output: what the two programs share.
// What is told is what `script_back::block_of` gives; that standard output takes it is no promise of ours.

#![tactic(auto)]

use lines::put_hex;
use script_back::{Refusal, block_of};
use std::io;
use std::io::Write;

// A block in lower-case hex pairs, one space apart. None has more than 21,516 bytes.
fn print_block<W: Write>(out: &mut W, block: &[u8]) -> io::Result<()> {
    if block.len() <= 21516 {
        let mut line = [0u8; 65536];
        let end = put_hex(&mut line, 0, block);
        if end <= line.len() {
            out.write_all(&line[..end])?;
        }
    }
    out.write_all(b"\n")
}

// The 25 stands in the text, since each piece of a line is a write of its own.
fn print_refusal<W: Write>(out: &mut W, refusal: Refusal) -> io::Result<()> {
    match refusal {
        Refusal::Stopped(stop) => {
            let position = stop.at;
            writeln!(out, "REFUSED 25 {position}")
        }
        Refusal::NotFinished(_) => {
            let number = refusal.number();
            writeln!(out, "REFUSED {number}")
        }
    }
}

// The block of a script as a line of hex pairs, or `REFUSED 25 p`, p the position.
pub fn tell<W: Write>(out: &mut W, text: &[u8], output: &mut [u8]) -> io::Result<()> {
    match block_of(text, output) {
        Err(refusal) => print_refusal(out, refusal),
        Ok(size) => {
            if size <= output.len() {
                print_block(out, &output[..size])?;
            }
            Ok(())
        }
    }
}
