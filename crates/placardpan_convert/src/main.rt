// `placardpan_convert [1 | 2]`: a block on standard input, the same block in the other edition, or in the one that the argument names, as bytes on
// standard output; CONVERTED and both sizes on standard error. On refusal REFUSED and the number there, and nothing on standard output.

#![tactic(auto)]

use block::edition;
use convert::{Refusal, to_edition1, to_edition2};
use files::argument;
use frames::fill;
use std::env::Env;
use std::io;
use std::io::Write;

// The edition that is asked for: the argument's, or the one that the input is not in.
fn asked<E: Env>(env: &E, input: &[u8]) -> u64 {
    let mut word = [0u8; 2];
    let length = argument(env, 1, &mut word);
    if length == 1 {
        if word[0] == b'1' {
            return 1;
        }
        if word[0] == b'2' {
            return 2;
        }
    }
    if edition(input) == 1 {
        return 2;
    }
    1
}

fn converted<E: Env>(env: &E, input: &[u8], output: &mut [u8]) -> Result<usize, Refusal> {
    if asked(env, input) == 1 {
        return to_edition1(input, output);
    }
    to_edition2(input, output)
}

// The block on one stream, where there is one, and what became of it on the other.
fn print<W: Write, V: Write>(
    out: &mut W,
    said: &mut V,
    outcome: Result<usize, Refusal>,
    length: usize,
    output: &[u8],
) -> io::Result<()> {
    match outcome {
        Err(refusal) => {
            let number = refusal.number();
            writeln!(said, "REFUSED {number}")
        }
        Ok(size) => {
            if size <= output.len() {
                out.write_all(&output[..size])?;
            }
            writeln!(said, "CONVERTED {length} {size}")
        }
    }
}

// "It reads at most 32,768 bytes of a block on standard input; the rest is not read." No finished block is as long.
fn main(rt: HostRuntime) -> io::Result<()> {
    let mut space = [0u8; 32768];
    let length = fill(&mut rt.stdin(), &mut space)?;
    let mut output = [0u8; 32768];
    let outcome = converted(&rt, &space[..length], &mut output);
    print(&mut rt.stdout(), &mut rt.stderr(), outcome, length, &output)
}
