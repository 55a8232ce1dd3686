// The program of request #102. `placardpan_evaluate 120 -35 ..` takes the block on standard input and the readings as arguments;
// `placardpan_evaluate FILE`, an argument that is no whole number, takes the block from a file and lines of readings on standard input.
// Prints PERMIT, DENY, or REFUSED and the number. Thin over `evaluate::evaluate`.

#![tactic(auto)]

use files::{argument, is_given, tell};
use frames::fill;
use frames::lines::{Lines, answer_all};
use readings::{Line, begin, is_whole, over, taken, word_taken};
use std::env::Env;
use std::io;
use std::io::{Read, Write};
use verdicts::answer;

// One argument.
fn one_argument<E: Env>(
    env: &E,
    i: usize,
    word: &mut [u8],
    line: Line,
    numbers: &mut [i32],
) -> Line {
    let n = argument(env, i, word);
    word_taken(line, &word[..n], numbers)
}

// The readings are the arguments from the first on: how many there are, 17 if one is no whole number of 32 bits.
fn arguments<E: Env>(env: &E, word: &mut [u8], numbers: &mut [i32]) -> usize {
    let mut line = begin();
    for i in 1..usize::MAX {
        if !is_given(env, i) {
            break;
        }
        line = one_argument(env, i, word, line, numbers);
    }
    over(line, numbers)
}

// The block on standard input, the readings as arguments.
fn once(rt: &HostRuntime, word: &mut [u8]) -> io::Result<()> {
    let mut space = [0u8; 32768];
    let length = fill(&mut rt.stdin(), &mut space)?;
    let mut numbers = [0i32; 16];
    let count = arguments(rt, word, &mut numbers);
    answer(&mut rt.stdout(), &space[..length], &numbers, count)
}

// Live readings: each line is answered for the block.
#[derive(Drop)]
struct LiveReadings<'a> {
    block: &'a [u8],
    line: Line,
    numbers: [i32; 16],
}

impl<W: Write> Lines<W> for LiveReadings<'_> {
    fn take(&mut self, byte: u8) {
        self.line = taken(self.line, byte, &mut self.numbers);
    }

    fn has_begun(&self) -> bool {
        self.line.begun
    }

    fn answer(&mut self, out: &mut W) -> io::Result<()> {
        let count = over(self.line, &mut self.numbers);
        answer(out, self.block, &self.numbers, count)?;
        self.line = begin();
        Ok(())
    }
}

// The block from a file.
fn live(rt: &HostRuntime, path: &[u8]) -> io::Result<()> {
    let found = files::open(rt, path, false);
    match found {
        Ok(file) => live_on(rt, file),
        Err(error) => tell(&mut rt.stderr(), path, &error),
    }
}

fn live_on<F: Read + Drop>(rt: &HostRuntime, mut file: F) -> io::Result<()> {
    let mut space = [0u8; 32768];
    let length = fill(&mut file, &mut space)?;
    let mut bytes = [0u8; 4096];
    let mut live = LiveReadings {
        block: &space[..length],
        line: begin(),
        numbers: [0; 16],
    };
    answer_all(&mut rt.stdin(), &mut bytes, &mut live, &mut rt.stdout())
}

// Whether the one argument is no whole number: then it names a file, and the readings are live.
fn named(rt: &HostRuntime, word: &mut [u8]) -> io::Result<bool> {
    if !is_given(rt, 1) || is_given(rt, 2) {
        return Ok(false);
    }
    let n = argument(rt, 1, word);
    if is_whole(&word[..n]) {
        return Ok(false);
    }
    live(rt, &word[..n])?;
    Ok(true)
}

fn main(rt: HostRuntime) -> io::Result<()> {
    let mut word = [0u8; 65536];
    if !named(&rt, &mut word)? {
        once(&rt, &mut word)?;
    }
    Ok(())
}
