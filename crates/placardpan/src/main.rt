// The program of document 01: a block on standard input, the report line and, except on refusal, the new block in hex on standard output.
// Thin over `lift::report_by`. With the argument `places` it prints one line more, the places of the answer's atoms (02, #105), by `lift::placed_by`; with
// `rounds` the largest number of rounds that one run took (#108), by `lift::with_rounds`. With the argument `plain` it takes the plain engine (#110);
// what it prints is the same.

#![tactic(auto)]

ghost use Rattle.std.specs.Prelude.{◌≡◌, false, OnOk, IfSome, take};
ghost use Rattle.std.specs.Io.KnownBytes.{Appends};
ghost use Rattle.rules.specs.Answer.{answer};
ghost use Rattle.rules.specs.Report.{report};

use frames::fill;
use printing::{Asked, asked_for, print_asked};
use std::io;
use std::io::{Read, Write};

// "It reads at most 32,768 bytes of a block on standard input; the rest is not read." The lines of an answer take at most 64,578 bytes
// (`lift/specs/Lines.antt: lines_fit`). Where no line more is asked for, what is printed is the report of the book's answer to the first bytes.
pub fn run<R: Read, W: Write>(input: &mut R, out: &mut W, asked: Asked) -> io::Result<()>
    ensures { asked.places ≡ false → asked.rounds ≡ false → OnOk result (IfSome (R.remaining input.old)
        (λ bytes. Appends (W.contents out.old) (W.contents out.new) (report (answer 32768 (take 32768 bytes))))) }
{
    let mut space = [0u8; 32768];
    let length = fill(input, &mut space)?;
    let mut output = [0u8; 32768];
    let mut text = [0u8; 64578];
    print_asked(out, &space[..length], &mut output, &mut text, asked)
}

fn main(rt: HostRuntime) -> io::Result<()> {
    run(&mut rt.stdin(), &mut rt.stdout(), asked_for(&rt))
}
