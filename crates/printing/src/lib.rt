// The lines for a block on standard output: what the two programs share.
// What is printed is `lift::report_by`'s text, with the argument `places` the places that `lift::placed_by` tells, and with `rounds` the number that
// `lift::with_rounds` does; the argument `plain` chooses the plain engine (02, #110). What a writer that says what it holds is given is promised; that
// standard output takes it is no promise of ours.

#![tactic(auto)]

ghost use Rattle.std.specs.Prelude.{◌≡◌, ◌≤◌, false, OnOk, length, take};
ghost use Rattle.std.specs.Io.KnownBytes.{Appends};
ghost use Rattle.rules.specs.Answer.{answer};
ghost use Rattle.rules.specs.Report.{report};

use std::env::Env;
use std::io;
use std::io::Write;

// The first bytes of the text.
fn print_first<W: Write>(out: &mut W, text: &[u8], size: usize) -> io::Result<()>
    ensures { size ≤ length text.now → OnOk result (Appends (W.contents out.old) (W.contents out.new) (take size text.now)) }
{
    if size <= text.len() {
        out.write_all(&text[..size])?;
    }
    Ok(())
}

// Answers an input by the chosen engine, with the output and the text to work in, and prints its lines.
pub fn print_answer<W: Write>(
    out: &mut W,
    plain: bool,
    input: &[u8],
    output: &mut [u8],
    text: &mut [u8],
) -> io::Result<()>
    ensures { 64578 ≤ length text.old
        → OnOk result (Appends (W.contents out.old) (W.contents out.new) (report (answer (length output.old) input.now))) }
{
    let size = lift::report_by(plain, input, output, text);
    print_first(out, text, size)
}

// ---- the arguments

// What the program's arguments ask for: the lines more, and the engine.
#[derive(Clone, Copy)]
pub struct Asked {
    pub places: bool,
    pub rounds: bool,
    pub plain: bool,
}

// Whether an argument is the word; one that is missing or has more than 16 bytes is none.
fn is_argument<E: Env>(env: &E, k: usize, word: &[u8]) -> bool {
    let mut argument = [0u8; 16];
    match env.arg(k, &mut argument) {
        Ok(length) => &argument[..length] == word,
        Err(_) => false,
    }
}

// Whether one of the first three arguments is the word.
fn is_asked<E: Env>(env: &E, word: &[u8]) -> bool {
    is_argument(env, 1, word) || is_argument(env, 2, word) || is_argument(env, 3, word)
}

pub fn asked_for<E: Env>(env: &E) -> Asked {
    Asked {
        places: is_asked(env, b"places"),
        rounds: is_asked(env, b"rounds"),
        plain: is_asked(env, b"plain"),
    }
}

// ---- the places of the atoms, 02 #105

// "`PLACES` and the places in decimal, one space apart"
fn print_list<W: Write>(out: &mut W, places: &[u8], count: usize) -> io::Result<()> {
    if places.len() < count {
        return Ok(());
    }
    out.write_all(b"PLACES")?;
    for place in &places[..count] {
        write!(out, " {place}")?;
    }
    out.write_all(b"\n")
}

// Answers an input by the chosen engine, with the output to work in, and prints the line of its places; nothing on refusal.
fn print_places<W: Write>(
    out: &mut W,
    plain: bool,
    input: &[u8],
    output: &mut [u8],
) -> io::Result<()> {
    let mut places = [0u8; 255];
    match lift::placed_by(plain, input, output, &mut places) {
        Err(_) => Ok(()),
        Ok(answer) => print_list(out, &places, answer.counts.atoms_out),
    }
}

// ---- the number of rounds, 02 #108

// Answers an input, with the output to work in, and prints the line of its largest number of rounds; nothing on refusal.
fn print_rounds<W: Write>(out: &mut W, input: &[u8], output: &mut [u8]) -> io::Result<()> {
    let known = lift::with_rounds(input, output);
    let rounds = known.rounds;
    match known.answer {
        Err(_) => Ok(()),
        Ok(_) => writeln!(out, "ROUNDS {rounds}"),
    }
}

// ---- with the lines that were asked for

// Answers an input and prints its lines, then that of its places and that of its rounds, if they were asked for.
pub fn print_asked<W: Write>(
    out: &mut W,
    input: &[u8],
    output: &mut [u8],
    text: &mut [u8],
    asked: Asked,
) -> io::Result<()>
    ensures { asked.places ≡ false → asked.rounds ≡ false → 64578 ≤ length text.old
        → OnOk result (Appends (W.contents out.old) (W.contents out.new) (report (answer (length output.old) input.now))) }
{
    let plain = asked.plain;
    print_answer(out, plain, input, output, text)?;
    if asked.places {
        print_places(out, plain, input, output)?;
    }
    if asked.rounds {
        print_rounds(out, input, output)?;
    }
    Ok(())
}
