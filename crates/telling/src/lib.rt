// 01, "The program": the report line and the hex line of an answer, stored in lent bytes.
// The report line is made apart, so that its length is known before the lent text is touched.

#![tactic(auto)]

ghost use Rattle.std.specs.Prelude.{◌+◌, ◌<◌, ◌≤◌, length};
ghost use Rattle.rules.specs.Answer.{refusal, answered};
ghost use Rattle.rules.specs.Report.{word, counts_text};
ghost use Rattle.rules.specs.Report.{report as Report·report};
ghost use Rattle.lines.specs.Parts.{answer_line};
ghost use Rattle.lines.specs.Written.{Wrote};
ghost use Rattle.telling.specs.Told.{verdict_in, counts_in, Made, Told};

use answer::{Counts, Verdict};
use lines::{hex_length, put_byte, put_bytes, put_hex, put_number};

// "one of the words FORMULA, ALWAYS, UNSATISFIABLE"
fn put_word(line: &mut [u8], verdict: Verdict) -> usize
    requires { 13 ≤ length line.old }
    ensures { Wrote line.old line.new 0 (word (verdict_in verdict)) result }
{
    match verdict {
        Verdict::Formula => put_bytes(line, 0, b"FORMULA"),
        Verdict::Always => put_bytes(line, 0, b"ALWAYS"),
        Verdict::Unsatisfiable => put_bytes(line, 0, b"UNSATISFIABLE"),
    }
}

// "with atoms in, atoms out, polynomials in, polynomials out"
fn put_counts(line: &mut [u8], at: usize, counts: Counts) -> usize
    requires { at + 16 ≤ length line.old }
    ensures { Wrote line.old line.new at (counts_text (counts_in counts)) result }
{
    let second = put_number(line, at, counts.atoms_in);
    let third = put_number(line, second, counts.atoms_out);
    let last = put_number(line, third, counts.polynomials_in);
    put_number(line, last, counts.polynomials_out)
}

// The report line of an answer.
fn make_answer(line: &mut [u8], verdict: Verdict, counts: Counts) -> usize
    requires { 30 ≤ length line.old }
    ensures { Made (answer_line (verdict_in verdict) (counts_in counts)) line.new result }
{
    let numbers = put_word(line, verdict);
    let end = put_counts(line, numbers, counts);
    put_byte(line, end, 10)
}

// "or REFUSED and the number"
fn make_refusal(line: &mut [u8], number: u8) -> usize
    requires { 30 ≤ length line.old }
    ensures { Made (Report·report (refusal number)) line.new result }
{
    let after = put_bytes(line, 0, b"REFUSED");
    let end = put_number(line, after, number as usize);
    put_byte(line, end, 10)
}

// One line, if it fits.
pub fn tell_refusal(number: u8, text: &mut [u8]) -> usize
    ensures { Told (Report·report (refusal number)) text.old text.new result }
{
    let mut line = [0u8; 30];
    let n = make_refusal(&mut line, number);
    if text.len() < n {
        return 0;
    }
    put_bytes(text, 0, &line[..n])
}

// "Except on refusal, a second line has the new block": both lines, if they fit.
pub fn tell_answer(verdict: Verdict, counts: Counts, block: &[u8], text: &mut [u8]) -> usize
    requires { length block.now < 65536 }
    ensures { let lines = Report·report (answered (verdict_in verdict) block.now (counts_in counts)) in
        Told lines text.old text.new result }
{
    let mut line = [0u8; 30];
    let n = make_answer(&mut line, verdict, counts);
    if text.len() < n + hex_length(block.len()) + 1 {
        return 0;
    }
    let second = put_bytes(text, 0, &line[..n]);
    let end = put_hex(text, second, block);
    put_byte(text, end, 10)
}
