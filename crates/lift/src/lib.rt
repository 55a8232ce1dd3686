// The public entries: a lift condition block is read, simplified and written again; `report` tells the program's lines of it.
// 01, "Refusal numbers": a refusal leaves before anything is written.

#![tactic(auto)]

ghost use Rattle.std.specs.Prelude.{◌≡◌, ◌≤◌, length};
ghost use Rattle.rules.specs.Block.{read_block};
ghost use Rattle.rules.specs.Answer.{answer};
ghost use Rattle.rules.specs.Demands.{SameLifts, NeverLonger};
ghost use Rattle.answer.specs.Refusals.{by_number};
ghost use Rattle.answer.specs.Answered.{length_in as length_in_of};
ghost use Rattle.answer.specs.Entry.{Answers, CountsRounds};
ghost use Rattle.lift.specs.Part.{Fills};
ghost use Rattle.lift.specs.Lines.{Reports};
ghost use Rattle.lift.specs.Places.{Places};

mod counting; // the entry with the number of rounds
pub mod exported; // the entries for C
mod placing; // the entry with the places of the atoms

use answer::answer_to;
pub use answer::{Answer, Counts, Refusal, Verdict, WithRounds};
use block::{edition, read_into};
pub use counting::with_rounds;
pub use placing::{placed, placed_by};
use telling::{tell_answer, tell_refusal};

// No run takes more rounds (`laws/Rounds: few-rounds`): where this is the largest number so far, none is counted.
pub const MOST_ROUNDS: usize = 161;

// Reads a block and answers it by the engine that is chosen, where the output has room for it and the slice for the places of its atoms; with the largest number of rounds so far.
fn answered(
    plain: bool,
    input: &[u8],
    output: &mut [u8],
    places: &mut [u8],
    largest: usize,
) -> WithRounds
    requires { (length input.now ≤ length output.old) × (255 ≤ length places.old) }
    ensures { Answers input.now output.old output.new result.answer
        × (Places input.now (length output.old) places.old places.new
        × CountsRounds input.now largest result.rounds) }
{
    let mut coefficient = [0i32; 1024];
    let mut monomial = [0u64; 1024];
    let mut terms = [0u8; 64];
    let mut token = [0u32; 255];
    let contents = read_into(
        input,
        &mut coefficient,
        &mut monomial,
        &mut terms,
        &mut token,
    );
    match contents {
        Err(refusal) => WithRounds {
            answer: Err(Refusal::Block(refusal)),
            rounds: largest,
        },
        Ok(held) => {
            let number = edition(input);
            answer_to(
                plain,
                number,
                held.variables,
                held.polynomials,
                held.root,
                held.tokens,
                &mut coefficient,
                &mut monomial,
                &mut terms,
                &mut token,
                output,
                places,
                largest,
            )
        }
    }
}

// Reads a block, simplifies it and writes the new block to the output's first bytes. Every input is answered or refused.
// 02, #110: the user chooses the engine that deduces, the plain one or the fast one; both give the same answer.
pub fn simplify_by(plain: bool, input: &[u8], output: &mut [u8]) -> Result<Answer, Refusal>
    ensures { Answers input.now output.old output.new result
        × SameLifts (read_block input.now) (answer (length output.old) input.now)
        × NeverLonger input.now (answer (length output.old) input.now) }
{
    if output.len() < input.len() {
        return Err(Refusal::OutputShort);
    }
    let mut places = [0u8; 255];
    let known = answered(plain, input, output, &mut places, MOST_ROUNDS);
    known.answer
}

// The same by the fast engine.
pub fn simplify(input: &[u8], output: &mut [u8]) -> Result<Answer, Refusal>
    ensures { Answers input.now output.old output.new result
        × SameLifts (read_block input.now) (answer (length output.old) input.now)
        × NeverLonger input.now (answer (length output.old) input.now) }
{
    simplify_by(false, input, output)
}

// "A refusal returns its number and length 0"; an answer has its length.
fn length_in(answer: Result<Answer, Refusal>) -> usize
    ensures { result ≡ length_in_of (by_number answer) }
{
    match answer {
        Err(_) => 0,
        Ok(answer) => answer.length,
    }
}

// The second entry: "gives back the filled part of the lent output itself, empty exactly on refusal".
pub fn simplified<'a>(input: &[u8], output: &'a mut [u8]) -> &'a mut [u8]
    ensures { Fills input.now output.old output.entry.ref_ptr result.now result.ref_ptr }
{
    let filled = length_in(simplify(input, output));
    &mut output[..filled]
}

// The program's lines for an input: simplifies it, and writes the report line and the hex line to the text's first bytes. Returns how many bytes they
// are; if they do not fit, 0, and the text keeps each byte. The engine is the chosen one.
pub fn report_by(plain: bool, input: &[u8], output: &mut [u8], text: &mut [u8]) -> usize
    ensures { Reports input.now output.old output.new text.old text.new result }
{
    let answer = simplify_by(plain, input, output);
    match answer {
        Err(refusal) => tell_refusal(refusal.number(), text),
        Ok(answer) => tell_answer(
            answer.verdict,
            answer.counts,
            &output[..answer.length],
            text,
        ),
    }
}

// The same by the fast engine.
pub fn report(input: &[u8], output: &mut [u8], text: &mut [u8]) -> usize
    ensures { Reports input.now output.old output.new text.old text.new result }
{
    report_by(false, input, output, text)
}
