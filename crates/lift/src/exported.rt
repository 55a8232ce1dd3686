// The entries for C, declared in `include/placardpan.h` and exported by crate lift_c.
// To C a slice is a pointer and a length, and each outcome is one number.
// `specs/Exported.antt` has the number for each case of the book's answer.
ghost use Rattle.std.specs.Prelude.{◌≡◌, ◌<◌};
ghost use Rattle.answer.specs.Refusals.{by_number};
ghost use Rattle.answer.specs.Answered.{length_in as length_in_of};
ghost use Rattle.lift.specs.Exported.{packed_of, number_in as number_in_of, counts_or_zero as counts_or_zero_of, ExportsAnswer, ExportsLength, ExportsCounts, ExportsPlaces, ExportsRounds};
ghost use Rattle.lift.specs.Lines.{Reports};

use crate::counting::with_rounds;
use crate::placing::placed;
use crate::{Answer, Counts, Refusal, Verdict, length_in, report, simplify, simplify_by};

// The verdict's number and the length in one; a block has at most 21,516 bytes.
fn packed(verdict: Verdict, size: usize) -> u32
    requires { size < 65536 }
    ensures { result ≡ packed_of verdict size }
{
    match verdict {
        Verdict::Formula => 65536 + size as u32,
        Verdict::Always => 131072 + size as u32,
        Verdict::Unsatisfiable => 196608 + size as u32,
    }
}

// A refusal's own number, or that of the verdict and the length.
fn number_in(answer: Result<Answer, Refusal>) -> u32
    requires { length_in_of (by_number answer) < 65536 }
    ensures { result ≡ number_in_of (by_number answer) }
{
    match answer {
        Err(refusal) => refusal.number() as u32,
        Ok(answer) => packed(answer.verdict, answer.length),
    }
}

// An answer has its counts, a refusal none: 0.
fn counts_or_zero(answer: Result<Answer, Refusal>) -> Counts
    ensures { result ≡ counts_or_zero_of (by_number answer) }
{
    match answer {
        Err(_) => Counts {
            atoms_in: 0,
            atoms_out: 0,
            polynomials_in: 0,
            polynomials_out: 0,
        },
        Ok(answer) => answer.counts,
    }
}

// `simplify`: below 256 the refusal's number, else the verdict and the length.
pub fn placardpan_simplify(input: &[u8], output: &mut [u8]) -> u32
    ensures { ExportsAnswer input.now output.old output.new result }
{
    let given = simplify(input, output);
    number_in(given)
}

// `simplify_by`: the engine is 1 for the plain one; any other number takes the fast one. The outcome is that of `placardpan_simplify`.
pub fn placardpan_simplify_by(engine: u8, input: &[u8], output: &mut [u8]) -> u32
    ensures { ExportsAnswer input.now output.old output.new result }
{
    let given = simplify_by(engine == 1, input, output);
    number_in(given)
}

// `simplified`: the filled part is the output's start, and this its length, 0 exactly on refusal.
pub fn placardpan_simplified(input: &[u8], output: &mut [u8]) -> usize
    ensures { ExportsLength input.now output.old output.new result }
{
    length_in(simplify(input, output))
}

// `simplify` with the counts, each through a number of the caller's: atoms in and out; polynomials in, the different non-constant normal forms that
// the given tree uses; polynomials out, those of the new table.
pub fn placardpan_counted(
    input: &[u8],
    output: &mut [u8],
    atoms_in: &mut usize,
    atoms_out: &mut usize,
    polynomials_in: &mut usize,
    polynomials_out: &mut usize,
) -> u32
    ensures { ExportsCounts input.now output.old output.new result
        atoms_in.new atoms_out.new polynomials_in.new polynomials_out.new }
{
    let given = simplify(input, output);
    let counts = counts_or_zero(given);
    *atoms_in = counts.atoms_in;
    *atoms_out = counts.atoms_out;
    *polynomials_in = counts.polynomials_in;
    *polynomials_out = counts.polynomials_out;
    number_in(given)
}

// `placed`: the number as `placardpan_simplify` gives it, with refusal 18 if fewer than 255 places are lent; the places through the caller's slice.
pub fn placardpan_placed(input: &[u8], output: &mut [u8], places: &mut [u8]) -> u32
    ensures { ExportsPlaces input.now output.old output.new places.old places.new result }
{
    let given = placed(input, output, places);
    number_in(given)
}

// `with_rounds`: the number as `placardpan_simplify` gives it; the largest number of rounds that one run took, 0 on refusal, through a number of the
// caller's.
pub fn placardpan_rounds(input: &[u8], output: &mut [u8], rounds: &mut usize) -> u32
    ensures { ExportsRounds input.now output.old output.new result rounds.new }
{
    let given = with_rounds(input, output);
    *rounds = given.rounds;
    let answer = given.answer;
    number_in(answer)
}

// `report`: the program's lines in the caller's text, and how many bytes they are; 0 if they do not fit.
pub fn placardpan_report(input: &[u8], output: &mut [u8], text: &mut [u8]) -> usize
    ensures { Reports input.now output.old output.new text.old text.new result }
{
    report(input, output, text)
}
