// The entries for C to crate lift, declared in `include/placardpan.h`: the static library of them is what C links (docs/LINKING.md).
// To C a slice is a pointer and a length, and each outcome is one number.
// Each calls the function of its name in `lift::exported`, and says what that one says.

#![tactic(auto)]

ghost use Rattle.lift.specs.Exported.{ExportsAnswer, ExportsLength, ExportsCounts, ExportsPlaces, ExportsRounds};
ghost use Rattle.lift.specs.Lines.{Reports};

use lift::exported;

// `simplify`: below 256 the refusal's number, else the verdict and the length.
#[unsafe(no_mangle)]
pub extern "C" fn placardpan_simplify(input: &[u8], output: &mut [u8]) -> u32
    ensures { ExportsAnswer input.now output.old output.new result }
{
    exported::placardpan_simplify(input, output)
}

// `simplify_by`: the engine is 1 for the plain one; any other number takes the fast one. The outcome is that of `placardpan_simplify`.
#[unsafe(no_mangle)]
pub extern "C" fn placardpan_simplify_by(engine: u8, input: &[u8], output: &mut [u8]) -> u32
    ensures { ExportsAnswer input.now output.old output.new result }
{
    exported::placardpan_simplify_by(engine, input, output)
}

// `simplified`: the filled part is the output's start, and this its length, 0 exactly on refusal.
#[unsafe(no_mangle)]
pub extern "C" fn placardpan_simplified(input: &[u8], output: &mut [u8]) -> usize
    ensures { ExportsLength input.now output.old output.new result }
{
    exported::placardpan_simplified(input, output)
}

// `simplify` with the counts, each through a number of the caller's: atoms in and out; polynomials in, the different non-constant normal forms that
// the given tree uses; polynomials out, those of the new table.
#[unsafe(no_mangle)]
pub extern "C" fn placardpan_counted(
    input: &[u8],
    output: &mut [u8],
    atoms_in: &mut usize,
    atoms_out: &mut usize,
    polynomials_in: &mut usize,
    polynomials_out: &mut usize,
) -> u32
    ensures { ExportsCounts input.now output.old output.new result
        atoms_in.new atoms_out.new polynomials_in.new polynomials_out.new }
{
    exported::placardpan_counted(
        input,
        output,
        atoms_in,
        atoms_out,
        polynomials_in,
        polynomials_out,
    )
}

// `placed`: the number as `placardpan_simplify` gives it, with refusal 18 if fewer than 255 places are lent; the places through the caller's slice.
#[unsafe(no_mangle)]
pub extern "C" fn placardpan_placed(input: &[u8], output: &mut [u8], places: &mut [u8]) -> u32
    ensures { ExportsPlaces input.now output.old output.new places.old places.new result }
{
    exported::placardpan_placed(input, output, places)
}

// `with_rounds`: the number as `placardpan_simplify` gives it; the largest number of rounds that one run took, 0 on refusal, through a number of the
// caller's.
#[unsafe(no_mangle)]
pub extern "C" fn placardpan_rounds(input: &[u8], output: &mut [u8], rounds: &mut usize) -> u32
    ensures { ExportsRounds input.now output.old output.new result rounds.new }
{
    exported::placardpan_rounds(input, output, rounds)
}

// `report`: the program's lines in the caller's text, and how many bytes they are; 0 if they do not fit.
#[unsafe(no_mangle)]
pub extern "C" fn placardpan_report(input: &[u8], output: &mut [u8], text: &mut [u8]) -> usize
    ensures { Reports input.now output.old output.new text.old text.new result }
{
    exported::placardpan_report(input, output, text)
}
