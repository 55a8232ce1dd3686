// The entry of 02, #105: which input atom did each atom of the answer come from? "The places go to a lent slice of 255 bytes, one for each atom of the
// answer in order, the others unchanged; on refusal all are." Its answer, its bytes and its counts are those of `simplify`.
ghost use Rattle.std.specs.Prelude.{length};
ghost use Rattle.rules.specs.Block.{read_block};
ghost use Rattle.rules.specs.Answer.{placed_answer};
ghost use Rattle.rules.specs.Demands.{SameLifts, NeverLonger, PlacesTell};
ghost use Rattle.lift.specs.Places.{PlacedAnswers};

use crate::{Answer, MOST_ROUNDS, Refusal, answered};

// As `simplify`, and the place of the input atom that each atom of the new block comes from, in order: the first bytes of the lent slice of places.
// The engine is the chosen one.
pub fn placed_by(
    plain: bool,
    input: &[u8],
    output: &mut [u8],
    places: &mut [u8],
) -> Result<Answer, Refusal>
    ensures { let given = placed_answer (length output.old) (length places.old) input.now in
        PlacedAnswers input.now output.old output.new places.old places.new result
        × SameLifts (read_block input.now) given × NeverLonger input.now given × PlacesTell (read_block input.now) }
{
    if output.len() < input.len() {
        return Err(Refusal::OutputShort);
    }
    if places.len() < 255 {
        return Err(Refusal::PlacesShort);
    }
    let known = answered(plain, input, output, places, MOST_ROUNDS);
    known.answer
}

// The same by the fast engine.
pub fn placed(input: &[u8], output: &mut [u8], places: &mut [u8]) -> Result<Answer, Refusal>
    ensures { let given = placed_answer (length output.old) (length places.old) input.now in
        PlacedAnswers input.now output.old output.new places.old places.new result
        × SameLifts (read_block input.now) given × NeverLonger input.now given × PlacesTell (read_block input.now) }
{
    placed_by(false, input, output, places)
}
