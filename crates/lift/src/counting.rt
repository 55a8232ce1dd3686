// The entry of 02, #108: "the largest number of rounds that one run of the rounds took, a round that finds a contradiction or no change being counted,
// and 0 if there was no run". Its answer and its bytes are those of `simplify`.
ghost use Rattle.std.specs.Prelude.{length, ◌≤◌};
ghost use Rattle.rules.specs.Block.{read_block};
ghost use Rattle.rules.specs.Answer.{answer};
ghost use Rattle.rules.specs.Demands.{SameLifts, NeverLonger};
ghost use Rattle.lift.specs.Rounds.{RoundsAnswers};

use crate::{Refusal, WithRounds, answered};

// As `simplify`, and the largest number of rounds that one run took; on refusal 0.
pub fn with_rounds(input: &[u8], output: &mut [u8]) -> WithRounds
    ensures { RoundsAnswers input.now output.old output.new result
        × SameLifts (read_block input.now) (answer (length output.old) input.now)
        × NeverLonger input.now (answer (length output.old) input.now) × (result.rounds ≤ 161) }
{
    if output.len() < input.len() {
        return WithRounds {
            answer: Err(Refusal::OutputShort),
            rounds: 0,
        };
    }
    let mut places = [0u8; 255];
    answered(false, input, output, &mut places, 0)
}
