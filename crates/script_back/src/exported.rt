// The entry for C, declared in `include/placardpan.h` and exported by crate script_back_c.
// To C a slice is a pointer and a length, and each outcome is one number.
// Below 256 it is the refusal's number, else 65,536 more than the length of the finished block.
ghost use Rattle.std.specs.Prelude.{◌≡◌, ◌+◌, ◌<◌};
ghost use Rattle.script_back.specs.Refusals.{by_number};
ghost use Rattle.script_back.specs.Back.{ShortIn, number_in as number_in_of, position_in as position_in_of, ExportsBack};

use crate::{Refusal, block_of};

// A block has fewer than 32,768 bytes.
fn above(size: usize) -> u32
    requires { size < 32768 }
    ensures { result ≡ 65536 + size }
{
    65536 + size as u32
}

// A refusal's own number, or 65,536 more than the length.
fn number_in(outcome: Result<usize, Refusal>) -> u32
    requires { ShortIn (by_number outcome) }
    ensures { result ≡ number_in_of (by_number outcome) }
{
    match outcome {
        Err(refusal) => refusal.number() as u32,
        Ok(size) => above(size),
    }
}

// Where the text stopped; 0 if it was read.
fn position_in(outcome: Result<usize, Refusal>) -> usize
    ensures { result ≡ position_in_of (by_number outcome) }
{
    match outcome {
        Err(refusal) => refusal.position(),
        Ok(_) => 0,
    }
}

// `block_of`, with the position through a number of the caller's.
pub fn placardpan_read_script(text: &[u8], output: &mut [u8], position: &mut usize) -> u32
    ensures { ExportsBack text.now output.old output.new result position.new }
{
    let outcome = block_of(text, output);
    *position = position_in(outcome);
    number_in(outcome)
}
