// The entries for C, declared in `include/placardpan.h` and exported by crate convert_c.
// To C a slice is a pointer and a length, and each outcome is one number.
// Below 256 it is the refusal's number, else 65,536 more than the length of the finished block.
ghost use Rattle.std.specs.Prelude.{◌≡◌, ◌+◌, ◌<◌};
ghost use Rattle.rules.specs.Block.{edition1, edition2};
ghost use Rattle.convert.specs.Exported.{number_in as number_in_of, Short, ExportsConversion};

use crate::{Refusal, to_edition1, to_edition2};

// A block has fewer than 32,768 bytes.
fn above(size: usize) -> u32
    requires { size < 32768 }
    ensures { result ≡ 65536 + size }
{
    65536 + size as u32
}

// A refusal's own number, or 65,536 more than the length.
fn number_in(outcome: Result<usize, Refusal>) -> u32
    requires { Short outcome }
    ensures { result ≡ number_in_of outcome }
{
    match outcome {
        Err(refusal) => refusal.number() as u32,
        Ok(size) => above(size),
    }
}

// `to_edition1`
pub fn placardpan_to_edition1(input: &[u8], output: &mut [u8]) -> u32
    ensures { ExportsConversion edition1 input.now output.old output.new result }
{
    number_in(to_edition1(input, output))
}

// `to_edition2`
pub fn placardpan_to_edition2(input: &[u8], output: &mut [u8]) -> u32
    ensures { ExportsConversion edition2 input.now output.old output.new result }
{
    number_in(to_edition2(input, output))
}
