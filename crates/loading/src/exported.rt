// The entries for C, declared in `include/placardpan.h` and exported by crate loading_c.
// To C a slice is a pointer and a length, and each outcome is one number.
// A driver asks for the place and the value of each write, or calls `placardpan_step`, and waits for its memory after each.
ghost use Rattle.std.specs.Prelude.{◌≡◌, ◌+◌, ◌<◌};
ghost use Rattle.loading_laws.specs.Loading.{start_of, first_write, load_answer};
ghost use Rattle.loading_laws.specs.Loading.{place as place_of, value as value_of, step as step_of, load as load_of};
ghost use Rattle.loading.specs.Refusals.{by_number};
ghost use Rattle.loading.specs.Exported.{number_in as number_in_of, number_told, Short};

use crate::{Refusal, first_write, load, place, start, step, value};

// A block has fewer than 32,768 bytes.
fn above(size: usize) -> u32
    requires { size < 32768 }
    ensures { result ≡ 65536 + size }
{
    65536 + size as u32
}

// A refusal's own number, or 65,536 more than the length.
fn number_in(answer: Result<usize, Refusal>) -> u32
    requires { Short (by_number answer) }
    ensures { result ≡ number_told (by_number answer) }
{
    match answer {
        Err(refusal) => refusal.number() as u32,
        Ok(size) => above(size),
    }
}

// `start`: below 256 the refusal's number, else 65,536 more than the length of the block that starts.
pub fn placardpan_start(area: &[u8]) -> u32
    ensures { result ≡ number_in_of (start_of area.now) }
{
    number_in(start(area))
}

// `place`
pub fn placardpan_place(size: usize, k: usize) -> usize
    ensures { result ≡ place_of size k }
{
    place(size, k)
}

// `value`
pub fn placardpan_value(block: &[u8], k: usize) -> u8
    ensures { result ≡ value_of block.now k }
{
    value(block, k)
}

// `first_write`
pub fn placardpan_first_write(area: &[u8]) -> usize
    ensures { result ≡ first_write area.now }
{
    first_write(area)
}

// `step`
pub fn placardpan_step(area: &mut [u8], block: &[u8], k: usize)
    ensures { area.new ≡ step_of block.now area.old k }
{
    step(area, block, k)
}

// `load`: below 256 the refusal's number, else 65,536 more than the length of the block that was loaded.
pub fn placardpan_load(block: &[u8], area: &mut [u8]) -> u32
    ensures { (result ≡ number_in_of (load_answer block.now area.old))
        × (area.new ≡ load_of block.now area.old) }
{
    number_in(load(block, area))
}
