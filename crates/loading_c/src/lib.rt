// The entries for C to crate loading, declared in `include/placardpan.h`: the static library of them is what C links (docs/LINKING.md).
// To C a slice is a pointer and a length, and each outcome is one number.
// Each calls the function of its name in `loading::exported`, and says what that one says.

#![tactic(auto)]

ghost use Rattle.std.specs.Prelude.{◌≡◌};
ghost use Rattle.loading_laws.specs.Loading.{start_of, first_write, load_answer};
ghost use Rattle.loading_laws.specs.Loading.{place as place_of, value as value_of, step as step_of, load as load_of};
ghost use Rattle.loading.specs.Exported.{number_in as number_in_of};

use loading::exported;

// `start`: below 256 the refusal's number, else 65,536 more than the length of the block that starts.
#[unsafe(no_mangle)]
pub extern "C" fn placardpan_start(area: &[u8]) -> u32
    ensures { result ≡ number_in_of (start_of area.now) }
{
    exported::placardpan_start(area)
}

// `place`
#[unsafe(no_mangle)]
pub extern "C" fn placardpan_place(size: usize, k: usize) -> usize
    ensures { result ≡ place_of size k }
{
    exported::placardpan_place(size, k)
}

// `value`
#[unsafe(no_mangle)]
pub extern "C" fn placardpan_value(block: &[u8], k: usize) -> u8
    ensures { result ≡ value_of block.now k }
{
    exported::placardpan_value(block, k)
}

// `first_write`
#[unsafe(no_mangle)]
pub extern "C" fn placardpan_first_write(area: &[u8]) -> usize
    ensures { result ≡ first_write area.now }
{
    exported::placardpan_first_write(area)
}

// `step`
#[unsafe(no_mangle)]
pub extern "C" fn placardpan_step(area: &mut [u8], block: &[u8], k: usize)
    ensures { area.new ≡ step_of block.now area.old k }
{
    exported::placardpan_step(area, block, k)
}

// `load`: below 256 the refusal's number, else 65,536 more than the length of the block that was loaded.
#[unsafe(no_mangle)]
pub extern "C" fn placardpan_load(block: &[u8], area: &mut [u8]) -> u32
    ensures { (result ≡ number_in_of (load_answer block.now area.old))
        × (area.new ≡ load_of block.now area.old) }
{
    exported::placardpan_load(block, area)
}
