// The entry for C to crate script_back, declared in `include/placardpan.h`: the static library of it is what C links (docs/LINKING.md).
// To C a slice is a pointer and a length, and each outcome is one number.
// It calls the function of its name in `script_back::exported`, and says what that one says.

#![tactic(auto)]

ghost use Rattle.script_back.specs.Back.{ExportsBack};

use script_back::exported;

// `block_of`, with the position through a number of the caller's.
#[unsafe(no_mangle)]
pub extern "C" fn placardpan_read_script(
    text: &[u8],
    output: &mut [u8],
    position: &mut usize,
) -> u32
    ensures { ExportsBack text.now output.old output.new result position.new }
{
    exported::placardpan_read_script(text, output, position)
}
