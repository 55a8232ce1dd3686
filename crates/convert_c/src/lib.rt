// The entries for C to crate convert, declared in `include/placardpan.h`: the static library of them is what C links (docs/LINKING.md).
// To C a slice is a pointer and a length, and each outcome is one number.
// Each calls the function of its name in `convert::exported`, and says what that one says.

#![tactic(auto)]

ghost use Rattle.rules.specs.Block.{edition1, edition2};
ghost use Rattle.convert.specs.Exported.{ExportsConversion};

use convert::exported;

// `to_edition1`
#[unsafe(no_mangle)]
pub extern "C" fn placardpan_to_edition1(input: &[u8], output: &mut [u8]) -> u32
    ensures { ExportsConversion edition1 input.now output.old output.new result }
{
    exported::placardpan_to_edition1(input, output)
}

// `to_edition2`
#[unsafe(no_mangle)]
pub extern "C" fn placardpan_to_edition2(input: &[u8], output: &mut [u8]) -> u32
    ensures { ExportsConversion edition2 input.now output.old output.new result }
{
    exported::placardpan_to_edition2(input, output)
}
