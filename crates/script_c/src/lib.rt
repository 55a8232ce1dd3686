// The entry for C to crate script, declared in `include/placardpan.h`: the static library of it is what C links (docs/LINKING.md).
// To C a slice is a pointer and a length, and each outcome is one number.
// It calls the function of its name in `script`, and says what that one says.

#![tactic(auto)]

ghost use Rattle.std.specs.Prelude.{length};
ghost use Rattle.rules.specs.Scripts.{script_answer};
ghost use Rattle.script.specs.Entry.{Exports};

// `script`: below 256 the refusal's number, else 65,536 more than the script's length.
#[unsafe(no_mangle)]
pub extern "C" fn placardpan_script(input: &[u8], text: &mut [u8]) -> u32
    ensures { Exports (script_answer (length text.old) input.now) text.old text.new result }
{
    script::placardpan_script(input, text)
}
