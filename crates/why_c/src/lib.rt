// The entry for C to crate why, declared in `include/placardpan.h`: the static library of it is what C links (docs/LINKING.md).
// To C the records are a pointer to structs and how many there are, and each outcome is one number.
// It calls the function of its name in `why::exported`, and says what that one says.

#![tactic(auto)]

ghost use Rattle.std.specs.Prelude.{length};
ghost use Rattle.rules.specs.Reasons.{why as why_book};
ghost use Rattle.why.specs.Exported.{Exports};

use reasons::Reason;
use why::exported;

// `why`.
#[unsafe(no_mangle)]
pub extern "C" fn placardpan_why(input: &[u8], records: &mut [Reason]) -> u32
    ensures { Exports (why_book (length records.old) input.now) records.old records.new result }
{
    exported::placardpan_why(input, records)
}
