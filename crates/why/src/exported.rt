// The entry for C, declared in `include/placardpan.h` and exported by crate why_c.
// To C the records are a pointer to structs and how many there are, and each outcome is one number.
ghost use Rattle.std.specs.Prelude.{◌≡◌, length};
ghost use Rattle.rules.specs.Reasons.{why as why_book};
ghost use Rattle.why.specs.Refusals.{by_number};
ghost use Rattle.why.specs.Exported.{number_in as number_in_of, Few, Exports};

use crate::{Refusal, why};
use reasons::Reason;

// One number for each outcome: below 256 the refusal, else 256 more than the number of records.
fn number_in(outcome: Result<usize, Refusal>) -> u32
    requires { Few (by_number outcome) }
    ensures { result ≡ number_in_of (by_number outcome) }
{
    match outcome {
        Err(refusal) => refusal.number() as u32,
        Ok(count) => count as u32 + 256,
    }
}

// `why`.
pub fn placardpan_why(input: &[u8], records: &mut [Reason]) -> u32
    ensures { Exports (why_book (length records.old) input.now) records.old records.new result }
{
    number_in(why(input, records))
}
