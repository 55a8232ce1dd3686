// The entry for C to crate evaluate, declared in `include/placardpan.h`: the static library of it is what C links (docs/LINKING.md).
// To C a slice is a pointer and a length, and each outcome is one number.
// It calls the function of its name in `evaluate`, and says what that one says.

#![tactic(auto)]

ghost use Rattle.std.specs.Prelude.{◌≡◌};
ghost use Rattle.rules.specs.Evaluate.{evaluate as evaluate_book, evaluation_number};

// `evaluate`: below 256 the refusal's number, 256 deny, 257 permit.
#[unsafe(no_mangle)]
pub extern "C" fn placardpan_evaluate(input: &[u8], readings: &[i32]) -> u32
    ensures { result ≡ evaluation_number (evaluate_book input.now readings.now) }
{
    evaluate::placardpan_evaluate(input, readings)
}
