// 02, #106, "the merged list": all atoms through step 2's merging, nothing cut short; then full sets are taken out.
// The tokens name normal forms already, and carry their places.

#![tactic(auto)]

ghost use Rattle.std.specs.Prelude.{◌≡◌, List, ℕ, ◌+◌, ◌%◌, ◌<◌, ◌≤◌};
ghost use Rattle.rules.specs.Signs.{inside};
ghost use Rattle.table.specs.Table.{Table, Forms};
ghost use Rattle.round.specs.Views.{lent_table};
ghost use Rattle.tape.specs.Row.{Lists};
ghost use Rattle.merging.specs.Merged.{truth_if, TruthIs, MergesInto, Joins, JoinsAll, NotFull, BehindEmpty};

use signs::SignSet;
use tape::rows::{Row, empty, push};
use tape::tokens::{set_of, slot_of, with_set};
use terms::sign_of;

// "A constant polynomial makes its atom true or false"; every other polynomial leaves it open.
// Crate steps has `if_constant` too, with an `Option<bool>` in place of this; neither crate stands on the other.
#[derive(Clone, Copy)]
enum Truth {
    Open,
    True,
    False,
}

// An atom whose polynomial is a constant of this sign.
fn truth_of(sign: SignSet, token: u32) -> Truth
    ensures { result ≡ truth_if (inside sign.0 (token % 8)) }
{
    if sign.inside(set_of(token)) {
        return Truth::True;
    }
    Truth::False
}

fn if_constant(
    coefficient: &[i32],
    monomial: &[u64],
    terms: &[u8],
    variables: usize,
    token: u32,
) -> Truth
    requires { Forms (lent_table coefficient monomial terms variables) }
    ensures { TruthIs (lent_table coefficient.entry monomial.entry terms.entry variables) token result }
{
    let number = slot_of(token);
    let count = terms[number];
    if 1 < count {
        return Truth::Open;
    }
    if count == 0 {
        return truth_of(SignSet(2), token);
    }
    let exponents = monomial[16 * number];
    if exponents == 0 {
        let c = coefficient[16 * number];
        return truth_of(sign_of(c), token);
    }
    Truth::Open
}

// An atom into a list that has each polynomial once.
fn merge_into(list: Row, token: u32) -> Row
    requires { list.count < 256 }
    ensures { (result.count ≤ list.count + 1) × ((t : Table) (l : List ℕ) → Forms t → Lists list l → MergesInto t token l result) }
{
    let number = slot_of(token);
    for i in 0..list.count {
        let other = list.token[i];
        if slot_of(other) == number {
            let set = set_of(other).intersect(set_of(token));
            let mut merged = list;
            merged.token[i] = with_set(other, set);
            return merged;
        }
    }
    push(list, token)
}

// One atom more: a true constant is not in the list, a false one stands in it at its own place with the empty set, any other is merged.
fn join(
    coefficient: &[i32],
    monomial: &[u64],
    terms: &[u8],
    variables: usize,
    list: Row,
    token: u32,
) -> Row
    requires { Forms (lent_table coefficient monomial terms variables) × (list.count < 256) }
    ensures { let t = lent_table coefficient.entry monomial.entry terms.entry variables in
        (result.count ≤ list.count + 1) × ((l : List ℕ) → Lists list l → Joins t token l result) }
{
    let constant = if_constant(coefficient, monomial, terms, variables, token);
    match constant {
        Truth::Open => merge_into(list, token),
        Truth::True => list,
        Truth::False => push(list, with_set(token, SignSet::EMPTY)),
    }
}

// All atoms.
pub fn join_all(
    coefficient: &[i32],
    monomial: &[u64],
    terms: &[u8],
    variables: usize,
    given: Row,
) -> Row
    requires { Forms (lent_table coefficient monomial terms variables) × (given.count ≤ 255) }
    ensures { let t = lent_table coefficient.entry monomial.entry terms.entry variables in
        (result.count ≤ given.count) × ((l : List ℕ) → Lists given l → JoinsAll t l result) }
{
    let mut list = empty();
    for token in &given.token[..given.count] {
        list = join(coefficient, monomial, terms, variables, list, *token);
    }
    list
}

// "Then full sets are taken out."
pub fn not_full(list: Row) -> Row
    requires { list.count ≤ 255 }
    ensures { (result.count ≤ list.count) × ((t : Table) (l : List ℕ) → Lists list l → NotFull t l result) }
{
    let mut kept = empty();
    for token in &list.token[..list.count] {
        if set_of(*token).0 != SignSet::FULL.0 {
            kept = push(kept, *token);
        }
    }
    kept
}

// The index behind the last atom with the empty set; 0 if there is none.
pub fn behind_empty(list: Row) -> usize
    requires { list.count ≤ 256 }
    ensures { (l : List ℕ) → Lists list l → BehindEmpty l result }
{
    let mut behind = 0;
    for i in 0..list.count {
        let token = list.token[i];
        let set = set_of(token);
        if set.0 == SignSet::EMPTY.0 {
            behind = i + 1;
        }
    }
    behind
}
