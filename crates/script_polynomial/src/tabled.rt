// The table of the known polynomials: where one stands in it, one more stored in it, how far a text agrees with the texts of those in it.
// The polynomial that was read stands at the first places of two arrays of its own.
ghost use Rattle.std.specs.Prelude.{map, ◌≡◌, ◌+◌, ◌*◌, ◌<◌, ◌≤◌, length, get_or, set, drop};
ghost use Rattle.std.proofs.lemmas.List.Edits.{sets};
ghost use Rattle.rules.specs.Polynomial.{same};
ghost use Rattle.terms.specs.View.{terms_from};
ghost use Rattle.forms.specs.Slots.{slot_of, first_from};
ghost use Rattle.forms.specs.Working.{TableRead};
ghost use Rattle.script_polynomial.specs.Agreement.{common};
ghost use Rattle.script_polynomial.specs.Terms.{Room};
ghost use Rattle.script_polynomial.specs.Slots.{same_at, larger, agreement, texts_from, SlotWithin, text_at};

use crate::bytes::agreed;
use script_text::polynomials::put_polynomial;

fn wide(x: u8) -> usize
    ensures { result ≡ x }
{
    x as usize
}

// ---- where a polynomial stands

// Whether the term at a place is the one that was read.
fn same_term(
    coefficient: &[i32],
    monomial: &[u64],
    value: &[i32],
    powers: &[u64],
    place: usize,
    i: usize,
) -> bool
    requires { (place < length coefficient.now) × (place < length monomial.now) × (i < length value.now) × (i < length powers.now) }
    ensures { result ≡ same_at coefficient.now monomial.now value.now powers.now place i }
{
    if powers[i] != monomial[place] {
        return false;
    }
    let c = value[i];
    let d = coefficient[place];
    c == d
}

// Whether the terms from a place on are those that were read, so many.
fn same_terms(
    coefficient: &[i32],
    monomial: &[u64],
    value: &[i32],
    powers: &[u64],
    place: usize,
    count: usize,
) -> bool
    requires { Room coefficient.now monomial.now place count × Room value.now powers.now 0 count }
    ensures { result ≡ same (terms_from value.now powers.now 0 count)
        (terms_from coefficient.now monomial.now place count) }
{
    for i in 0..count {
        if !same_term(coefficient, monomial, value, powers, place + i, i) {
            return false;
        }
    }
    true
}

// Whether the polynomial in a slot is the one that was read.
fn same_slot(
    coefficient: &[i32],
    monomial: &[u64],
    terms: &[u8],
    value: &[i32],
    powers: &[u64],
    slot: usize,
    count: usize,
) -> bool
    requires { Room coefficient.now monomial.now (16 * slot) (get_or terms.now slot 0) × (slot < length terms.now)
        × Room value.now powers.now 0 count }
    ensures { result ≡ same (terms_from value.now powers.now 0 count)
        (slot_of coefficient.now monomial.now terms.now slot) }
{
    if wide(terms[slot]) != count {
        return false;
    }
    same_terms(coefficient, monomial, value, powers, 16 * slot, count)
}

// The first slot with the polynomial that was read, or the number of slots.
pub fn find(
    coefficient: &[i32],
    monomial: &[u64],
    terms: &[u8],
    value: &[i32],
    powers: &[u64],
    known: usize,
    n: usize,
    count: usize,
) -> usize
    requires { TableRead coefficient.now monomial.now terms.now known n × Room value.now powers.now 0 count }
    ensures { result ≡ first_from (λ j. same (terms_from value.now powers.now 0 count)
        (slot_of coefficient.now monomial.now terms.now j)) 0 known }
{
    for j in 0..known {
        if same_slot(coefficient, monomial, terms, value, powers, j, count) {
            return j;
        }
    }
    known
}

// ---- one more

// The polynomial that was read, stored in a slot.
pub fn store(
    coefficient: &mut [i32],
    monomial: &mut [u64],
    terms: &mut [u8],
    value: &[i32],
    powers: &[u64],
    slot: usize,
    count: usize,
)
    requires { Room coefficient.old monomial.old (16 * slot) 16 × (slot < length terms.old) × (count ≤ 16)
        × Room value.now powers.now 0 count }
    ensures { (coefficient.new ≡ sets coefficient.old (16 * slot)
        (map (λ t. t.coefficient) (terms_from value.now powers.now 0 count)))
        × (monomial.new ≡ sets monomial.old (16 * slot)
        (map (λ t. t.monomial) (terms_from value.now powers.now 0 count)))
        × (terms.new ≡ set terms.old slot count) }
{
    for i in 0..count {
        let c = value[i];
        coefficient[16 * slot + i] = c;
        monomial[16 * slot + i] = powers[i];
    }
    terms[slot] = count as u8;
}

// ---- the texts of those that are known

// The position up to which the text agrees with that of the polynomial in a slot, its space behind it.
fn agreed_slot(
    text: &[u8],
    coefficient: &[i32],
    monomial: &[u64],
    terms: &[u8],
    at: usize,
    n: usize,
    slot: usize,
) -> usize
    requires { (at ≤ length text.now) × SlotWithin coefficient.now monomial.now terms.now n slot }
    ensures { result ≡ at + common (text_at n coefficient.now monomial.now terms.now slot)
        (drop at text.now) }
{
    let count = wide(terms[slot]);
    let mut known = [0u8; 7958];
    let end = put_polynomial(&mut known, coefficient, monomial, 0, n, 16 * slot, count);
    known[end] = 32;
    agreed(text, at, &known[..end + 1])
}

fn larger_of(a: usize, b: usize) -> usize
    ensures { result ≡ larger a b }
{
    if a < b { b } else { a }
}

// The position up to which the text agrees with any of them.
pub fn longest(
    text: &[u8],
    coefficient: &[i32],
    monomial: &[u64],
    terms: &[u8],
    at: usize,
    n: usize,
    known: usize,
) -> usize
    requires { (at ≤ length text.now) × TableRead coefficient.now monomial.now terms.now known n }
    ensures { result ≡ at + agreement (texts_from n coefficient.now monomial.now terms.now 0 known)
        (drop at text.now) }
{
    let mut best = at;
    for i in (0..known).rev() {
        let next = agreed_slot(text, coefficient, monomial, terms, at, n, i);
        best = larger_of(next, best);
    }
    best
}
