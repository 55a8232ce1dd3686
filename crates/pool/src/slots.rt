// One slot of a pool, 34 words: the row of marks, the number of terms, 16 coefficients, 16 monomials.
// A form is lent as a run of places of the working table's arrays.
ghost use Rattle.std.specs.Prelude.{◌≡◌, ◌&&◌, ◌+◌, ◌*◌, ◌≤◌, ◌<◌, eqb, length, get_or};
ghost use Rattle.rules.specs.Polynomial.{same_number, same};
ghost use Rattle.rules.specs.Pool.{is_free as is_free_of, stores as stores_in};
ghost use Rattle.pool_laws.specs.Places.{first_place, place_for as place_for_of, used_slots};
ghost use Rattle.terms.specs.View.{few, terms_from};
ghost use Rattle.pool.specs.Coefficients.{coefficient_of};
ghost use Rattle.pool.specs.Words.{terms_in, slot_place, slot_at, slots_of, put_term as put_term_of, put_terms as put_terms_of, listed_words, zeros, unlisted};
ghost use Rattle.pool.specs.Run.{Run, SlotIs};

use crate::words::{coefficient_word, with_mark, word};

// Whether no block lists the slot's form.
pub fn is_free(pool: &[u64], slot: usize) -> bool
    requires { slot < 128 }
    ensures { result ≡ is_free_of (slot_at pool.now (slot_place slot)) }
{
    word(pool, 2 + 34 * slot) % 4294967296 == 0
}

// How many terms the slot's form has: sixteen at most, whatever the word says.
pub fn terms_of(pool: &[u64], slot: usize) -> usize
    requires { slot < 128 }
    ensures { result ≡ few (get_or pool.now (slot_place slot + 1) 0) }
{
    let count = word(pool, 3 + 34 * slot);
    if count < 16 {
        return count as usize;
    }
    16
}

// Whether the term at a place of the pool is the one lent.
fn same_term(pool: &[u64], k: usize, coefficient: i32, monomial: u64) -> bool
    requires { k < 4354 }
    ensures { result ≡ (eqb monomial (get_or pool.now (k + 16) 0) && same_number coefficient (coefficient_of (get_or pool.now k 0))) }
{
    if monomial != word(pool, k + 16) {
        return false;
    }
    word(pool, k) == coefficient_word(coefficient)
}

// Whether the terms from a place of the pool on are the lent ones.
fn same_terms(
    pool: &[u64],
    k: usize,
    coefficient: &[i32],
    monomial: &[u64],
    from: usize,
    count: usize,
) -> bool
    requires { (k + 16 ≤ 4354) × Run coefficient.now monomial.now from count }
    ensures { result ≡ same (terms_from coefficient.now monomial.now from count) (terms_in pool.now k count) }
{
    for i in 0..count {
        let c = coefficient[from + i];
        if !same_term(pool, k + i, c, monomial[from + i]) {
            return false;
        }
    }
    true
}

// Whether a slot in use has the form.
fn stores(
    pool: &[u64],
    slot: usize,
    coefficient: &[i32],
    monomial: &[u64],
    from: usize,
    count: usize,
) -> bool
    requires { (slot < 128) × Run coefficient.now monomial.now from count }
    ensures { result ≡ stores_in (terms_from coefficient.now monomial.now from count) (slot_at pool.now (slot_place slot)) }
{
    if is_free(pool, slot) {
        return false;
    }
    if terms_of(pool, slot) != count {
        return false;
    }
    same_terms(pool, 4 + 34 * slot, coefficient, monomial, from, count)
}

// The slot that has the form. To the book a form that no slot has is at place 128.
pub fn find(
    pool: &[u64],
    coefficient: &[i32],
    monomial: &[u64],
    from: usize,
    count: usize,
) -> Option<usize>
    requires { Run coefficient.now monomial.now from count }
    ensures { SlotIs result (first_place (stores_in (terms_from coefficient.now monomial.now from count)) (slots_of pool.now)) }
{
    for slot in 0..128 {
        if stores(pool, slot, coefficient, monomial, from, count) {
            return Some(slot);
        }
    }
    None
}

// The first free slot.
fn first_free(pool: &[u64]) -> Option<usize>
    ensures { SlotIs result (first_place is_free_of (slots_of pool.now)) }
{
    for slot in 0..128 {
        if is_free(pool, slot) {
            return Some(slot);
        }
    }
    None
}

// How many slots are in use.
pub fn used(pool: &[u64]) -> usize
    ensures { (result ≡ used_slots (slots_of pool.now)) × (result ≤ 128) }
{
    let mut total = 0;
    for slot in 0..128 {
        if !is_free(pool, slot) {
            total += 1;
        }
    }
    total
}

// The place that a form goes to: where it is stored, else the first free slot.
fn place_for(
    pool: &[u64],
    coefficient: &[i32],
    monomial: &[u64],
    from: usize,
    count: usize,
) -> Option<usize>
    requires { Run coefficient.now monomial.now from count }
    ensures { SlotIs result (place_for_of (terms_from coefficient.now monomial.now from count) (slots_of pool.now)) }
{
    match find(pool, coefficient, monomial, from, count) {
        Some(slot) => Some(slot),
        None => first_free(pool),
    }
}

// Stores a term at a place of the pool.
fn put_term(pool: &mut [u64], k: usize, coefficient: u64, monomial: u64)
    requires { k + 16 < length pool.old }
    ensures { pool.new ≡ put_term_of pool.old k coefficient monomial }
{
    pool[k] = coefficient;
    pool[k + 16] = monomial;
}

// Stores a form's terms from a place on, and zeros behind them, sixteen places in all.
fn put_terms(
    pool: &mut [u64],
    k: usize,
    coefficient: &[i32],
    monomial: &[u64],
    from: usize,
    count: usize,
)
    requires { (k + 32 ≤ length pool.old) × Run coefficient.now monomial.now from count }
    ensures { pool.new ≡ put_terms_of pool.old k (terms_from coefficient.now monomial.now from count) 16 }
{
    for i in 0..count {
        let c = coefficient[from + i];
        put_term(pool, k + i, coefficient_word(c), monomial[from + i]);
    }
    for i in count..16 {
        put_term(pool, k + i, 0, 0);
    }
}

// A form listed for one number more: marked where it is stored, or stored in the first free slot.
pub fn list_form(
    pool: &mut [u64],
    number: usize,
    coefficient: &[i32],
    monomial: &[u64],
    from: usize,
    count: usize,
)
    requires { (4354 ≤ length pool.old) × (number < 32) × Run coefficient.now monomial.now from count }
    ensures { pool.new ≡ listed_words number pool.old (terms_from coefficient.now monomial.now from count) }
{
    if let Some(slot) = place_for(pool, coefficient, monomial, from, count) {
        let at = 2 + 34 * slot;
        pool[at] = with_mark(pool[at], number, true);
        pool[at + 1] = count as u64;
        put_terms(pool, at + 2, coefficient, monomial, from, count);
    }
}

// The slot at a place is cleared.
fn clear(pool: &mut [u64], at: usize)
    requires { at + 34 ≤ length pool.old }
    ensures { pool.new ≡ zeros pool.old at 34 }
{
    pool[at..at + 34].fill(0);
}

// The mark of a number taken away from the slot at a place; a slot without a mark left is cleared.
pub fn unlist(pool: &mut [u64], at: usize, number: usize)
    requires { (at + 34 ≤ length pool.old) × (number < 32) }
    ensures { pool.new ≡ unlisted number pool.old at }
{
    let row = with_mark(pool[at], number, false);
    if row == 0 {
        clear(pool, at);
        return;
    }
    pool[at] = row;
}
