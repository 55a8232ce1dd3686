// 02, #106: a record for each atom of an AND of atoms, by value: kept, narrowed, merged into another, removed by others, or the whole is false.
// The book's `reasons` is what they tell (specs/Records: made).

#![tactic(auto)]

ghost use Rattle.std.specs.Prelude.{◌≡◌, List, [], ◌++◌, map, ℕ, ◌+◌, ◌%◌, ◌^◌, ◌<◌, ◌≤◌, eqb, length, take, drop, get_or, set as set_at};
ghost use Rattle.rules.specs.Polynomial.{Atom};
ghost use Rattle.rules.specs.Level.{plain};
ghost use Rattle.table.specs.Table.{Forms};
ghost use Rattle.round.specs.Views.{lent_table};
ghost use Rattle.tape.specs.Row.{Lists};
ghost use Rattle.tape.specs.Token.{slot, place, atom_of, atoms_in};
ghost use Rattle.leaving.specs.Enough.{AsksAll};
ghost use Rattle.fates.specs.Fated.{FatesOf};
ghost use Rattle.rules.specs.Reasons.{removed_by, places_of, clauses_from, implying, told_from, kept_or_narrowed, reason_at, reasons};
ghost use Rattle.reasons.specs.Records.{no_places, words_of, made, blank, Clauses, Tells};
ghost use Rattle.reasons.specs.Telling.{asking, first_place as first_place_of, is_first, Sifted, Explains, told, LowPlace};

use fates::{Fates, fate_of_all};
use leaving::{Question, leave_out};
use round::State;
use signs::SignSet;
use tape::rows::{Row, append, part};
use tape::tokens::{set_of, slot_of};

// A record: kind 1 kept, 2 narrowed, 3 merged, 4 removed, 5 the whole is false. Unused fields are 0; place p is bit p % 64 of word p / 64.
// kept: the kinds are numbers, no enum: C reads this record as it stands (crate why_c).
#[repr(C)]
#[derive(Clone, Copy)]
pub struct Reason {
    pub kind: u8,
    pub set: u8,
    pub place: u8,
    pub places: [u64; 4],
}

// What is told of a block: a refusal's number, or 0 and so many records.
// kept: no Result: the public contracts of the crates above name its fields, and theirs stay as they are.
#[derive(Clone, Copy)]
pub struct Found {
    pub records: [Reason; 255],
    pub count: usize,
    pub refusal: u8,
}

// ---- the record of an atom

fn place_of(token: u32) -> usize
    ensures { result ≡ place token }
{
    (token / 512 % 32768) as usize
}

// The place of the first token of a slot, else the one given.
fn first_place(list: Row, token: u32) -> usize
    requires { list.count ≤ length list.token }
    ensures { (l : List ℕ) → Lists list l → result ≡ first_place_of (slot token) l (place token) }
{
    let number = slot_of(token);
    for other in &list.token[..list.count] {
        if number == slot_of(*other) {
            return place_of(*other);
        }
    }
    place_of(token)
}

fn power(k: usize) -> u64
    requires { k < 64 }
    ensures { result ≡ 2 ^ k }
{
    1u64 << k
}

// A record that names the places of a list.
fn with_places(kind: u8, set: u8, named: Row) -> Reason
    requires { named.count ≤ length named.token }
    ensures { (l : List ℕ) → Lists named l → result ≡ record { kind = kind; set = set; place = 0; places = words_of (map place l) } }
{
    let mut words = [0u64; 4];
    for token in &named.token[..named.count] {
        let at = place_of(*token);
        if at < 256 {
            let word = words[at / 64];
            words[at / 64] = word | power(at % 64);
        }
    }
    Reason {
        kind,
        set,
        place: 0,
        places: words,
    }
}

fn without_places(kind: u8, set: u8, place: u8) -> Reason
    ensures { result ≡ record { kind = kind; set = set; place = place; places = no_places } }
{
    Reason {
        kind,
        set,
        place,
        places: [0; 4],
    }
}

// Kept with its own set, or narrowed.
fn staying(set: SignSet, own: SignSet) -> Reason
    ensures { result ≡ made (kept_or_narrowed (eqb set.0 own.0) set.0) }
{
    if set.0 == own.0 {
        return without_places(1, set.0, 0);
    }
    without_places(2, set.0, 0)
}

// The first tokens of one row, and those of another from an index on.
fn others_of(left: Row, kept: usize, list: Row, from: usize) -> Row
    requires { (kept ≤ left.count) × ((left.count ≤ length left.token) × ((kept ≤ from) × ((from ≤ list.count) × (list.count ≤ 64)))) }
    ensures { (k l : List ℕ) → Lists left k → Lists list l → Lists result (take kept k ++ drop from l) }
{
    let tokens = left.token;
    let before = part(&tokens, 0, kept);
    append(before, list, from, list.count)
}

// Removed by those of the others without which the rest does not say enough.
fn going(
    coefficient: &[i32],
    monomial: &[u64],
    terms: &[u8],
    variables: usize,
    state: State,
    others: Row,
    token: u32,
) -> Reason
    requires { let t = lent_table coefficient monomial terms variables in
        Forms t × AsksAll t (asking state token) others }
    ensures { let t = lent_table coefficient.entry monomial.entry terms.entry variables in
        let a = plain (atom_of t token) in
        ((l : List ℕ) → Lists others l → result ≡ made (removed_by (token % 8) (places_of (implying variables (atoms_in t l) a)))) }
{
    let question = Question {
        state,
        token,
        contradiction: false,
    };
    let named = leave_out(coefficient, monomial, terms, variables, question, others);
    with_places(4, set_of(token).0, named)
}

// Whether the atom is the next of those that stay.
fn is_next(left: Row, kept: usize, token: u32) -> bool
    requires { left.count ≤ length left.token }
    ensures { (l : List ℕ) → Lists left l → result ≡ is_first (place token) (drop kept l) }
{
    if kept < left.count {
        return place_of(token) == place_of(left.token[kept]);
    }
    false
}

// Step 5 up to the atom's place, and what is told of it there; a true constant, or one that is full after merging, is in no list any more.
fn told_at(
    coefficient: &[i32],
    monomial: &[u64],
    terms: &[u8],
    variables: usize,
    fates: Fates,
    token: u32,
) -> Reason
    requires { let t = lent_table coefficient monomial terms variables in
        Forms t × Sifted t fates.carried fates.left fates.state }
    ensures { let t = lent_table coefficient.entry monomial.entry terms.entry variables in
        ((l : List ℕ) → Lists fates.carried l → result ≡ made (reason_at (place token) (token % 8) (told_from variables [] (atoms_in t l)))) }
{
    let list = fates.carried;
    let left = fates.left;
    let state = fates.state;
    let own = place_of(token);
    let mut kept = 0;
    for i in 0..list.count {
        let other = list.token[i];
        let stays = is_next(left, kept, other);
        if own == place_of(other) {
            if stays {
                return staying(set_of(other), set_of(token));
            }
            let others = others_of(left, kept, list, i + 1);
            return going(
                coefficient,
                monomial,
                terms,
                variables,
                state,
                others,
                other,
            );
        }
        if stays {
            kept += 1;
        }
    }
    without_places(4, SignSet::FULL.0, 0)
}

// The record of one atom.
fn reason_for(
    coefficient: &[i32],
    monomial: &[u64],
    terms: &[u8],
    variables: usize,
    fates: Fates,
    token: u32,
) -> Reason
    requires { let t = lent_table coefficient monomial terms variables in
        Forms t × Explains t fates }
    ensures { let t = lent_table coefficient.entry monomial.entry terms.entry variables in
        ((l : List ℕ) (f : FatesOf t l fates) → LowPlace (told f (atom_of t token)) → result ≡ made (told f (atom_of t token))) }
{
    if fates.excluded {
        return with_places(5, 0, fates.carried);
    }
    let first = first_place(fates.joined, token);
    if first != place_of(token) {
        return without_places(3, 0, (first % 256) as u8);
    }
    told_at(coefficient, monomial, terms, variables, fates, token)
}

// ---- all records

// No record, and a refusal's number or 0.
pub fn refused(number: u8) -> Found
    ensures { (result.count ≡ 0) × ((result.refusal ≡ number) × (length result.records ≡ 255)) }
{
    let none = without_places(0, 0, 0);
    Found {
        records: [none; 255],
        count: 0,
        refusal: number,
    }
}

// One record more, at an index.
fn stored(found: Found, i: usize, reason: Reason) -> Found
    requires { i < 255 }
    ensures { (result.records ≡ set_at found.records i reason) × ((result.count ≡ i + 1) × (result.refusal ≡ found.refusal)) }
{
    let mut more = found;
    more.records[i] = reason;
    more.count = i + 1;
    more
}

// The records of all atoms.
pub fn tell_all(
    coefficient: &[i32],
    monomial: &[u64],
    terms: &[u8],
    variables: usize,
    given: Row,
) -> Found
    requires { let t = lent_table coefficient monomial terms variables in
        Forms t × Clauses t given }
    ensures { let t = lent_table coefficient.entry monomial.entry terms.entry variables in
        ((atoms : List Atom) (l : List ℕ) → Lists given l → atoms_in t l ≡ clauses_from 0 atoms → Tells result (reasons variables atoms)) }
{
    let fates = fate_of_all(coefficient, monomial, terms, variables, given);
    let mut found = refused(0);
    for i in 0..given.count {
        let reason = reason_for(
            coefficient,
            monomial,
            terms,
            variables,
            fates,
            given.token[i],
        );
        found = stored(found, i, reason);
    }
    found
}

// The record at an index.
pub fn record(found: Found, i: usize) -> Reason
    requires { i < 255 }
    ensures { result ≡ get_or found.records i blank }
{
    found.records[i]
}
