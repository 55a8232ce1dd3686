// Request #102, "Condition evaluator for the cab unit": a block and readings of 32 signed bits, permit or deny. Nothing is written.
// "A node is evaluated by evaluating its children. All children are evaluated, also after the result is known."

#![tactic(auto)]

ghost use Rattle.std.specs.Prelude.{List, ◌≡◌, ℕ, ◌<◌, ◌≤◌, ◌/◌, ◌%◌, length};
ghost use Rattle.rules.specs.Formula.{Node};
ghost use Rattle.rules.specs.Block.{NumberedAtom};
ghost use Rattle.rules.specs.Evaluate.{evaluate as evaluate_book, evaluation_number};
ghost use Rattle.evaluate.specs.Refusals.{number_of, by_number};
ghost use Rattle.evaluate.specs.declared.Refusal.TheVariants.{Block as BlockRefused};
ghost use Rattle.evaluate.specs.Entry.{evaluation_of, verdict_of, number_told, Stands, SomeStand};
ghost use Rattle.evaluate.specs.Tree.{joined as joined_of, behind_of, stored_at, TableRoom, AtomIs, SomeNode, HeldAt, NodeIs};

use arithmetic::{both, sign_in, value};
use block::{Contents, read_few_into, read_into};

// A token below this is an atom's: its polynomial's number times eight and its set. Any other is that of an AND or an OR.
const JOIN: u32 = 16777216;

// Whether all products and sums fit, and if they do, whether the atom holds.
#[derive(Clone, Copy)]
pub struct Truth {
    pub fits: bool,
    pub holds: bool,
}

// The same of a node, and the place after the node.
#[derive(Clone, Copy)]
pub struct Seen {
    pub next: usize,
    pub fits: bool,
    pub holds: bool,
}

// Where the polynomial of a slot ends: one without terms stands nowhere.
fn behind(from: usize, count: usize) -> usize
    requires { (from ≤ 1024) × (count ≤ 16) }
    ensures { result ≡ behind_of from count }
{
    if count == 0 { 0 } else { from + count }
}

// The atom of a token: its polynomial is evaluated, whatever its set.
fn atom(coefficient: &[i32], monomial: &[u64], terms: &[u8], readings: &[i32], token: u32) -> Truth
    requires { TableRoom coefficient.now monomial.now terms.now × (length readings.now ≤ 16) × (token < 512) }
    ensures { AtomIs readings.now (stored_at coefficient.now monomial.now terms.now (token / 8) (token % 8)) result }
{
    let number = (token / 8) as usize;
    let from = 16 * number;
    let count = terms[number] as usize;
    let to = behind(from, count);
    let total = value(coefficient, monomial, readings, from, to);
    Truth {
        fits: total.fits,
        holds: sign_in(total, token % 8),
    }
}

// What children have said so far, with one more: all of them under an AND, some of them under an OR.
#[tactic(auto, unfolding(crate::specs::Tree::joined))]
fn joined(all: bool, sofar: bool, child: bool) -> bool
    ensures { result ≡ joined_of all sofar child }
{
    if all { sofar && child } else { sofar || child }
}

// The node at a place of the tape; if it is an AND or an OR, it is of this kind (1 is AND, 2 is OR) and the nodes under it are of the other.
// It calls itself on each child; the nodes that remain get fewer.
fn node(
    coefficient: &[i32],
    monomial: &[u64],
    terms: &[u8],
    token: &[u32],
    readings: &[i32],
    at: usize,
    kind: u8,
) -> Seen
    requires { TableRoom coefficient.now monomial.now terms.now × (length readings.now ≤ 16) × SomeNode token.now kind at }
    ensures { (tree : Node NumberedAtom) → HeldAt token.now kind at tree
        → NodeIs coefficient.now monomial.now terms.now readings.now at tree result }
{
    let first = token[at];
    if first < JOIN {
        let truth = atom(coefficient, monomial, terms, readings, first);
        return Seen {
            next: at + 1,
            fits: truth.fits,
            holds: truth.holds,
        };
    }
    let children = first - JOIN;
    let all = kind == 1;
    let mut next = at + 1;
    let mut fits = true;
    let mut holds = all;
    for _ in 0..children {
        let child = node(
            coefficient,
            monomial,
            terms,
            token,
            readings,
            next,
            3 - kind,
        );
        next = child.next;
        fits = both(fits, child.fits);
        holds = joined(all, holds, child.holds);
    }
    Seen { next, fits, holds }
}

// "answers permit or deny"
#[derive(Clone, Copy, Debug, PartialEq, Eq)]
pub enum Verdict {
    Deny,
    Permit,
}

// Why it answers neither.
#[derive(Clone, Copy, Debug, PartialEq, Eq)]
pub enum Refusal {
    // the reader's: 2 to 15 and 21 to 23
    Block(block::Refusal),
    // 16: "the number of readings is not n"
    ReadingsCount,
    // 17: "overflow"
    Overflow,
}

impl Refusal {
    // The number that the documents give it.
    pub fn number(self) -> u8
        ensures { result ≡ number_of self }
    {
        match self {
            Refusal::Block(refusal) => refusal.number(),
            Refusal::ReadingsCount => 16,
            Refusal::Overflow => 17,
        }
    }
}

impl From<block::Refusal> for Refusal {
    ghost from_gives = { λ refusal given. given ≡ BlockRefused refusal };

    fn from(refusal: block::Refusal) -> Refusal {
        Refusal::Block(refusal)
    }
}

fn verdict_from(fits: bool, holds: bool) -> Result<Verdict, Refusal>
    ensures { result ≡ verdict_of fits holds }
{
    if !fits {
        return Err(Refusal::Overflow);
    }
    if holds {
        return Ok(Verdict::Permit);
    }
    Ok(Verdict::Deny)
}

// What was read, run on the readings.
fn run(
    coefficient: &[i32],
    monomial: &[u64],
    terms: &[u8],
    token: &[u32],
    readings: &[i32],
    contents: Result<Contents, block::Refusal>,
) -> Result<Verdict, Refusal>
    requires { SomeStand coefficient.now monomial.now terms.now token.now contents }
    ensures { (bytes : List ℕ) → Stands bytes coefficient.now monomial.now terms.now token.now contents
        → by_number result ≡ evaluation_of (evaluate_book bytes readings.now) }
{
    let held = contents?;
    if readings.len() != held.variables {
        return Err(Refusal::ReadingsCount);
    }
    let seen = node(coefficient, monomial, terms, token, readings, 0, held.root);
    verdict_from(seen.fits, seen.holds)
}

// Reads a block of any number of polynomials and runs it on the readings.
fn evaluate_any(input: &[u8], readings: &[i32]) -> Result<Verdict, Refusal>
    ensures { by_number result ≡ evaluation_of (evaluate_book input.now readings.now) }
{
    let mut coefficient = [0i32; 1024];
    let mut monomial = [0u64; 1024];
    let mut terms = [0u8; 64];
    let mut token = [0u32; 255];
    let contents = read_into(
        input,
        &mut coefficient,
        &mut monomial,
        &mut terms,
        &mut token,
    );
    run(&coefficient, &monomial, &terms, &token, readings, contents)
}

// Reads a block and runs it on the readings. Every input is answered or refused.
// Most blocks have few polynomials: for these the arrays, which are filled with zeros at each call, are a quarter as long.
pub fn evaluate(input: &[u8], readings: &[i32]) -> Result<Verdict, Refusal>
    ensures { by_number result ≡ evaluation_of (evaluate_book input.now readings.now) }
{
    let mut coefficient = [0i32; 256];
    let mut monomial = [0u64; 256];
    let mut terms = [0u8; 64];
    let mut token = [0u32; 255];
    let few = read_few_into(
        input,
        &mut coefficient,
        &mut monomial,
        &mut terms,
        &mut token,
    );
    match few {
        None => evaluate_any(input, readings),
        Some(contents) => run(&coefficient, &monomial, &terms, &token, readings, contents),
    }
}

// One number for each outcome: below 256 the refusal, 256 deny, 257 permit.
fn number_in(evaluation: Result<Verdict, Refusal>) -> u32
    ensures { result ≡ number_told (by_number evaluation) }
{
    match evaluation {
        Err(refusal) => refusal.number() as u32,
        Ok(Verdict::Deny) => 256,
        Ok(Verdict::Permit) => 257,
    }
}

// The entry for C, declared in `include/placardpan.h` and exported by crate evaluate_c.
pub fn placardpan_evaluate(input: &[u8], readings: &[i32]) -> u32
    ensures { result ≡ evaluation_number (evaluate_book input.now readings.now) }
{
    number_in(evaluate(input, readings))
}
