// The answer to a block that was read: its arrays made normal, simplified, collected and written; the verdict, the length and the counts.
// 01, "Refusal numbers": "An answer returns a verdict (formula, always, unsatisfiable) and a length".

#![tactic(auto)]

ghost use Rattle.std.specs.Prelude.{◌≡◌, List, ℕ, ◌≤◌, length};
ghost use Rattle.rules.specs.Signs.{bit};
ghost use Rattle.block.specs.Held.{held_by};
ghost use Rattle.answer.specs.Tapes.{plain_tokens as plain_tokens_of};
ghost use Rattle.answer.specs.Refusals.{number_of};
ghost use Rattle.answer.specs.declared.Refusal.TheVariants.{Block as BlockRefused};
ghost use Rattle.answer.specs.Answered.{verdict_from};
ghost use Rattle.answer.specs.Entry.{Accepted, AcceptedSome, Answers, TellsPlaces, CountsRounds};

use engines::{PLACE, PLAIN};
use forms::{normal_tokens, work};
use places::{give, tell};
use used::{atoms, collect, forms_used};
use writer::write;

// "one of the words FORMULA, ALWAYS, UNSATISFIABLE"
#[derive(Clone, Copy, Debug, PartialEq, Eq)]
pub enum Verdict {
    Formula,
    Always,
    Unsatisfiable,
}

// "atoms in, atoms out, polynomials in, polynomials out": polynomials in are the different non-constant normal forms that the given tree uses,
// polynomials out the new table's.
#[derive(Clone, Copy, Debug, PartialEq, Eq)]
pub struct Counts {
    pub atoms_in: usize,
    pub atoms_out: usize,
    pub polynomials_in: usize,
    pub polynomials_out: usize,
}

// "An answer returns a verdict (formula, always, unsatisfiable) and a length": that of the new block in bytes; and the counts.
#[derive(Clone, Copy, Debug, PartialEq, Eq)]
pub struct Answer {
    pub verdict: Verdict,
    pub length: usize,
    pub counts: Counts,
}

// Why there is no answer.
#[derive(Clone, Copy, Debug, PartialEq, Eq)]
pub enum Refusal {
    // 1: "lent output shorter than lent input"
    OutputShort,
    // 18: the slice for the places is shorter than 255, "tried directly after 1"
    PlacesShort,
    // the reader's
    Block(block::Refusal),
}

impl Refusal {
    // The number that the documents give it.
    pub fn number(self) -> u8
        ensures { result ≡ number_of self }
    {
        match self {
            Refusal::OutputShort => 1,
            Refusal::PlacesShort => 18,
            Refusal::Block(refusal) => refusal.number(),
        }
    }
}

impl From<block::Refusal> for Refusal {
    ghost from_gives = { λ refusal given. given ≡ BlockRefused refusal };

    fn from(refusal: block::Refusal) -> Refusal {
        Refusal::Block(refusal)
    }
}

// The answer, and the largest number of rounds so far, its runs counted (02, #108).
#[derive(Clone, Copy, Debug, PartialEq, Eq)]
pub struct WithRounds {
    pub answer: Result<Answer, Refusal>,
    pub rounds: usize,
}

// "ALWAYS is written as an AND with no children, UNSATISFIABLE as an OR with none": the kind of the root, and how many nodes there are.
fn verdict_of(root: u8, tokens: usize) -> Verdict
    ensures { result ≡ verdict_from root tokens }
{
    if tokens == 1 {
        if root == 1 {
            return Verdict::Always;
        }
        if root == 2 {
            return Verdict::Unsatisfiable;
        }
    }
    Verdict::Formula
}

// Drops the place that the level rules carry along in an atom's token; a node's token stays.
fn plain_tokens(token: &mut [u32], count: usize)
    requires { count ≤ length token.old }
    ensures { token.new ≡ plain_tokens_of count token.old }
{
    for i in 0..count {
        let t = token[i];
        if t < 16777216 {
            token[i] = t % 512;
        }
    }
}

// The mark of an engine, for the working table.
fn mark(plain: bool) -> u8
    ensures { result ≡ bit plain }
{
    if plain { PLAIN } else { 0 }
}

// The answer to what was read, in the edition of what was read and by the engine that is chosen, the places of its atoms in the lent slice, and the largest
// number of rounds so far. The arrays that hold what was read are filled anew with what is written.
pub fn answer_to(
    plain: bool,
    edition: u64,
    variables: usize,
    polynomials: usize,
    root: u8,
    count: usize,
    coefficient: &mut [i32],
    monomial: &mut [u64],
    terms: &mut [u8],
    token: &mut [u32],
    output: &mut [u8],
    places: &mut [u8],
    largest: usize,
) -> WithRounds
    requires { AcceptedSome edition (held_by variables polynomials root count coefficient.old monomial.old terms.old token.old) (length output.old)
        × (255 ≤ length places.old) }
    ensures { (bytes : List ℕ)
        → Accepted bytes edition (held_by variables polynomials root count coefficient.old monomial.old terms.old token.old)
        (length output.old) → Answers bytes output.old output.new result.answer
        × (TellsPlaces bytes places.old places.new × CountsRounds bytes largest result.rounds) }
{
    let mut form_coefficient = [0i32; 1280];
    let mut form_monomial = [0u64; 1280];
    let mut form_terms = [0u8; 81];
    form_terms[PLACE] = mark(plain);
    let mut number = [0u8; 64];
    let mut turned = [false; 64];
    work(
        coefficient,
        monomial,
        terms,
        polynomials,
        variables,
        &mut form_coefficient,
        &mut form_monomial,
        &mut form_terms,
        &mut number,
        &mut turned,
    );
    normal_tokens(token, count, &number, &turned);
    let atoms_in = atoms(token, count);
    let polynomials_in = forms_used(&form_monomial, &form_terms, token, count);
    give(token, count);
    let short = level::simplified(
        &form_coefficient,
        &form_monomial,
        &form_terms,
        variables,
        token,
        root,
        largest,
    );
    let new_root = short.tree.root;
    let row = short.tree.tokens;
    let new_count = row.count;
    let mut tape = row.token;
    tell(&tape, new_count, places);
    plain_tokens(&mut tape, new_count);
    let atoms_out = atoms(&tape, new_count);
    let new_polynomials = collect(
        &form_coefficient,
        &form_monomial,
        &form_terms,
        variables,
        &tape,
        new_count,
        coefficient,
        monomial,
        terms,
        token,
    );
    let verdict = verdict_of(new_root, new_count);
    let counts = Counts {
        atoms_in: atoms_in,
        atoms_out: atoms_out,
        polynomials_in: polynomials_in,
        polynomials_out: new_polynomials,
    };
    let length = write(
        edition,
        variables,
        new_polynomials,
        new_root,
        new_count,
        coefficient,
        monomial,
        terms,
        token,
        output,
    );
    let answer = Answer {
        verdict,
        length,
        counts,
    };
    WithRounds {
        answer: Ok(answer),
        rounds: short.rounds,
    }
}
