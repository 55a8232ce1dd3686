// 02, #106: "go through them in order, and leave out each without which the rest still says enough".
// Enough is monotone, so the longest beginning that goes is searched for by steps that double and halve.

#![tactic(auto)]

ghost use Rattle.std.specs.Prelude.{◌≡◌, List, ◌++◌, ℕ, ◌+◌, ◌<◌, ◌≤◌, take, drop};
ghost use Rattle.rules.specs.Rounds.{run as run_of};
ghost use Rattle.rules.specs.Level.{plain, plains, implied};
ghost use Rattle.table.specs.Table.{Forms};
ghost use Rattle.round.specs.Views.{lent_table};
ghost use Rattle.tape.specs.Row.{Lists};
ghost use Rattle.tape.specs.Token.{atom_of, atoms_in as atoms_in_of};
ghost use Rattle.rules.specs.Reasons.{has_contradiction};
ghost use Rattle.leaving.specs.Enough.{enough_for, Holding, Carrying, Asks, AsksEnough, AsksAll, LastEnough, LeavesOut};

use ahead::no_order;
use round::State;
use round::slots::sign_table;
use rounds::narrow::afresh;
use rounds::run;
use settled::says_inside;
use steps::tidying::atoms_in;
use tape::rows::{Row, append, empty, push};
use tape::tokens::{set_of, slot_of};

// What the atoms are to be enough for: a contradiction, or that what they say of an atom lies inside its set, where they carry the sets of a state.
// kept: a flag beside values, no enum: the public contracts (specs/Enough, and those of reasons) name its fields, and stay as they are.
#[derive(Clone, Copy)]
pub struct Question {
    pub state: State,
    pub token: u32,
    pub contradiction: bool,
}

// Whether the rounds over these atoms find a contradiction.
fn excludes(
    coefficient: &[i32],
    monomial: &[u64],
    terms: &[u8],
    variables: usize,
    list: Row,
) -> bool
    requires { let t = lent_table coefficient monomial terms variables in
        Forms t × Holding list }
    ensures { let t = lent_table coefficient.entry monomial.entry terms.entry variables in
        ((l : List ℕ) → Lists list l → result ≡ has_contradiction (run_of variables (plains (atoms_in_of t l)))) }
{
    let tokens = list.token;
    let atoms = atoms_in(&tokens, list.count);
    let ran = run(coefficient, monomial, terms, variables, atoms);
    ran.contradiction
}

// Whether what they say of the token's atom, rounds run afresh, lies inside its set.
fn implies(
    coefficient: &[i32],
    monomial: &[u64],
    terms: &[u8],
    variables: usize,
    list: Row,
    state: State,
    token: u32,
) -> bool
    requires { let t = lent_table coefficient monomial terms variables in
        Forms t × Carrying t state list }
    ensures { let t = lent_table coefficient.entry monomial.entry terms.entry variables in
        ((l : List ℕ) → Lists list l → result ≡ implied variables (plains (atoms_in_of t l)) (plain (atom_of t token))) }
{
    let tokens = list.token;
    let atoms = atoms_in(&tokens, list.count);
    let fresh = afresh(
        coefficient,
        monomial,
        terms,
        variables,
        atoms,
        state,
        no_order(),
    );
    let ran = fresh.ran;
    if ran.contradiction {
        return true;
    }
    let left = ran.state;
    let board = left.board;
    let mut sign = [0u8; 1280];
    sign_table(board, monomial, terms, &mut sign);
    says_inside(
        coefficient,
        monomial,
        terms,
        &sign,
        variables,
        left,
        slot_of(token),
        set_of(token),
    )
}

// Whether the kept atoms and those of the list from an index on are enough.
fn enough(
    coefficient: &[i32],
    monomial: &[u64],
    terms: &[u8],
    variables: usize,
    question: Question,
    kept: Row,
    list: Row,
    from: usize,
) -> bool
    requires { let t = lent_table coefficient monomial terms variables in
        Forms t × Asks t question kept list from }
    ensures { let t = lent_table coefficient.entry monomial.entry terms.entry variables in
        ((k l : List ℕ) → Lists kept k → Lists list l → result ≡ enough_for t question (k ++ drop from l)) }
{
    let others = append(kept, list, from, list.count);
    let state = question.state;
    if question.contradiction {
        return excludes(coefficient, monomial, terms, variables, others);
    }
    implies(
        coefficient,
        monomial,
        terms,
        variables,
        others,
        state,
        question.token,
    )
}

// An index above the low one and below the high one, by so much or halfway.
fn between(low: usize, high: usize, step: usize) -> usize
    requires { (low + 1 < high) × (0 < step) }
    ensures { (low < result) × (result < high) }
{
    let half = (high - low) / 2;
    if step < half {
        return low + step;
    }
    low + half
}

// The last index from which on the list is still enough beside the kept atoms.
fn last_enough(
    coefficient: &[i32],
    monomial: &[u64],
    terms: &[u8],
    variables: usize,
    question: Question,
    kept: Row,
    list: Row,
    from: usize,
) -> usize
    requires { let t = lent_table coefficient monomial terms variables in
        Forms t × AsksEnough t question kept list from }
    ensures { let t = lent_table coefficient.entry monomial.entry terms.entry variables in
        ((k l : List ℕ) → Lists kept k → Lists list l → LastEnough t question k l from result) }
{
    let mut low = from;
    let mut high = list.count + 1;
    let mut step = 1;
    while low + 1 < high {
        let middle = between(low, high, step);
        if enough(
            coefficient,
            monomial,
            terms,
            variables,
            question,
            kept,
            list,
            middle,
        ) {
            step = 2 * (middle - low);
            low = middle;
        } else {
            high = middle;
        }
    }
    low
}

// The kept tokens and the one at the index of the list, if there is one.
fn with_one(kept: Row, list: Row, at: usize) -> Row
    requires { (kept.count ≤ 64) × (list.count ≤ 64) }
    ensures { (k l : List ℕ) → Lists kept k → Lists list l → Lists result (k ++ take 1 (drop at l)) }
{
    if at < list.count {
        let token = list.token[at];
        return push(kept, token);
    }
    kept
}

// Those of the list that are left, where all of it is enough.
pub fn leave_out(
    coefficient: &[i32],
    monomial: &[u64],
    terms: &[u8],
    variables: usize,
    question: Question,
    list: Row,
) -> Row
    requires { let t = lent_table coefficient monomial terms variables in
        Forms t × AsksAll t question list }
    ensures { let t = lent_table coefficient.entry monomial.entry terms.entry variables in
        ((l : List ℕ) → Lists list l → LeavesOut t question l result) }
{
    let end = list.count;
    let mut kept = empty();
    let mut i = 0;
    // kept: the step is not one: the walk goes on behind the token that is kept.
    while i < end {
        let at = last_enough(
            coefficient,
            monomial,
            terms,
            variables,
            question,
            kept,
            list,
            i,
        );
        kept = with_one(kept, list, at);
        i = at + 1;
    }
    kept
}
