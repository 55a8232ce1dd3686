// The state that the rounds over a list settled in, 01 "Rounds": what it says of a polynomial, and the sets that the list's atoms then carry.
// The table of forms is lent as three slices.

#![tactic(auto)]

ghost use Rattle.std.specs.Prelude.{◌≡◌, ◌<◌, ◌≤◌, length};
ghost use Rattle.std.proofs.Math.Option.{none};
ghost use Rattle.rules.specs.Signs.{inside};
ghost use Rattle.rules.specs.Rounds.{held as held_of, says_in, carried as carried_of};
ghost use Rattle.removal_laws.specs.Settled.{Settled};
ghost use Rattle.terms.specs.View.{sets_of};
ghost use Rattle.table.specs.Table.{Table, Forms, form_at, atoms_of};
ghost use Rattle.round.specs.Views.{lent_table, variable_of, Below, state_of};
ghost use Rattle.round.specs.Signing.{SignedSlot, SignedTable, Ready};
ghost use Rattle.search.specs.Words.{Words};
ghost use Rattle.rounds.specs.Run.{NonVariable};
ghost use Rattle.settled.specs.Carried.{Carried, carried_set, carried_next};
ghost use Rattle.settled.specs.Others.{OtherThan, PairsMatter, says_before_pairs as says_before_pairs_of};

use crate::others::{cut_by_others, lies_inside, other_than};
use round::State;
use round::list::{listed, many};
use round::round::cut_by;
use round::slots::{Holds, places, which};
use search::words::words_of;
use signs::SignSet;
use table::Atoms;
use terms::{Board, by_terms};

pub mod removal; // which of its atoms the others imply
mod others; // what pairs of the other atoms say of a polynomial
mod staying; // which atoms stay whatever else is removed

// ---- what a list says of a polynomial

// The set that a state holds for the polynomial in slot number: the variable's, or that of its atom, or the full set.
fn held(state: State, holds: Holds, number: usize) -> SignSet
    requires { (number < 64) × ((state.board.variables ≤ 16) × Below state.board.variables holds) }
    ensures { (t : Table) → Forms t → result.0 ≡ held_of (variable_of holds) (state_of t state) (form_at t number) }
{
    let board = state.board;
    let atoms = state.atoms;
    match holds {
        Holds::Form => listed(atoms, number),
        Holds::Variable(i) => {
            let set = board.sets[i];
            SignSet(set)
        }
    }
}

// What a state says of the polynomial in slot number before the pairs of atoms are asked, where only the signs that this takes are worked out.
fn says_before_pairs(
    coefficient: &[i32],
    monomial: &[u64],
    terms: &[u8],
    sign: &[u8],
    variables: usize,
    state: State,
    number: usize,
) -> SignSet
    requires ready { let t = lent_table coefficient monomial terms variables in
        Ready t (sets_of state.board) state.atoms sign.now × ((state.board.variables ≡ variables) × (number < 64)) }
    requires signed_slot { SignedSlot (lent_table coefficient monomial terms variables) (sets_of state.board) sign.now number }
    ensures { let t = lent_table coefficient.entry monomial.entry terms.entry variables in
        result.0 ≡ says_before_pairs_of variables (state_of t state) (form_at t number) }
{
    let board = state.board;
    let atoms = state.atoms;
    let end = many(atoms.count);
    let holds = which(coefficient, monomial, terms, variables, number);
    let run = places(terms, number);
    let by = by_terms(coefficient, sign, run.from, run.to);
    let own = held(state, holds, number).intersect(by);
    cut_by(
        coefficient,
        monomial,
        terms,
        sign,
        board,
        atoms,
        0,
        end,
        number,
        own,
    )
}

// Whether pairs of the others can say more of a polynomial than a settled state holds of it already: not of a variable, nor if it is listed.
fn pairs_matter(
    coefficient: &[i32],
    monomial: &[u64],
    terms: &[u8],
    variables: usize,
    state: State,
    others: Atoms,
    number: usize,
) -> bool
    requires { Forms (lent_table coefficient monomial terms variables) × ((number < 64) × OtherThan state.atoms number others) }
    ensures { let t = lent_table coefficient.entry monomial.entry terms.entry variables in
        PairsMatter t state number result }
{
    let atoms = state.atoms;
    let end = many(atoms.count);
    let holds = which(coefficient, monomial, terms, variables, number);
    match holds {
        Holds::Variable(i) => false,
        Holds::Form => {
            if others.count < end {
                return false;
            }
            true
        }
    }
}

// What a settled state says of the polynomial in slot number, where the signs of all slots are worked out for its board, and the words of its atoms
// by these.
pub fn says(
    coefficient: &[i32],
    monomial: &[u64],
    terms: &[u8],
    sign: &[u8],
    masks: &[u64],
    columns: &[u64],
    falls: bool,
    variables: usize,
    state: State,
    number: usize,
) -> SignSet
    requires forms { Forms (lent_table coefficient monomial terms variables) × ((state.board.variables ≡ variables) × (number < 64)) }
    requires fact { let t = lent_table coefficient monomial terms variables in
        (length sign.now ≡ 1280) × (SignedTable t (sets_of state.board) sign.now × Settled variables (state_of t state)) }
    requires words { Words coefficient.now monomial.now terms.now sign.now state.atoms masks.now columns.now falls }
    ensures { let t = lent_table coefficient.entry monomial.entry terms.entry variables in
        result.0 ≡ says_in variables (state_of t state) (form_at t number) }
{
    let board = state.board;
    let atoms = state.atoms;
    let said = says_before_pairs(coefficient, monomial, terms, sign, variables, state, number);
    let others = other_than(atoms, number);
    if pairs_matter(
        coefficient,
        monomial,
        terms,
        variables,
        state,
        others,
        number,
    ) {
        return cut_by_others(
            coefficient,
            monomial,
            terms,
            sign,
            masks,
            columns,
            falls,
            variables,
            board,
            atoms,
            number,
            said,
        );
    }
    said
}

// Whether what a settled state says of the polynomial in slot number lies inside a set, where only the signs that this takes are worked out.
// The words of its atoms are worked out only where pairs have to be asked.
pub fn says_inside(
    coefficient: &[i32],
    monomial: &[u64],
    terms: &[u8],
    sign: &[u8],
    variables: usize,
    state: State,
    number: usize,
    bound: SignSet,
) -> bool
    requires ready { let t = lent_table coefficient monomial terms variables in
        Ready t (sets_of state.board) state.atoms sign.now × ((state.board.variables ≡ variables) × (number < 64)) }
    requires signed_settled { let t = lent_table coefficient monomial terms variables in
        SignedSlot t (sets_of state.board) sign.now number × Settled variables (state_of t state) }
    ensures { let t = lent_table coefficient.entry monomial.entry terms.entry variables in
        result ≡ inside (says_in variables (state_of t state) (form_at t number)) bound.0 }
{
    let board = state.board;
    let atoms = state.atoms;
    let said = says_before_pairs(coefficient, monomial, terms, sign, variables, state, number);
    if said.inside(bound) {
        return true;
    }
    let others = other_than(atoms, number);
    if pairs_matter(
        coefficient,
        monomial,
        terms,
        variables,
        state,
        others,
        number,
    ) {
        let mut masks = [0u64; 128];
        let mut columns = [0u64; 130];
        let falls = words_of(
            coefficient,
            monomial,
            terms,
            sign,
            atoms,
            &mut masks,
            &mut columns,
        );
        return lies_inside(
            coefficient,
            monomial,
            terms,
            sign,
            &masks,
            &columns,
            falls,
            variables,
            board,
            atoms,
            number,
            said,
            bound,
        );
    }
    false
}

// ---- the sets that the atoms of a list carry after its rounds

// The set that one atom carries, and the index of the next atom that is no variable's.
#[derive(Clone, Copy)]
struct Carry {
    pub set: u8,
    pub next: usize,
}

fn carried_one(board: Board, atoms: Atoms, holds: Holds, next: usize) -> Carry
    requires { (board.variables ≤ 16) × (Below board.variables holds × (variable_of holds ≡ none → next < 64)) }
    ensures { (result.set ≡ carried_set (variable_of holds) (sets_of board) atoms.set next) × (result.next ≡ carried_next (variable_of holds) next) }
{
    match holds {
        Holds::Form => {
            let set = atoms.set[next];
            Carry {
                set,
                next: next + 1,
            }
        }
        Holds::Variable(i) => {
            let set = board.sets[i];
            Carry { set, next }
        }
    }
}

// The atoms of the list with the sets that the rounds left: a variable's from the board, the others theirs, in order.
pub fn carried(
    coefficient: &[i32],
    monomial: &[u64],
    terms: &[u8],
    variables: usize,
    list: Atoms,
    state: State,
) -> Atoms
    requires { let t = lent_table coefficient monomial terms variables in
        Forms t × ((state.board.variables ≡ variables) × NonVariable t list state.atoms) }
    ensures { let t = lent_table coefficient.entry monomial.entry terms.entry variables in
        Carried t list (carried_of variables (sets_of state.board) (atoms_of t list) (atoms_of t state.atoms)) result }
{
    let board = state.board;
    let atoms = state.atoms;
    let end = many(list.count);
    let mut carried = list;
    let mut next = 0;
    for i in 0..end {
        let number = list.number[i];
        let k = (number % 64) as usize;
        let holds = which(coefficient, monomial, terms, variables, k);
        let one = carried_one(board, atoms, holds, next);
        carried.set[i] = one.set;
        next = one.next;
    }
    carried
}
