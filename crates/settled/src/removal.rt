// 01, "A level", step 5: the atoms of a list that the other remaining ones imply are removed, from the first to the last.
// An atom that stays by the settled state stays without rounds; for any other, rounds are run afresh over the others, from the sets that they carry.
ghost use Rattle.std.specs.Prelude.{◌≡◌, not, ◌&&◌, List, [], ◌<◌, max};
ghost use Rattle.rules.specs.Polynomial.{Atom};
ghost use Rattle.rules.specs.Level.{Placed, plains, implied as implied_of, remove_implied as remove_implied_of};
ghost use Rattle.rules.specs.Count.{removal_count};
ghost use Rattle.removal_laws.specs.Staying.{stays_by, remove_faster};
ghost use Rattle.count_laws.specs.Removal.{count_faster};
ghost use Rattle.terms.specs.View.{sets_of};
ghost use Rattle.table.specs.Table.{Forms, form_at, atoms_of};
ghost use Rattle.round.specs.Views.{lent_table, state_of};
ghost use Rattle.round.specs.Signing.{SignedSlot, Ready};
ghost use Rattle.search.specs.Words.{Words};
ghost use Rattle.rounds.specs.Afresh.{AfreshFrom};
ghost use Rattle.settled.specs.Remaining.{CarriedFrom, KeptUnless, RemainingOf};

use crate::says_inside;
use crate::staying::stays;
use ahead::{Order, no_order};
use common_run::counting::{Counting, counted};
use common_run::run::unknown;
use round::State;
use round::list::{joined, many, push};
use round::slots::{sign_list, sign_slot};
use rounds::counting::fresh_rounds;
use rounds::narrow::afresh;
use search::words::words_of;
use signs::SignSet;
use table::Atoms;

// The atoms of a list that remain, and which of its indices they had.
#[derive(Clone, Copy)]
pub struct Remaining {
    pub atoms: Atoms,
    pub keep: [bool; 64],
}

// What remains of a list after step 5, and the largest number of rounds so far, its fresh runs counted.
#[derive(Clone, Copy)]
pub struct Removed {
    pub remaining: Remaining,
    pub rounds: usize,
}

// Whether an atom is implied or goes, and the order of turns that is worth trying for the next one.
#[derive(Clone, Copy)]
struct Told {
    yes: bool,
    order: Order,
}

// Whether what the other atoms say of the polynomial in slot number, after rounds of their own, lies inside the set.
fn implied(
    coefficient: &[i32],
    monomial: &[u64],
    terms: &[u8],
    variables: usize,
    others: Atoms,
    settled: State,
    order: Order,
    number: usize,
    set: SignSet,
) -> Told
    requires { let t = lent_table coefficient monomial terms variables in
        Forms t × ((number < 64) × AfreshFrom t settled (atoms_of t others)) }
    ensures { let t = lent_table coefficient.entry monomial.entry terms.entry variables in
        result.yes ≡ implied_of variables (atoms_of t others) (record { polynomial = form_at t number; set = set.0 }) }
{
    let fresh = afresh(
        coefficient,
        monomial,
        terms,
        variables,
        others,
        settled,
        order,
    );
    let turns = fresh.order;
    let ran = fresh.ran;
    if ran.contradiction {
        return Told {
            yes: SignSet::EMPTY.inside(set),
            order: turns,
        };
    }
    let state = ran.state;
    let board = state.board;
    let atoms = state.atoms;
    let mut sign = [0u8; 1280];
    sign_list(board, monomial, terms, atoms, &mut sign);
    sign_slot(board, monomial, terms, &mut sign, number);
    let yes = says_inside(
        coefficient,
        monomial,
        terms,
        &sign,
        variables,
        state,
        number,
        set,
    );
    Told { yes, order: turns }
}

// Whether the atom is removed: the rounds over the others are run only if the settled state leaves it open.
fn goes(
    coefficient: &[i32],
    monomial: &[u64],
    terms: &[u8],
    sign: &[u8],
    masks: &[u64],
    columns: &[u64],
    falls: bool,
    variables: usize,
    state: State,
    others: Atoms,
    order: Order,
    number: usize,
    set: SignSet,
) -> Told
    requires ready { let t = lent_table coefficient monomial terms variables in
        Ready t (sets_of state.board) state.atoms sign.now × ((state.board.variables ≡ variables) × (number < 64)) }
    requires signed_afresh { let t = lent_table coefficient monomial terms variables in
        SignedSlot t (sets_of state.board) sign.now number × AfreshFrom t state (atoms_of t others) }
    requires words { Words coefficient.now monomial.now terms.now sign.now state.atoms masks.now columns.now falls }
    ensures { let t = lent_table coefficient.entry monomial.entry terms.entry variables in
        let a : Atom = record { polynomial = form_at t number; set = set.0 } in
        result.yes ≡ not (stays_by variables (state_of t state) a) && implied_of variables (atoms_of t others) a }
{
    if stays(
        coefficient,
        monomial,
        terms,
        sign,
        masks,
        columns,
        falls,
        variables,
        state,
        number,
        set,
    ) {
        return Told { yes: false, order };
    }
    implied(
        coefficient,
        monomial,
        terms,
        variables,
        others,
        state,
        order,
        number,
        set,
    )
}

// The atom at index i of the list remains, unless it is implied.
fn kept_unless(out: bool, kept: Remaining, list: Atoms, i: usize) -> Remaining
    requires { (i < 64) × (kept.atoms.count < 64) }
    ensures { KeptUnless out kept list i result }
{
    let number = list.number[i];
    let set = list.set[i];
    let mut next = kept;
    next.keep[i] = !out;
    if out {
        return next;
    }
    let atoms = kept.atoms;
    let more = push(atoms, number, set);
    next.atoms = more;
    next
}

// Step 5 with the test first, where the signs of the state's atoms and of the list's are worked out for the state's board, and the words of the
// state's atoms by these. A common run counts the fresh ones, or each is counted by itself.
fn remove(
    coefficient: &[i32],
    monomial: &[u64],
    terms: &[u8],
    sign: &[u8],
    masks: &[u64],
    columns: &[u64],
    falls: bool,
    variables: usize,
    list: Atoms,
    state: State,
    largest: usize,
    by_common: bool,
) -> Removed
    requires ready_carried { let t = lent_table coefficient monomial terms variables in
        Ready t (sets_of state.board) state.atoms sign.now × CarriedFrom t state (atoms_of t list) }
    requires list_ready { let t = lent_table coefficient monomial terms variables in
        Ready t (sets_of state.board) list sign.now }
    requires words { Words coefficient.now monomial.now terms.now sign.now state.atoms masks.now columns.now falls }
    ensures { let t = lent_table coefficient.entry monomial.entry terms.entry variables in
        RemainingOf t list (remove_faster variables (state_of t state) []) result.remaining
        × (result.rounds ≡ max largest (count_faster variables (state_of t state) [] (atoms_of t list))) }
{
    let end = many(list.count);
    let mut kept = Remaining {
        atoms: Atoms {
            count: 0,
            number: [0; 64],
            set: [0; 64],
        },
        keep: [false; 64],
    };
    let mut order = no_order();
    let mut counting = Counting {
        rounds: largest,
        common: unknown(),
    };
    for i in 0..end {
        let number = list.number[i];
        let set = list.set[i];
        let k = (number % 64) as usize;
        let atoms = kept.atoms;
        let others = joined(atoms, list, i + 1);
        let told = goes(
            coefficient,
            monomial,
            terms,
            sign,
            masks,
            columns,
            falls,
            variables,
            state,
            others,
            order,
            k,
            SignSet(set),
        );
        let out = told.yes;
        order = told.order;
        if by_common {
            counting = counted(
                coefficient,
                monomial,
                terms,
                variables,
                kept.atoms,
                list,
                i,
                others,
                state,
                counting,
                out,
            );
        } else {
            counting.rounds = fresh_rounds(
                coefficient,
                monomial,
                terms,
                variables,
                others,
                state,
                counting.rounds,
            );
        }
        kept = kept_unless(out, kept, list, i);
    }
    Removed {
        remaining: kept,
        rounds: counting.rounds,
    }
}

// The list is the one that step 3 left, with the sets that its atoms carry from the state that its rounds settled in. A fresh run over n variables and k
// atoms takes at most 2(n + k) + 1 rounds: where that is no more than the largest number so far for all of them, none is counted.
pub fn remove_implied(
    coefficient: &[i32],
    monomial: &[u64],
    terms: &[u8],
    variables: usize,
    list: Atoms,
    state: State,
    largest: usize,
) -> Removed
    requires { let t = lent_table coefficient monomial terms variables in
        Forms t × CarriedFrom t state (atoms_of t list) }
    ensures { let t = lent_table coefficient.entry monomial.entry terms.entry variables in
        RemainingOf t list (remove_implied_of variables []) result.remaining
        × ((carrying : List Placed) → plains carrying ≡ atoms_of t list → result.rounds ≡ max largest (removal_count variables [] carrying)) }
{
    let board = state.board;
    let atoms = state.atoms;
    let mut sign = [0u8; 1280];
    sign_list(board, monomial, terms, atoms, &mut sign);
    sign_list(board, monomial, terms, list, &mut sign);
    let mut masks = [0u64; 128];
    let mut columns = [0u64; 130];
    let falls = words_of(
        coefficient,
        monomial,
        terms,
        &sign,
        atoms,
        &mut masks,
        &mut columns,
    );
    let by_common = largest < 2 * (variables + many(list.count)) + 1;
    remove(
        coefficient,
        monomial,
        terms,
        &sign,
        &masks,
        &columns,
        falls,
        variables,
        list,
        state,
        largest,
        by_common,
    )
}
