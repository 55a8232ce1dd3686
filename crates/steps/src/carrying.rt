// 01, "A level", steps 3 and 5: the rounds over a list of tokens, and the atoms that the others imply.
// The engine works on numbers and sets; here the sets go back into the tokens, so that all else of a token stays.
ghost use Rattle.std.specs.Prelude.{◌≡◌, List, ℕ, ◌≤◌, length};
ghost use Rattle.table.specs.Table.{Forms};
ghost use Rattle.tape.specs.Row.{row_of, Lists};
ghost use Rattle.round.specs.Views.{lent_table};
ghost use Rattle.settled.specs.Remaining.{remaining};
ghost use Rattle.steps.specs.Carried.{with_sets as with_sets_of, Carries, LeftBy, Remains};

use crate::tidying::atoms_in;
use round::State;
use rounds::run_largest;
use settled::carried;
use settled::removal::{Remaining, remove_implied};
use signs::SignSet;
use table::Atoms;
use tape::tokens::with_set;

// What step 3 leaves beside its list: the state of its rounds, or that they found a contradiction; and the largest number of rounds so far, its run
// counted.
#[derive(Clone, Copy)]
pub struct Carrying {
    pub state: State,
    pub contradiction: bool,
    pub rounds: usize,
}

// How many tokens step 5 leaves, and the largest number of rounds so far, its fresh runs counted.
#[derive(Clone, Copy)]
pub struct Left {
    pub count: usize,
    pub rounds: usize,
}

// The tokens with the atoms' sets.
fn with_sets(list: &mut [u32], n: usize, atoms: Atoms)
    requires { (n ≤ length list.old) × (n ≤ 64) }
    ensures { (l : List ℕ) → Lists (row_of list.old n) l → Lists (row_of list.new n) (with_sets_of atoms.set 0 l) }
{
    for i in 0..n {
        list[i] = with_set(list[i], SignSet(atoms.set[i]));
    }
}

// Step 3 of the first n tokens of a list: where the rounds settle, each token gets the set that its atom carries.
pub fn carry(
    coefficient: &[i32],
    monomial: &[u64],
    terms: &[u8],
    variables: usize,
    list: &mut [u32],
    n: usize,
    largest: usize,
) -> Carrying
    requires { Forms (lent_table coefficient monomial terms variables) × ((n ≤ length list.old) × (n ≤ 64)) }
    ensures { let t = lent_table coefficient.entry monomial.entry terms.entry variables in ((l : List ℕ) → Lists (row_of list.old n) l → Carries t l largest (row_of list.new n) result) }
{
    let atoms = atoms_in(list, n);
    let ran = run_largest(coefficient, monomial, terms, variables, atoms, largest);
    let state = ran.state;
    if ran.contradiction {
        return Carrying {
            state: state,
            contradiction: true,
            rounds: ran.largest,
        };
    }
    let cut = carried(coefficient, monomial, terms, variables, atoms, state);
    with_sets(list, n, cut);
    Carrying {
        state: state,
        contradiction: false,
        rounds: ran.largest,
    }
}

// The tokens of the atoms that remain, moved to the front of their list; how many they are.
fn kept_of(list: &mut [u32], n: usize, kept: Remaining) -> usize
    requires { (n ≤ length list.old) × (n ≤ 64) }
    ensures { (l : List ℕ) → Lists (row_of list.old n) l → Lists (row_of list.new result) (remaining kept.keep 0 l) }
{
    let mut count = 0;
    for i in 0..n {
        if kept.keep[i] {
            list[count] = list[i];
            count += 1;
        }
    }
    count
}

// Step 5: "In order, an atom is removed if what the other remaining atoms say of it lies inside its carried set." The state is the one of step 3.
// The tokens that remain are moved to the front.
pub fn without_implied(
    coefficient: &[i32],
    monomial: &[u64],
    terms: &[u8],
    variables: usize,
    list: &mut [u32],
    n: usize,
    state: State,
    largest: usize,
) -> Left
    requires { let t = lent_table coefficient monomial terms variables in
        Forms t × ((n ≤ length list.old) × ((n ≤ 64) × LeftBy t state (row_of list.old n))) }
    ensures { let t = lent_table coefficient.entry monomial.entry terms.entry variables in ((l : List ℕ) → Lists (row_of list.old n) l → Remains t l largest (row_of list.new result.count) result.rounds) }
{
    let atoms = atoms_in(list, n);
    let removed = remove_implied(
        coefficient,
        monomial,
        terms,
        variables,
        atoms,
        state,
        largest,
    );
    let kept = removed.remaining;
    let count = kept_of(list, n, kept);
    Left {
        count: count,
        rounds: removed.rounds,
    }
}
