// Rounds over a list of atoms joined by AND, 01 "Rounds": the run of the rounds, in document 01's order and counted, or with turns ahead of them.
// The table of forms is lent as three slices.

#![tactic(auto)]

ghost use Rattle.table.specs.Table.{Forms};
ghost use Rattle.round.specs.Views.{lent_table};
ghost use Rattle.rounds.specs.Run.{RunOf, CountedRun, LargestRun, Uncut};
ghost use Rattle.std.specs.Prelude.{◌≡◌, true};

use crate::counting::larger;
use crate::narrow::narrowed;
use crate::settle::{rounds, same_atoms};
use crate::start::start;
use crate::turned::turned_largest;
use ahead::no_order;
use round::State;
use round::list::many;
use signs::SignSet;
use table::Atoms;
use terms::Board;

pub mod settle; // the rounds to their end
pub mod start; // where they start
pub mod narrow; // the start, narrowed ahead of them
pub mod turned; // rounds on the board alone
pub mod counting; // the largest number of rounds of fresh runs

// How the rounds ended, and the state that the last one left.
#[derive(Clone, Copy)]
pub struct Ran {
    pub contradiction: bool,
    pub state: State,
}

// The same, and how many rounds were begun.
#[derive(Clone, Copy)]
pub struct Counted {
    pub contradiction: bool,
    pub begun: usize,
    pub state: State,
}

// The same, and the largest number of rounds so far, this run counted.
#[derive(Clone, Copy)]
pub struct Largest {
    pub contradiction: bool,
    pub largest: usize,
    pub state: State,
}

// What the rounds come to, with turns ahead of them.
pub fn run(
    coefficient: &[i32],
    monomial: &[u64],
    terms: &[u8],
    variables: usize,
    list: Atoms,
) -> Ran
    requires { Forms (lent_table coefficient monomial terms variables) }
    ensures { RunOf (lent_table coefficient.entry monomial.entry terms.entry variables) list result }
{
    let nothing = Board {
        variables,
        sets: [SignSet::EMPTY.0; 16],
    };
    let begin = narrowed(
        coefficient,
        monomial,
        terms,
        variables,
        list,
        nothing,
        no_order(),
    );
    let state = begin.state;
    let end = rounds(coefficient, monomial, terms, state);
    let left = end.state;
    Ran {
        contradiction: end.contradiction,
        state: left,
    }
}

// Whether a run has found no contradiction and left each atom the set that it has at the start.
fn no_atom_cut(first: State, ran: Ran) -> bool
    ensures { result ≡ true → Uncut first ran }
{
    if ran.contradiction {
        return false;
    }
    let last = ran.state;
    same_atoms(first, last)
}

// The run over a list and the largest number of rounds so far, its own counted. A run over n variables and k atoms takes at most 2(n + k) + 1 rounds:
// where that is no more than the largest number so far, it is not counted. Else what the rounds come to is found first, with turns ahead of them; where
// that leaves each atom the set that it has at the start, the rounds cut no atom, and they are counted on the board alone.
pub fn run_largest(
    coefficient: &[i32],
    monomial: &[u64],
    terms: &[u8],
    variables: usize,
    list: Atoms,
    largest: usize,
) -> Largest
    requires { Forms (lent_table coefficient monomial terms variables) }
    ensures { LargestRun (lent_table coefficient.entry monomial.entry terms.entry variables) list largest result }
{
    let ran = run(coefficient, monomial, terms, variables, list);
    let last = ran.state;
    if 2 * (variables + many(list.count)) + 1 <= largest {
        return Largest {
            contradiction: ran.contradiction,
            largest,
            state: last,
        };
    }
    let first = start(coefficient, monomial, terms, variables, list);
    if !no_atom_cut(first, ran) {
        let counted = rounds(coefficient, monomial, terms, first);
        let state = counted.state;
        return Largest {
            contradiction: counted.contradiction,
            largest: larger(largest, counted.begun),
            state,
        };
    }
    let floor = last.board;
    let most = turned_largest(coefficient, monomial, terms, first, floor, 0, largest);
    Largest {
        contradiction: false,
        largest: most,
        state: last,
    }
}

// The rounds in document 01's order, counted.
pub fn run_counted(
    coefficient: &[i32],
    monomial: &[u64],
    terms: &[u8],
    variables: usize,
    list: Atoms,
) -> Counted
    requires { Forms (lent_table coefficient monomial terms variables) }
    ensures { CountedRun (lent_table coefficient.entry monomial.entry terms.entry variables) list result }
{
    let ran = run_largest(coefficient, monomial, terms, variables, list, 0);
    let state = ran.state;
    Counted {
        contradiction: ran.contradiction,
        begun: ran.largest,
        state,
    }
}
