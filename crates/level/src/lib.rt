// 01, "A level": a tree of atoms simplified by the AND rule and the OR rule, on tapes of tokens.
// The table of normal forms is lent as three slices and the number of variables. A node settles in two lists that it lends; what it hands up is a value.

#![tactic(auto)]

ghost use Rattle.std.specs.Prelude.{ℕ};
ghost use Rattle.rules.specs.Formula.{Node};
ghost use Rattle.table.specs.Table.{Forms};
ghost use Rattle.round.specs.Views.{lent_table};
ghost use Rattle.level.specs.Tree.{TreeHeld, RootIs, ShortenedIs};

mod nesting;
mod settling;
mod writing;

use nesting::{and_rule, or_rule};
use settling::{Finished, finish};
use tape::rows::{empty, push};
use tape::walks::begin;
use writing::{Tree, tree_of};

// A tree simplified, and the largest number of rounds so far, its runs counted.
#[derive(Clone, Copy)]
pub struct Shortened {
    pub tree: Tree,
    pub rounds: usize,
}

// The level that the root's rule makes. "A root atom is an AND of one."
fn root_level(
    coefficient: &[i32],
    monomial: &[u64],
    terms: &[u8],
    variables: usize,
    token: &[u32],
    root: u8,
    largest: usize,
) -> Finished
    requires { Forms (lent_table coefficient monomial terms variables) × ((tree : Node ℕ) × TreeHeld token.now root tree) }
    ensures { let t = lent_table coefficient.entry monomial.entry terms.entry variables in ((tree : Node ℕ) → TreeHeld token.now root tree → RootIs t tree largest result) }
{
    if root == 0 {
        let atoms = push(empty(), token[0]);
        let walked = begin();
        return finish(
            coefficient,
            monomial,
            terms,
            variables,
            atoms,
            walked,
            largest,
        );
    }
    if root == 1 {
        let found = and_rule(
            coefficient,
            monomial,
            terms,
            variables,
            token,
            0,
            6,
            largest,
        );
        let level = found.level;
        return Finished {
            level: level,
            rounds: found.rounds,
        };
    }
    let found = or_rule(
        coefficient,
        monomial,
        terms,
        variables,
        token,
        0,
        6,
        largest,
    );
    let level = found.level;
    Finished {
        level: level,
        rounds: found.rounds,
    }
}

// The tree that the tape holds, with its root's kind (0 is an atom, 1 is AND, 2 is OR), simplified. Runs that cannot take more rounds than the
// largest number so far are not counted.
pub fn simplified(
    coefficient: &[i32],
    monomial: &[u64],
    terms: &[u8],
    variables: usize,
    token: &[u32],
    root: u8,
    largest: usize,
) -> Shortened
    requires { Forms (lent_table coefficient monomial terms variables) × ((tree : Node ℕ) × TreeHeld token.now root tree) }
    ensures { let t = lent_table coefficient.entry monomial.entry terms.entry variables in ((tree : Node ℕ) → TreeHeld token.now root tree → ShortenedIs t tree largest result) }
{
    let finished = root_level(
        coefficient,
        monomial,
        terms,
        variables,
        token,
        root,
        largest,
    );
    let level = finished.level;
    let tree = tree_of(level, root != 2);
    Shortened {
        tree: tree,
        rounds: finished.rounds,
    }
}
