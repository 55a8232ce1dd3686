// The rounds one after the other, 01 "Rounds", until one finds a contradiction, or changes nothing and no pair of atoms finds anything (02, #111).
// At most the book's own number of them is begun, and how many were is told.
ghost use Rattle.std.specs.Prelude.{◌≡◌, ◌≤◌, length};
ghost use Rattle.rules.specs.Rounds.{same_sets as same_sets_of, has_empty as has_empty_of, unchanged as unchanged_of};
ghost use Rattle.removal_laws.specs.Rounds.{LowBoard};
ghost use Rattle.terms.specs.View.{numbers_from, sets_of};
ghost use Rattle.table.specs.Table.{Table, Forms, many as many_of};
ghost use Rattle.round.specs.Views.{lent_table, state_of};
ghost use Rattle.search.specs.Filled.{Filled};
ghost use Rattle.rounds.specs.Ended.{Furthered, Ended};

use crate::Counted;
use deduce::any_empty;
use round::State;
use round::list::many;
use round::round::round;
use search::{Found, search};
use signs::SignSet;
use terms::few;

// Whether the first n sets are the same.
pub fn same_sets(before: &[u8], after: &[u8], n: usize) -> bool
    requires { (n ≤ length before.now) × (n ≤ length after.now) }
    ensures { result ≡ same_sets_of (numbers_from before.now 0 n) (numbers_from after.now 0 n) }
{
    before[..n] == after[..n]
}

fn has_empty(state: State) -> bool
    ensures { (t : Table) → result ≡ has_empty_of (state_of t state) }
{
    let held = &state.atoms.set[..many(state.atoms.count)];
    any_empty(state.board) || held.contains(&SignSet::EMPTY.0)
}

fn unchanged(before: State, after: State) -> bool
    requires { (after.board.variables ≡ before.board.variables) × (after.atoms.count ≡ before.atoms.count) }
    ensures { (t : Table) → result ≡ unchanged_of (state_of t before) (state_of t after) }
{
    let board = before.board;
    let turned = after.board;
    let held = before.atoms.set;
    let cut_sets = after.atoms.set;
    same_sets(&board.sets, &turned.sets, few(board.variables))
        && same_sets(&held, &cut_sets, many(before.atoms.count))
}

// Whether each atom of the one state has the set that it has in the other.
pub fn same_atoms(first: State, last: State) -> bool
    ensures { let k = many_of first.atoms.count in result ≡ same_sets_of (numbers_from first.atoms.set 0 k) (numbers_from last.atoms.set 0 k) }
{
    same_sets(&first.atoms.set, &last.atoms.set, many(first.atoms.count))
}

// The state that a round left, if it changed anything; else what a pair finds in it, if one does. No further round is begun if nothing is found.
fn further(
    coefficient: &[i32],
    monomial: &[u64],
    terms: &[u8],
    before: State,
    after: State,
) -> Found
    requires filled { let t = lent_table coefficient monomial terms after.board.variables in
        Forms t × Filled (sets_of after.board) }
    requires same_counts { (after.board.variables ≡ before.board.variables) × (after.atoms.count ≡ before.atoms.count) }
    ensures { let t = lent_table coefficient.entry monomial.entry terms.entry after.board.variables in
        Furthered t before after result }
{
    if unchanged(before, after) {
        search(coefficient, monomial, terms, after)
    } else {
        Found {
            found: true,
            state: after,
        }
    }
}

pub fn rounds(coefficient: &[i32], monomial: &[u64], terms: &[u8], start: State) -> Counted
    requires { Forms (lent_table coefficient monomial terms start.board.variables) × LowBoard (sets_of start.board) }
    ensures { Ended (lent_table coefficient.entry monomial.entry terms.entry start.board.variables) start result }
{
    let board = start.board;
    let atoms = start.atoms;
    let enough = 2 * (board.variables + many(atoms.count)) + 1;
    let mut current = start;
    for ended in 0..enough {
        let next = round(coefficient, monomial, terms, current);
        if has_empty(next) {
            return Counted {
                contradiction: true,
                begun: ended + 1,
                state: next,
            };
        }
        let onward = further(coefficient, monomial, terms, current, next);
        let state = onward.state;
        if !onward.found {
            return Counted {
                contradiction: false,
                begun: ended + 1,
                state,
            };
        }
        if has_empty(state) {
            return Counted {
                contradiction: true,
                begun: ended + 1,
                state,
            };
        }
        current = state;
    }
    Counted {
        contradiction: false,
        begun: enough,
        state: current,
    }
}
