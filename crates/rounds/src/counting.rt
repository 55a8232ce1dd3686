// Request #108: the largest number of rounds that one run took, over step 5's fresh runs. A run whose bound is no more than the largest so far is left
// out: that of any run (`count_laws/AtMost: list-at-most`), or that of a run that cuts no atom and stays above the settled board, from the board at hand:
// each of its rounds but the last takes a sign from a variable, or the pair finding after it does (`count_laws/Bound: onward-at-most`).
ghost use Rattle.std.specs.Prelude.{◌≡◌, true, max, ◌+◌, ◌<◌, ◌≤◌, length};
ghost use Rattle.rules.specs.Count.{run_count};
ghost use Rattle.ending_laws.specs.Sizes.{spare as spare_of};
ghost use Rattle.ending_laws.specs.Cuts.{spare_all};
ghost use Rattle.terms.specs.View.{numbers_from, sets_of};
ghost use Rattle.table.specs.Table.{Forms, atoms_of};
ghost use Rattle.round.specs.Views.{lent_table};
ghost use Rattle.rounds.specs.Afresh.{AfreshFrom};

use crate::start::start;
use crate::turned::turned_largest;
use round::State;
use round::list::many;
use table::Atoms;
use terms::{Board, few};

// The larger of two numbers.
pub fn larger(a: usize, b: usize) -> usize
    ensures { result ≡ max a b }
{
    a.max(b)
}

// How many signs a set can lose and still have one.
fn spare(set: u8) -> usize
    ensures { (result ≡ spare_of set) × (result ≤ 2) }
{
    let size = (set / 4 % 2) + (set / 2 % 2) + (set % 2);
    size.saturating_sub(1) as usize
}

// The same of the first n sets together.
pub fn spares(sets: &[u8], n: usize) -> usize
    requires { (n ≤ length sets.now) × (n ≤ 16) }
    ensures { (result ≡ spare_all (numbers_from sets.now 0 n)) × (result ≤ 32) }
{
    let mut sum = 0;
    for set in &sets[..n] {
        sum += spare(*set);
    }
    sum
}

// Whether a run that cuts no atom and has begun so many rounds before it came to a board takes no more than the largest number so far: by its bound from
// that board, one round more than the signs that it has above the floor (`count_laws/Bound: onward-at-most`).
pub fn within(board: Board, floor: Board, begun: usize, largest: usize) -> bool
    requires { begun < 1000 }
    ensures { result ≡ true → begun + spare_all (sets_of board) < largest + spare_all (sets_of floor) }
{
    let sets = board.sets;
    let lowest = floor.sets;
    let above = spares(&sets, few(board.variables));
    let below = spares(&lowest, few(floor.variables));
    if begun + above < largest {
        return true;
    }
    begun + above < largest + below
}

// The larger of the largest number so far and that of the rounds run afresh over some of the atoms that carry the sets of a settled state.
pub fn fresh_rounds(
    coefficient: &[i32],
    monomial: &[u64],
    terms: &[u8],
    variables: usize,
    others: Atoms,
    settled: State,
    largest: usize,
) -> usize
    requires { let t = lent_table coefficient monomial terms variables in
        Forms t × AfreshFrom t settled (atoms_of t others) }
    ensures { let t = lent_table coefficient.entry monomial.entry terms.entry variables in
        result ≡ max largest (run_count variables (atoms_of t others)) }
{
    if 2 * (variables + many(others.count)) + 1 <= largest {
        return largest;
    }
    let first = start(coefficient, monomial, terms, variables, others);
    let floor = settled.board;
    turned_largest(coefficient, monomial, terms, first, floor, 0, largest)
}
