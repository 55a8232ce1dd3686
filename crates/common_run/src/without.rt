// The run without an atom, by the common run: it has the rounds in common with it before the first whose cuts need the atom, or rest on it where
// other atoms have gone, and is made from there.
ghost use Rattle.std.specs.Prelude.{◌≡◌, true, false, ◌<◌, max};
ghost use Rattle.rules.specs.Count.{run_count};
ghost use Rattle.table.specs.Table.{Forms, atoms_of};
ghost use Rattle.round.specs.Views.{lent_table};
ghost use Rattle.common_run.specs.Marks.{marked_by};
ghost use Rattle.common_run.specs.Known.{MarkOf, Without, Left, Lost};

use crate::boards::restored;
use crate::run::{Common, unknown};
use round::State;
use rounds::counting::larger;
use rounds::start::start;
use rounds::turned::turned_largest;
use table::Atoms;

// The mark of slot k that tells: only a run over all atoms that remain is known to go on without one that no cut needs.
fn mark_of(common: Common, k: usize) -> u8
    requires { k < 64 }
    ensures { MarkOf common k result }
{
    let marks = common.marks;
    if common.whole {
        let needed = marks.needed;
        return needed.first[k];
    }
    let resting = marks.resting;
    resting.first[k]
}

// Whether the run without an atom takes as many rounds as the common run: it has no mark, and the common run has ended.
fn as_many(mark: u8, ended: bool) -> bool
    ensures { result ≡ true → (mark ≡ 0) × (ended ≡ true) }
{
    if mark == 0 {
        return ended;
    }
    false
}

// How many rounds the run without an atom has in common with a run of so many rounds, but for its last one, by the atom's mark.
fn shared(mark: u8, rounds: usize) -> usize
    requires { 0 < rounds }
    ensures { (result < rounds) × (marked_by mark result ≡ false) }
{
    let first = mark as usize;
    if first == 0 {
        return rounds - 1;
    }
    if rounds < first {
        return rounds - 1;
    }
    first - 1
}

// The larger of the largest number so far and that of the rounds of the run over the atoms that remain without the one of slot k.
pub fn without(
    coefficient: &[i32],
    monomial: &[u64],
    terms: &[u8],
    variables: usize,
    others: Atoms,
    settled: State,
    common: Common,
    k: usize,
    largest: usize,
) -> usize
    requires { let t = lent_table coefficient monomial terms variables in
        Forms t × ((k < 64) × Without t settled common k (atoms_of t others)) }
    ensures { let t = lent_table coefficient.entry monomial.entry terms.entry variables in
        result ≡ max largest (run_count variables (atoms_of t others)) }
{
    let mark = mark_of(common, k);
    if as_many(mark, common.ended) {
        return larger(largest, common.rounds);
    }
    let from = shared(mark, common.rounds);
    let begun = start(coefficient, monomial, terms, variables, others);
    let first = begun.board;
    let atoms = begun.atoms;
    let boards = common.boards;
    let board = restored(boards, first, from);
    let floor = settled.board;
    turned_largest(
        coefficient,
        monomial,
        terms,
        State { board, atoms },
        floor,
        from,
        largest,
    )
}

// What is known of the common run after the atom of slot k, no variable's, which is out or not: as much but for what cuts need, if none rests on it.
pub fn left(common: Common, out: bool, k: usize) -> Common
    requires { k < 64 }
    ensures { Left out k common result }
{
    if !out {
        return common;
    }
    let marks = common.marks;
    let resting = marks.resting;
    let mark = resting.first[k];
    if 0 < mark {
        return unknown();
    }
    let mut fewer = common;
    fewer.whole = false;
    fewer
}

// What is known of it after any atom.
pub fn lost(common: Common, out: bool) -> Common
    ensures { Lost out common result }
{
    if out {
        return unknown();
    }
    common
}
