// Step 5's fresh runs, counted by a common run: it is made when the run without an atom, no variable's, has to be counted,
// and again when an atom has gone that it rests on, or a variable's.
ghost use Rattle.std.specs.Prelude.{◌≡◌, true, ◌++◌, ◌<◌, max};
ghost use Rattle.std.proofs.Math.Option.{none};
ghost use Rattle.rules.specs.Polynomial.{which as which_of};
ghost use Rattle.rules.specs.Count.{run_count};
ghost use Rattle.table.specs.Table.{Forms, form_at, atoms_of};
ghost use Rattle.round.specs.Views.{lent_table, rest};
ghost use Rattle.round.specs.Signing.{atom_slot};
ghost use Rattle.rounds.specs.Afresh.{AfreshFrom};
ghost use Rattle.common_run.specs.Known.{Known, Without};
ghost use Rattle.common_run.specs.Counting.{Remain, CountedOne};

use crate::run::{Common, marking_run};
use crate::without::{left, lost, without};
use round::State;
use round::list::joined;
use round::slots::{Holds, which};
use rounds::counting::{fresh_rounds, within};
use rounds::start::start;
use table::Atoms;

// The largest number of rounds so far, and what is known of a common run.
#[derive(Clone, Copy)]
pub struct Counting {
    pub rounds: usize,
    pub common: Common,
}

// Whether the run over the others may take more rounds than the largest number so far. No promise goes by it, the cost alone.
fn open(
    coefficient: &[i32],
    monomial: &[u64],
    terms: &[u8],
    variables: usize,
    others: Atoms,
    settled: State,
    largest: usize,
) -> bool
    requires { Forms (lent_table coefficient monomial terms variables) }
{
    let first = start(coefficient, monomial, terms, variables, others);
    let board = first.board;
    let floor = settled.board;
    !within(board, floor, 0, largest)
}

// The common run that is known, or one over the atoms that remain.
fn remade(
    coefficient: &[i32],
    monomial: &[u64],
    terms: &[u8],
    variables: usize,
    kept: Atoms,
    list: Atoms,
    i: usize,
    others: Atoms,
    settled: State,
    common: Common,
    largest: usize,
) -> Common
    requires { let t = lent_table coefficient monomial terms variables in
        Forms t × (Remain t settled kept list i others × Known t settled (atoms_of t kept ++ rest t list i) common) }
    ensures { let t = lent_table coefficient.entry monomial.entry terms.entry variables in
        Known t settled (atoms_of t kept ++ rest t list i) result }
{
    if common.known {
        return common;
    }
    let all = joined(kept, list, i);
    let begun = start(coefficient, monomial, terms, variables, all);
    let floor = settled.board;
    marking_run(coefficient, monomial, terms, begun, floor, largest)
}

// The larger of the largest number so far and that of the run without the atom of slot k: by the common run, if it is known.
fn by_common(
    coefficient: &[i32],
    monomial: &[u64],
    terms: &[u8],
    variables: usize,
    others: Atoms,
    settled: State,
    largest: usize,
    common: Common,
    k: usize,
) -> usize
    requires others_afresh { let t = lent_table coefficient monomial terms variables in
        Forms t × AfreshFrom t settled (atoms_of t others) }
    requires without_slot { let t = lent_table coefficient monomial terms variables in
        (k < 64) × (common.known ≡ true → Without t settled common k (atoms_of t others)) }
    ensures { let t = lent_table coefficient.entry monomial.entry terms.entry variables in
        result ≡ max largest (run_count variables (atoms_of t others)) }
{
    if common.known {
        return without(
            coefficient,
            monomial,
            terms,
            variables,
            others,
            settled,
            common,
            k,
            largest,
        );
    }
    fresh_rounds(
        coefficient,
        monomial,
        terms,
        variables,
        others,
        settled,
        largest,
    )
}

// The run without an atom that is no variable's.
fn form_counted(
    coefficient: &[i32],
    monomial: &[u64],
    terms: &[u8],
    variables: usize,
    kept: Atoms,
    list: Atoms,
    i: usize,
    others: Atoms,
    settled: State,
    before: Counting,
    out: bool,
    k: usize,
) -> Counting
    requires remaining_known { let t = lent_table coefficient monomial terms variables in
        Forms t × (Remain t settled kept list i others × Known t settled (atoms_of t kept ++ rest t list i) before.common) }
    requires slot_of_form { let t = lent_table coefficient monomial terms variables in
        (k ≡ atom_slot list.number i) × (which_of variables (form_at t k) ≡ none) }
    ensures { let t = lent_table coefficient.entry monomial.entry terms.entry variables in
        CountedOne t settled kept list i others before.rounds out result }
{
    let common = before.common;
    let largest = before.rounds;
    if !open(
        coefficient,
        monomial,
        terms,
        variables,
        others,
        settled,
        largest,
    ) {
        let rounds = fresh_rounds(
            coefficient,
            monomial,
            terms,
            variables,
            others,
            settled,
            largest,
        );
        let known = left(common, out, k);
        return Counting {
            rounds,
            common: known,
        };
    }
    let made = remade(
        coefficient,
        monomial,
        terms,
        variables,
        kept,
        list,
        i,
        others,
        settled,
        common,
        largest,
    );
    let rounds = by_common(
        coefficient,
        monomial,
        terms,
        variables,
        others,
        settled,
        largest,
        made,
        k,
    );
    let known = left(made, out, k);
    Counting {
        rounds,
        common: known,
    }
}

// The run without the atom at i of the list, which is out or not.
pub fn counted(
    coefficient: &[i32],
    monomial: &[u64],
    terms: &[u8],
    variables: usize,
    kept: Atoms,
    list: Atoms,
    i: usize,
    others: Atoms,
    settled: State,
    before: Counting,
    out: bool,
) -> Counting
    requires { let t = lent_table coefficient monomial terms variables in
        Forms t × (Remain t settled kept list i others × Known t settled (atoms_of t kept ++ rest t list i) before.common) }
    ensures { let t = lent_table coefficient.entry monomial.entry terms.entry variables in
        CountedOne t settled kept list i others before.rounds out result }
{
    let number = list.number[i];
    let k = (number % 64) as usize;
    let holds = which(coefficient, monomial, terms, variables, k);
    match holds {
        Holds::Form => form_counted(
            coefficient,
            monomial,
            terms,
            variables,
            kept,
            list,
            i,
            others,
            settled,
            before,
            out,
            k,
        ),
        Holds::Variable(_) => {
            let common = before.common;
            let rounds = fresh_rounds(
                coefficient,
                monomial,
                terms,
                variables,
                others,
                settled,
                before.rounds,
            );
            let known = lost(common, out);
            Counting {
                rounds,
                common: known,
            }
        }
    }
}
