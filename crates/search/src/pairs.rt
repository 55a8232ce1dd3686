// What all pairs of the atoms of a list leave of the set of a polynomial p that is none of theirs: cut by the findings of all tries, or by the
// first that changes it. "each pair of non-variable atoms other than p, in list order": the first goes through the list, the second comes after it.
ghost use Rattle.std.specs.Prelude.{◌≡◌, true, ◌+◌, ◌<◌};
ghost use Rattle.rules.specs.TwoAtoms.{tries, tries_with};
ghost use Rattle.terms.specs.View.{sets_of};
ghost use Rattle.table.specs.Table.{form_at, atom_at, atoms_of, many as many_of};
ghost use Rattle.two_atoms.specs.Cuts.{cut_in};
ghost use Rattle.round.specs.Views.{lent_table, rest};
ghost use Rattle.round.specs.Signing.{SignedSlot, Ready};
ghost use Rattle.search.specs.Falling.{FallingAtoms};
ghost use Rattle.search.specs.Filled.{Filled};
ghost use Rattle.search.specs.Masked.{SlotMask, MaskedAtoms};
ghost use Rattle.search.specs.Noted.{NotedAtoms};
ghost use Rattle.search.specs.Words.{Words};

use crate::falling::falls_with;
use crate::masked::{mask_at, mask_of_slot};
use columns::{candidates, next, still};
use masks::Mask;
use round::list::many;
use round::slots::places;
use sieve::cutting::cut_by_sifted_pair;
use signs::SignSet;
use table::Atoms;
use terms::Board;
use two_atoms::pair::{Pair, stops};

// A set of the polynomial in slot p, cut by the pairs of the atom at i and those after it.
fn cut_with(
    coefficient: &[i32],
    monomial: &[u64],
    terms: &[u8],
    sign: &[u8],
    masks: &[u64],
    columns: &[u64],
    board: Board,
    atoms: Atoms,
    i: usize,
    p: usize,
    mask: Mask,
    falls: bool,
    set: SignSet,
    all: bool,
) -> SignSet
    requires ready { let t = lent_table coefficient monomial terms board.variables in
        Ready t (sets_of board) atoms sign.now × Filled (sets_of board) }
    requires signed { let t = lent_table coefficient monomial terms board.variables in
        (p < 80) × (SignedSlot t (sets_of board) sign.now p × (i < many_of atoms.count)) }
    requires masked_atoms { MaskedAtoms coefficient.now monomial.now terms.now sign.now atoms masks.now }
    requires slot_mask { SlotMask coefficient.now monomial.now terms.now sign.now p mask × NotedAtoms atoms masks.now columns.now }
    requires falling_atoms { falls ≡ true → FallingAtoms monomial.now terms.now atoms p }
    ensures { let t = lent_table coefficient.entry monomial.entry terms.entry board.variables in
        result.0 ≡ cut_in all set.0 (tries_with (sets_of board) (form_at t p) (atom_at t atoms.number atoms.set i) (rest t atoms (i + 1))) }
{
    let n = many(atoms.count);
    let run = places(terms, p);
    let first = atoms.number[i];
    let set1 = atoms.set[i];
    let q1 = places(terms, (first % 64) as usize);
    let mask1 = mask_at(masks, i);
    let mut left = candidates(mask, mask1, set1, set.0, columns);
    let mut sofar = set;
    let mut j = next(left, i + 1, n);
    // kept: the place goes on to the next atom that may cut, by bits that change on the way; its step is not one
    while j < n {
        let second = atoms.number[j];
        let set2 = atoms.set[j];
        let q2 = places(terms, (second % 64) as usize);
        let mask2 = mask_at(masks, j);
        let pair = Pair {
            p: run,
            q1,
            q2,
            set1,
            set2,
        };
        let cut = cut_by_sifted_pair(
            coefficient,
            monomial,
            sign,
            pair,
            mask,
            mask1,
            mask2,
            falls,
            all,
            sofar,
        );
        if stops(all, cut.0, sofar.0) {
            return cut;
        }
        left = still(left, sofar.0, cut.0);
        sofar = cut;
        j = next(left, j + 1, n);
    }
    sofar
}

// A set of the polynomial in slot p, cut by all pairs of the atoms, whose words are lent.
pub fn cut_by_pairs(
    coefficient: &[i32],
    monomial: &[u64],
    terms: &[u8],
    sign: &[u8],
    masks: &[u64],
    columns: &[u64],
    falls: bool,
    board: Board,
    atoms: Atoms,
    p: usize,
    set: SignSet,
    all: bool,
) -> SignSet
    requires ready { let t = lent_table coefficient monomial terms board.variables in
        Ready t (sets_of board) atoms sign.now × Filled (sets_of board) }
    requires signed { let t = lent_table coefficient monomial terms board.variables in
        (p < 80) × SignedSlot t (sets_of board) sign.now p }
    requires words { Words coefficient.now monomial.now terms.now sign.now atoms masks.now columns.now falls }
    ensures { let t = lent_table coefficient.entry monomial.entry terms.entry board.variables in
        result.0 ≡ cut_in all set.0 (tries (sets_of board) (form_at t p) (atoms_of t atoms)) }
{
    let mask = mask_of_slot(coefficient, monomial, terms, sign, p);
    let all_fall = falls_with(monomial, terms, falls, p);
    let mut sofar = set;
    for i in 0..many(atoms.count) {
        let cut = cut_with(
            coefficient,
            monomial,
            terms,
            sign,
            masks,
            columns,
            board,
            atoms,
            i,
            p,
            mask,
            all_fall,
            sofar,
            all,
        );
        if stops(all, cut.0, sofar.0) {
            return cut;
        }
        sofar = cut;
    }
    sofar
}
