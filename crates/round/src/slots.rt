// The slots of the table: the places of a slot, the variable that it holds, and the signs of its monomials on a board.
// A slot has sixteen places; the forms have the slots 0 to 63, variable i has slot 64 + i.
ghost use Rattle.std.specs.Prelude.{◌≡◌, ◌+◌, ◌*◌, ◌<◌, ◌≤◌, length, get_or};
ghost use Rattle.rules.specs.Polynomial.{which as which_of, Board as BookBoard};
ghost use Rattle.terms.specs.View.{sets_of};
ghost use Rattle.terms.specs.Masks.{MasksOf};
ghost use Rattle.table.specs.Table.{Forms, form_at, many as many_of};
ghost use Rattle.round.specs.Views.{lent_table, variable_of, Below};
ghost use Rattle.round.specs.Signing.{Slots, variable_slot, atom_slot, signed_slot, signed_slots, signed_list, signed_table};

use crate::list::many;
use deduce::Run;
use table::Atoms;
use terms::masks::{Masks, masks_of};
use terms::{Board, sign_by};

// What a slot was found to hold.
// kept: public functions keep their signatures, and `which` gives this to crates settled and common_run, which match on it.
#[derive(Clone, Copy)]
pub enum Holds {
    Variable(usize),
    Form,
}

// The places of slot k.
pub fn places(terms: &[u8], k: usize) -> Run
    requires { (k < 80) × (length terms.now ≡ 81) }
    ensures { (result.from ≡ 16 * k) × (result.to ≡ 16 * k + get_or terms.now k 0) }
{
    let count = terms[k];
    Run {
        from: 16 * k,
        to: 16 * k + count as usize,
    }
}

// The variable that slot k holds: it has one term, with coefficient 1 and the variable's monomial.
pub fn which(
    coefficient: &[i32],
    monomial: &[u64],
    terms: &[u8],
    variables: usize,
    k: usize,
) -> Holds
    requires { Forms (lent_table coefficient monomial terms variables) × (k < 64) }
    ensures { let t = lent_table coefficient.entry monomial.entry terms.entry variables in
        (variable_of result ≡ which_of variables (form_at t k)) × Below variables result }
{
    let count = terms[k];
    let c = coefficient[16 * k];
    let m = monomial[16 * k];
    if count != 1 {
        return Holds::Form;
    }
    if c != 1 {
        return Holds::Form;
    }
    for i in (0..variables).rev() {
        if m == monomial[16 * (64 + i)] {
            return Holds::Variable(i);
        }
    }
    Holds::Form
}

// ---- the signs of the slots that a round reads

// Slot k, for the board that the masks are of: masks are made once for all slots of a list.
fn slot_by(masks: Masks, monomial: &[u64], terms: &[u8], sign: &mut [u8], k: usize)
    requires { Slots monomial.now terms.now sign.old × (k < 80) }
    ensures { (board : BookBoard) → MasksOf board masks →
        sign.new ≡ signed_slot board monomial.now terms.now sign.old k }
{
    let run = places(terms, k);
    sign_by(masks, monomial, sign, run.from, run.to);
}

pub fn sign_slot(board: Board, monomial: &[u64], terms: &[u8], sign: &mut [u8], k: usize)
    requires { Slots monomial.now terms.now sign.old × (k < 80) }
    ensures { sign.new ≡ signed_slot (sets_of board) monomial.now terms.now sign.old k }
{
    slot_by(masks_of(board), monomial, terms, sign, k);
}

fn sign_variables(masks: Masks, variables: usize, monomial: &[u64], terms: &[u8], sign: &mut [u8])
    requires { Slots monomial.now terms.now sign.old × (variables ≤ 16) }
    ensures { (board : BookBoard) → MasksOf board masks →
        sign.new ≡ signed_slots board monomial.now terms.now variable_slot sign.old 0 variables }
{
    for i in 0..variables {
        slot_by(masks, monomial, terms, sign, 64 + i);
    }
}

fn sign_atoms(masks: Masks, monomial: &[u64], terms: &[u8], atoms: Atoms, sign: &mut [u8])
    requires { Slots monomial.now terms.now sign.old }
    ensures { (board : BookBoard) → MasksOf board masks →
        sign.new ≡
        signed_slots board monomial.now terms.now (atom_slot atoms.number) sign.old 0 (many_of atoms.count) }
{
    let n = many(atoms.count);
    for number in &atoms.number[..n] {
        let k = (number % 64) as usize;
        slot_by(masks, monomial, terms, sign, k);
    }
}

// The signs of the variables and of the atoms of a list, once for a board.
pub fn sign_list(board: Board, monomial: &[u64], terms: &[u8], atoms: Atoms, sign: &mut [u8])
    requires { Slots monomial.now terms.now sign.old × (board.variables ≤ 16) }
    ensures { sign.new ≡ signed_list board monomial.now terms.now atoms sign.old }
{
    let masks = masks_of(board);
    sign_variables(masks, board.variables, monomial, terms, sign);
    sign_atoms(masks, monomial, terms, atoms, sign);
}

// The signs of all slots, once for a board: for one that asks about polynomials all over the table.
pub fn sign_table(board: Board, monomial: &[u64], terms: &[u8], sign: &mut [u8])
    requires { Slots monomial.now terms.now sign.old }
    ensures { sign.new ≡ signed_table (sets_of board) monomial.now terms.now sign.old }
{
    let masks = masks_of(board);
    for k in 0..80 {
        slot_by(masks, monomial, terms, sign, k);
    }
}
