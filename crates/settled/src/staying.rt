// Step 5 of a level without needless rounds: an atom stays if the state that step 3 settled in does not imply it by the other atoms.
// Rounds run afresh on some of the others never say more of it than that state does, so for such an atom none are run.
ghost use Rattle.std.specs.Prelude.{◌≡◌, ◌<◌};
ghost use Rattle.rules.specs.Signs.{inside};
ghost use Rattle.removal_laws.specs.Said.{said_by_others};
ghost use Rattle.removal_laws.specs.Settled.{Settled};
ghost use Rattle.removal_laws.specs.Staying.{stays_by};
ghost use Rattle.terms.specs.View.{sets_of};
ghost use Rattle.table.specs.Table.{form_at, atoms_of};
ghost use Rattle.round.specs.Views.{lent_table, state_of};
ghost use Rattle.round.specs.Signing.{SignedSlot, Ready};
ghost use Rattle.search.specs.Words.{Words};
ghost use Rattle.settled.specs.Others.{said_before_pairs as said_before_pairs_of};

use crate::others::{lies_inside, other_than};
use round::State;
use round::list::many;
use round::round::cut_by;
use round::slots::{Holds, places, which};
use signs::SignSet;
use table::Atoms;
use terms::{Board, by_terms};

// What these atoms say of the polynomial in slot number, with its sign by terms, before the pairs of them are asked.
fn said_before_pairs(
    coefficient: &[i32],
    monomial: &[u64],
    terms: &[u8],
    sign: &[u8],
    variables: usize,
    board: Board,
    others: Atoms,
    number: usize,
) -> SignSet
    requires ready { let t = lent_table coefficient monomial terms variables in
        Ready t (sets_of board) others sign.now × ((board.variables ≡ variables) × (number < 64)) }
    requires signed_slot { SignedSlot (lent_table coefficient monomial terms variables) (sets_of board) sign.now number }
    ensures { let t = lent_table coefficient.entry monomial.entry terms.entry variables in
        result.0 ≡ said_before_pairs_of (sets_of board) (form_at t number) (atoms_of t others) }
{
    let end = many(others.count);
    let run = places(terms, number);
    let by = by_terms(coefficient, sign, run.from, run.to);
    cut_by(
        coefficient,
        monomial,
        terms,
        sign,
        board,
        others,
        0,
        end,
        number,
        by,
    )
}

// Whether what the other atoms say so, one at a time and two at once, lies inside the set.
fn said_inside(
    coefficient: &[i32],
    monomial: &[u64],
    terms: &[u8],
    sign: &[u8],
    masks: &[u64],
    columns: &[u64],
    falls: bool,
    variables: usize,
    state: State,
    number: usize,
    set: SignSet,
) -> bool
    requires ready { let t = lent_table coefficient monomial terms variables in
        Ready t (sets_of state.board) state.atoms sign.now × ((state.board.variables ≡ variables) × (number < 64)) }
    requires signed_settled { let t = lent_table coefficient monomial terms variables in
        SignedSlot t (sets_of state.board) sign.now number × Settled variables (state_of t state) }
    requires words { Words coefficient.now monomial.now terms.now sign.now state.atoms masks.now columns.now falls }
    ensures { let t = lent_table coefficient.entry monomial.entry terms.entry variables in
        result ≡ inside (said_by_others (state_of t state) (form_at t number)) set.0 }
{
    let board = state.board;
    let atoms = state.atoms;
    let others = other_than(atoms, number);
    let said = said_before_pairs(
        coefficient,
        monomial,
        terms,
        sign,
        variables,
        board,
        others,
        number,
    );
    lies_inside(
        coefficient,
        monomial,
        terms,
        sign,
        masks,
        columns,
        falls,
        variables,
        board,
        atoms,
        number,
        said,
        set,
    )
}

// Whether the atom of the polynomial in slot number with this set stays: it is no variable's, and what is said so does not lie inside its set.
pub fn stays(
    coefficient: &[i32],
    monomial: &[u64],
    terms: &[u8],
    sign: &[u8],
    masks: &[u64],
    columns: &[u64],
    falls: bool,
    variables: usize,
    state: State,
    number: usize,
    set: SignSet,
) -> bool
    requires ready { let t = lent_table coefficient monomial terms variables in
        Ready t (sets_of state.board) state.atoms sign.now × ((state.board.variables ≡ variables) × (number < 64)) }
    requires signed_settled { let t = lent_table coefficient monomial terms variables in
        SignedSlot t (sets_of state.board) sign.now number × Settled variables (state_of t state) }
    requires words { Words coefficient.now monomial.now terms.now sign.now state.atoms masks.now columns.now falls }
    ensures { let t = lent_table coefficient.entry monomial.entry terms.entry variables in
        result ≡ stays_by variables (state_of t state) (record { polynomial = form_at t number; set = set.0 }) }
{
    let holds = which(coefficient, monomial, terms, variables, number);
    match holds {
        Holds::Variable(i) => false,
        Holds::Form => !said_inside(
            coefficient,
            monomial,
            terms,
            sign,
            masks,
            columns,
            falls,
            variables,
            state,
            number,
            set,
        ),
    }
}
