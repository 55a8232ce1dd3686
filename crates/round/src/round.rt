// A round over the atoms of a list, 01 "Rounds": the variables' turns one after the other, then the atoms, each cut by the others as they were.
// The signs of the terms are worked out once for a board, and again only when a turn has changed it.
ghost use Rattle.std.specs.Prelude.{◌≡◌, [], ◌+◌, ◌-◌, ◌<◌, ◌≤◌, MatchOption, set};
ghost use Rattle.rules.specs.Rounds.{cut_by as cut_by_of, turn as turn_of, cut_atoms as cut_atoms_of};
ghost use Rattle.sign_laws.specs.Sets.{PartOf};
ghost use Rattle.terms.specs.View.{sets_of};
ghost use Rattle.table.specs.Table.{Forms, form_at, atoms_from, atoms_of, many as many_of};
ghost use Rattle.round.specs.Views.{lent_table, cut_set};
ghost use Rattle.round.specs.Signing.{SignedSlot, Ready};
ghost use Rattle.round.specs.Floors.{FloorAt};
ghost use Rattle.round.specs.Round.{Turned, Cut, Rounded};

use crate::State;
use crate::lent::after_turns;
use crate::list::many;
use crate::slots::{places, sign_list};
use deduce::any_empty;
use engines::deduce_from;
use signs::SignSet;
use table::Atoms;
use terms::{Board, by_terms};

// The set of the polynomial in slot p, cut by its deductions from the atoms from..to, where it is known that a floor is left of it: the deductions end
// where no more than that is left. An empty set on the board empties it at the first atom.
pub fn cut_down(
    coefficient: &[i32],
    monomial: &[u64],
    terms: &[u8],
    sign: &[u8],
    board: Board,
    atoms: Atoms,
    from: usize,
    to: usize,
    p: usize,
    set: SignSet,
    floor: SignSet,
) -> SignSet
    requires ready { let t = lent_table coefficient monomial terms board.variables in
        Ready t (sets_of board) atoms sign.now }
    requires in_slot { let t = lent_table coefficient monomial terms board.variables in
        (to ≤ many_of atoms.count) × ((p < 80) × SignedSlot t (sets_of board) sign.now p) }
    requires above_floor { let t = lent_table coefficient monomial terms board.variables in
        (floor.0 < 8) × PartOf floor.0 (cut_by_of (sets_of board) (form_at t p) (atoms_from t atoms.number atoms.set from (to - from)) set.0) }
    ensures { let t = lent_table coefficient.entry monomial.entry terms.entry board.variables in
        result.0 ≡ cut_by_of (sets_of board) (form_at t p) (atoms_from t atoms.number atoms.set from (to - from)) set.0 }
{
    if any_empty(board) {
        if from < to {
            return SignSet::EMPTY;
        }
        return set;
    }
    let run = places(terms, p);
    let mut sofar = set;
    for i in from..to {
        let k = (atoms.number[i] % 64) as usize;
        let q = places(terms, k);
        sofar = sofar.intersect(deduce_from(
            coefficient,
            monomial,
            terms,
            sign,
            run,
            q,
            SignSet(atoms.set[i]),
        ));
        if sofar.0 == floor.0 {
            return sofar;
        }
    }
    sofar
}

// The same where nothing is known to be left.
pub fn cut_by(
    coefficient: &[i32],
    monomial: &[u64],
    terms: &[u8],
    sign: &[u8],
    board: Board,
    atoms: Atoms,
    from: usize,
    to: usize,
    p: usize,
    set: SignSet,
) -> SignSet
    requires ready { let t = lent_table coefficient monomial terms board.variables in
        Ready t (sets_of board) atoms sign.now }
    requires in_slot { let t = lent_table coefficient monomial terms board.variables in
        (to ≤ many_of atoms.count) × ((p < 80) × SignedSlot t (sets_of board) sign.now p) }
    ensures { let t = lent_table coefficient.entry monomial.entry terms.entry board.variables in
        result.0 ≡ cut_by_of (sets_of board) (form_at t p) (atoms_from t atoms.number atoms.set from (to - from)) set.0 }
{
    cut_down(
        coefficient,
        monomial,
        terms,
        sign,
        board,
        atoms,
        from,
        to,
        p,
        set,
        SignSet::EMPTY,
    )
}

// The set that variable i's turn gives it, if that is another than it has. The turn does not go below the floor, so that a variable that has the floor's
// set needs none, and a turn that comes to it is over.
pub fn turned_set(
    coefficient: &[i32],
    monomial: &[u64],
    terms: &[u8],
    sign: &[u8],
    board: Board,
    atoms: Atoms,
    i: usize,
    floor: Board,
) -> Option<SignSet>
    requires { let t = lent_table coefficient monomial terms board.variables in
        (Ready t (sets_of board) atoms sign.now × (i < board.variables)) × FloorAt t atoms board floor i }
    ensures { let t = lent_table coefficient.entry monomial.entry terms.entry board.variables in
        let turn = turn_of board.variables (atoms_of t atoms) (sets_of board) i in
        MatchOption result (sets_of board ≡ turn)
        (λ new. sets_of (record { variables = board.variables; sets = set board.sets i new.0 }) ≡ turn) }
{
    let old = board.sets[i];
    let low = floor.sets[i];
    if old == low {
        return None;
    }
    let n = many(atoms.count);
    let new = cut_down(
        coefficient,
        monomial,
        terms,
        sign,
        board,
        atoms,
        0,
        n,
        64 + i,
        SignSet(old),
        SignSet(low),
    );
    if new.0 == old {
        return None;
    }
    Some(new)
}

// Variable i's turn, by value. One that leaves the variable's set as it was leaves the signs too.
pub fn turned(
    coefficient: &[i32],
    monomial: &[u64],
    terms: &[u8],
    sign: &mut [u8],
    board: Board,
    atoms: Atoms,
    i: usize,
    floor: Board,
) -> Board
    requires { let t = lent_table coefficient monomial terms board.variables in
        (Ready t (sets_of board) atoms sign.old × (i < board.variables)) × FloorAt t atoms board floor i }
    ensures { let t = lent_table coefficient.entry monomial.entry terms.entry board.variables in
        Turned t atoms (turn_of board.variables (atoms_of t atoms) (sets_of board) i) result sign.new }
{
    let Some(new) = turned_set(coefficient, monomial, terms, sign, board, atoms, i, floor) else {
        return board;
    };
    let mut turned = board;
    turned.sets[i] = new.0;
    sign_list(turned, monomial, terms, atoms, sign);
    turned
}

// Atom i's set, cut by its sign by terms and by the other atoms.
fn cut_atom(
    coefficient: &[i32],
    monomial: &[u64],
    terms: &[u8],
    sign: &[u8],
    board: Board,
    atoms: Atoms,
    i: usize,
) -> SignSet
    requires { let t = lent_table coefficient monomial terms board.variables in
        Ready t (sets_of board) atoms sign.now × (i < many_of atoms.count) }
    ensures { let t = lent_table coefficient.entry monomial.entry terms.entry board.variables in
        result.0 ≡ cut_set t atoms.number atoms.set (sets_of board) (many_of atoms.count) i }
{
    let n = many(atoms.count);
    let number = atoms.number[i];
    let held = atoms.set[i];
    let k = (number % 64) as usize;
    let run = places(terms, k);
    let by = by_terms(coefficient, sign, run.from, run.to);
    let before = cut_by(
        coefficient,
        monomial,
        terms,
        sign,
        board,
        atoms,
        0,
        i,
        k,
        SignSet(held).intersect(by),
    );
    cut_by(
        coefficient,
        monomial,
        terms,
        sign,
        board,
        atoms,
        i + 1,
        n,
        k,
        before,
    )
}

// Each atom so, the others with their sets from before the round.
fn cut_atoms(
    coefficient: &[i32],
    monomial: &[u64],
    terms: &[u8],
    sign: &[u8],
    board: Board,
    atoms: Atoms,
) -> Atoms
    requires { let t = lent_table coefficient monomial terms board.variables in
        Ready t (sets_of board) atoms sign.now }
    ensures { let t = lent_table coefficient.entry monomial.entry terms.entry board.variables in
        Cut t atoms (cut_atoms_of (sets_of board) [] (atoms_of t atoms)) result }
{
    let n = many(atoms.count);
    let mut cut = atoms;
    for i in 0..n {
        let set = cut_atom(coefficient, monomial, terms, sign, board, atoms, i);
        cut.set[i] = set.0;
    }
    cut
}

// A round. It knows no floor: the turns are given one of empty sets.
pub fn round(coefficient: &[i32], monomial: &[u64], terms: &[u8], state: State) -> State
    requires { let t = lent_table coefficient monomial terms state.board.variables in
        Forms t }
    ensures { let t = lent_table coefficient.entry monomial.entry terms.entry state.board.variables in
        Rounded t state result }
{
    let board = state.board;
    let atoms = state.atoms;
    let mut sign = [0u8; 1280];
    sign_list(board, monomial, terms, atoms, &mut sign);
    let nowhere = Board {
        variables: board.variables,
        sets: [0; 16],
    };
    let turned = after_turns(
        coefficient,
        monomial,
        terms,
        &mut sign,
        board,
        atoms,
        nowhere,
    );
    let cut = cut_atoms(coefficient, monomial, terms, &sign, turned, atoms);
    State {
        board: turned,
        atoms: cut,
    }
}
