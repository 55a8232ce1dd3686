// A round that cuts no atom and marks the atoms that its cuts rest on, each that narrows a set by what those before it leave, and those that a cut
// needs.
ghost use Rattle.std.specs.Prelude.{◌<◌, get_or};
ghost use Rattle.terms.specs.View.{sets_of};
ghost use Rattle.round.specs.Views.{lent_table};
ghost use Rattle.round.specs.Signing.{Ready};
ghost use Rattle.common_run.specs.Turning.{CutMarking, Floored, TurnMarking, TurnsMarking};

use crate::marks::{BothMarks, marked};
use crate::takers::{needed_marked, no_takers, taken};
use round::list::many;
use round::round::cut_by;
use round::slots::sign_list;
use signs::SignSet;
use table::Atoms;
use terms::Board;

// What is left of a set, and the marks.
#[derive(Clone, Copy)]
pub struct Cutting {
    pub set: u8,
    pub marks: BothMarks,
}

// The board that turns have left, and the marks.
#[derive(Clone, Copy)]
pub struct Turning {
    pub board: Board,
    pub marks: BothMarks,
}

// Variable i's set, cut by one atom after the other; what each of them takes out is looked at by itself.
fn cut_marking(
    coefficient: &[i32],
    monomial: &[u64],
    terms: &[u8],
    sign: &[u8],
    board: Board,
    atoms: Atoms,
    i: usize,
    marks: BothMarks,
    round: u8,
) -> Cutting
    requires { let t = lent_table coefficient monomial terms board.variables in
        Ready t (sets_of board) atoms sign.now × ((i < board.variables) × (0 < round)) }
    ensures { let t = lent_table coefficient.entry monomial.entry terms.entry board.variables in
        CutMarking t atoms (sets_of board) i (get_or board.sets i 0) round marks result.set result.marks }
{
    let n = many(atoms.count);
    let old = board.sets[i];
    let mut sofar = SignSet(old);
    let mut resting = marks.resting;
    let mut takers = no_takers();
    for j in 0..n {
        let number = atoms.number[j];
        let k = (number % 64) as usize;
        let cut = cut_by(
            coefficient,
            monomial,
            terms,
            sign,
            board,
            atoms,
            j,
            j + 1,
            64 + i,
            SignSet(old),
        );
        let left = sofar.intersect(cut);
        resting = marked(resting, sofar.0, left.0, k, round);
        takers = taken(takers, old, cut.0, k);
        sofar = left;
    }
    let needed = needed_marked(marks.needed, takers, round);
    Cutting {
        set: sofar.0,
        marks: BothMarks { resting, needed },
    }
}

// Variable i's turn. No turn goes below the floor, so that one that has the floor's set needs none.
fn turn_marking(
    coefficient: &[i32],
    monomial: &[u64],
    terms: &[u8],
    sign: &mut [u8],
    board: Board,
    atoms: Atoms,
    i: usize,
    marks: BothMarks,
    round: u8,
    floor: Board,
) -> Turning
    requires { let t = lent_table coefficient monomial terms board.variables in
        Ready t (sets_of board) atoms sign.old × ((i < board.variables) × ((0 < round) × Floored t atoms board floor)) }
    ensures { let t = lent_table coefficient.entry monomial.entry terms.entry board.variables in
        TurnMarking t atoms (sets_of board) i round marks result.board result.marks sign.new }
{
    let old = board.sets[i];
    let low = floor.sets[i];
    if old == low {
        return Turning { board, marks };
    }
    let cut = cut_marking(
        coefficient,
        monomial,
        terms,
        sign,
        board,
        atoms,
        i,
        marks,
        round,
    );
    let more = cut.marks;
    if cut.set == old {
        return Turning { board, marks: more };
    }
    let mut turned = board;
    turned.sets[i] = cut.set;
    sign_list(turned, monomial, terms, atoms, sign);
    Turning {
        board: turned,
        marks: more,
    }
}

// The turns of all variables.
pub fn turns_marking(
    coefficient: &[i32],
    monomial: &[u64],
    terms: &[u8],
    sign: &mut [u8],
    board: Board,
    atoms: Atoms,
    marks: BothMarks,
    round: u8,
    floor: Board,
) -> Turning
    requires { let t = lent_table coefficient monomial terms board.variables in
        Ready t (sets_of board) atoms sign.old × ((0 < round) × Floored t atoms board floor) }
    ensures { let t = lent_table coefficient.entry monomial.entry terms.entry board.variables in
        TurnsMarking t atoms (sets_of board) round marks result.board result.marks sign.new }
{
    let n = board.variables;
    let mut passed = Turning { board, marks };
    for i in 0..n {
        let at = passed.board;
        let so_far = passed.marks;
        passed = turn_marking(
            coefficient,
            monomial,
            terms,
            sign,
            at,
            atoms,
            i,
            so_far,
            round,
            floor,
        );
    }
    passed
}
