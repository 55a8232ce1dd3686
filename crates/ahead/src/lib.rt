// Turns of the variables ahead of the rounds: all of them in one direction, then in the other, until a pass changes nothing.
// What the rounds come to does not depend on the order of the turns (crate turn_laws). What x_1 learns of x_9 by way of the variables between them
// takes a round for each in document 01's order, and here one pass.

#![tactic(auto)]

ghost use Rattle.std.specs.Prelude.{◌≡◌, ◌+◌, ◌<◌, ◌≤◌, length, false, IfSome};
ghost use Rattle.terms.specs.View.{sets_of};
ghost use Rattle.table.specs.Table.{Forms, atom_at, atoms_of, many as many_of};
ghost use Rattle.rules.specs.Polynomial.{variable};
ghost use Rattle.rules.specs.Deduce.{any_empty as any_empty_of, deduce as deduce_of};
ghost use Rattle.turn_laws.specs.AfterTurns.{Floor};
ghost use Rattle.round.specs.Views.{lent_table};
ghost use Rattle.round.specs.Signing.{Ready};
ghost use Rattle.round.specs.Floors.{FloorAt};
ghost use Rattle.ahead.specs.Ahead.{place_of, Stepped, Reached, Ahead};

use deduce::any_empty;
use engines::{deduce_alone, deduce_from};
use round::list::many;
use round::round::turned_set;
use round::slots::{places, sign_list, sign_slot};
use signs::SignSet;
use table::Atoms;
use terms::Board;

// Variables in the order of their turns, each with the slot of an atom that narrowed its set. It may be any: no promise goes by it, the cost alone.
#[derive(Clone, Copy)]
pub struct Order {
    pub count: usize,
    pub variable: [u8; 64],
    pub slot: [u8; 64],
}

// The board that turns have left, whether they left every set as it was, and the variables whose turns did not.
#[derive(Clone, Copy)]
pub struct Passed {
    pub board: Board,
    pub still: bool,
    pub order: Order,
}

// No variable.
pub fn no_order() -> Order
    ensures { result.count ≡ 0 }
{
    Order {
        count: 0,
        variable: [0; 64],
        slot: [0; 64],
    }
}

// One variable more, as long as there is room.
fn then(order: Order, i: usize, by: u8) -> Order
    ensures { result.count ≤ order.count + 1 }
{
    let count = order.count;
    if 64 <= count {
        return order;
    }
    let mut more = order;
    more.variable[count] = (i % 16) as u8;
    more.slot[count] = by;
    more.count = count + 1;
    more
}

// Which of n variables has the turn after i others: up from the first one, or down from the last one.
fn place(up: bool, n: usize, i: usize) -> usize
    requires { i < n }
    ensures { result ≡ place_of up n i }
{
    if up { i } else { n - 1 - i }
}

// The slot of the first atom whose deduction cuts variable i's set.
fn cause(
    coefficient: &[i32],
    monomial: &[u64],
    terms: &[u8],
    sign: &[u8],
    board: Board,
    atoms: Atoms,
    i: usize,
    set: SignSet,
) -> u8
    requires { let t = lent_table coefficient monomial terms board.variables in
        Ready t (sets_of board) atoms sign.now × (i < board.variables) }
    ensures { result < 64 }
{
    let n = many(atoms.count);
    let p = places(terms, 64 + i);
    for j in 0..n {
        let slot = atoms.number[j] % 64;
        let q = places(terms, slot as usize);
        let found = deduce_from(
            coefficient,
            monomial,
            terms,
            sign,
            p,
            q,
            SignSet(atoms.set[j]),
        );
        if set.intersect(found).0 != set.0 {
            return slot;
        }
    }
    0
}

// Variable i's turn. It does not go below the floor.
fn step(
    coefficient: &[i32],
    monomial: &[u64],
    terms: &[u8],
    sign: &mut [u8],
    passed: Passed,
    atoms: Atoms,
    floor: Board,
    i: usize,
) -> Passed
    requires { let b = passed.board in
        let t = lent_table coefficient monomial terms b.variables in
        Ready t (sets_of b) atoms sign.old × ((i < b.variables) × FloorAt t atoms b floor i) }
    ensures { let t = lent_table coefficient.entry monomial.entry terms.entry passed.board.variables in
        Stepped t atoms passed i result sign.new }
{
    let board = passed.board;
    let Some(new) = turned_set(coefficient, monomial, terms, sign, board, atoms, i, floor) else {
        return passed;
    };
    let old = board.sets[i];
    let by = cause(
        coefficient,
        monomial,
        terms,
        sign,
        board,
        atoms,
        i,
        SignSet(old),
    );
    let so_far = passed.order;
    let order = then(so_far, i, by);
    let mut turned = board;
    turned.sets[i] = new.0;
    sign_list(turned, monomial, terms, atoms, sign);
    Passed {
        board: turned,
        still: false,
        order,
    }
}

// The turns of all variables in one direction.
fn pass(
    coefficient: &[i32],
    monomial: &[u64],
    terms: &[u8],
    sign: &mut [u8],
    board: Board,
    atoms: Atoms,
    floor: Board,
    order: Order,
    up: bool,
) -> Passed
    requires { let t = lent_table coefficient monomial terms board.variables in
        Ready t (sets_of board) atoms sign.old
        × ((floor.variables ≡ board.variables) × Floor board.variables (atoms_of t atoms) (sets_of board) (sets_of floor)) }
    ensures { let t = lent_table coefficient.entry monomial.entry terms.entry board.variables in
        Ahead t atoms board result sign.new }
{
    let n = board.variables;
    let mut passed = Passed {
        board,
        still: true,
        order,
    };
    for i in 0..n {
        let j = place(up, n, i);
        passed = step(coefficient, monomial, terms, sign, passed, atoms, floor, j);
    }
    passed
}

// ---- the turns of an order, each in part: by the one atom that is named

// The index of the first atom of a slot, if there is one.
fn find(atoms: Atoms, slot: u8) -> Option<usize>
    ensures { IfSome result (λ j. j < many_of atoms.count) }
{
    let n = many(atoms.count);
    atoms.number[..n]
        .iter()
        .position(|number| number % 64 == slot)
}

// What atom j says of variable i, where only the signs that this takes are worked out.
fn deduced(
    coefficient: &[i32],
    monomial: &[u64],
    terms: &[u8],
    sign: &mut [u8],
    board: Board,
    atoms: Atoms,
    i: usize,
    j: usize,
) -> SignSet
    requires { let t = lent_table coefficient monomial terms board.variables in
        Forms t × ((length sign.old ≡ 1280) × ((i < board.variables) × (j < many_of atoms.count))) }
    ensures { let t = lent_table coefficient.entry monomial.entry terms.entry board.variables in
        (any_empty_of (sets_of board) ≡ false → result.0 ≡ deduce_of (sets_of board) (variable board.variables i) (atom_at t atoms.number atoms.set j)) }
{
    let number = atoms.number[j];
    let held = atoms.set[j];
    let k = (number % 64) as usize;
    let p = places(terms, 64 + i);
    let q = places(terms, k);
    sign_slot(board, monomial, terms, sign, 64 + i);
    sign_slot(board, monomial, terms, sign, k);
    deduce_alone(coefficient, monomial, terms, sign, p, q, SignSet(held))
}

// Variable i's set cut by what the atom of a slot says of it, if there are such a variable and such an atom and the set is above the floor.
fn hint(
    coefficient: &[i32],
    monomial: &[u64],
    terms: &[u8],
    sign: &mut [u8],
    board: Board,
    atoms: Atoms,
    floor: Board,
    i: usize,
    slot: u8,
) -> Board
    requires { let t = lent_table coefficient monomial terms board.variables in
        Forms t × (length sign.old ≡ 1280) }
    ensures { let t = lent_table coefficient.entry monomial.entry terms.entry board.variables in
        Reached t atoms board result }
{
    if board.variables <= i {
        return board;
    }
    let Some(j) = find(atoms, slot) else {
        return board;
    };
    let old = board.sets[i];
    let lowest = floor.sets[i];
    if old == lowest {
        return board;
    }
    if any_empty(board) {
        return board;
    }
    let found = deduced(coefficient, monomial, terms, sign, board, atoms, i, j);
    let new = SignSet(old).intersect(found);
    let mut narrowed = board;
    narrowed.sets[i] = new.0;
    narrowed
}

// The turns of an order.
fn replay(
    coefficient: &[i32],
    monomial: &[u64],
    terms: &[u8],
    sign: &mut [u8],
    board: Board,
    atoms: Atoms,
    floor: Board,
    order: Order,
) -> Board
    requires { let t = lent_table coefficient monomial terms board.variables in
        Forms t × (length sign.old ≡ 1280) }
    ensures { let t = lent_table coefficient.entry monomial.entry terms.entry board.variables in
        Reached t atoms board result }
{
    let end = many(order.count);
    let mut at = board;
    for k in 0..end {
        let i = order.variable[k] as usize;
        at = hint(
            coefficient,
            monomial,
            terms,
            sign,
            at,
            atoms,
            floor,
            i,
            order.slot[k],
        );
    }
    at
}

// ---- all of them

// The turns of an order first, each in part, then passes, two down, two up, and so on, until one changes nothing, or until as many are over as a board of so many
// variables can change its sets. What is lent for the signs is room: they are worked out here.
pub fn ahead(
    coefficient: &[i32],
    monomial: &[u64],
    terms: &[u8],
    sign: &mut [u8],
    board: Board,
    atoms: Atoms,
    floor: Board,
    order: Order,
) -> Passed
    requires { let t = lent_table coefficient monomial terms board.variables in
        Forms t × ((length sign.old ≡ 1280)
        × ((floor.variables ≡ board.variables) × Floor board.variables (atoms_of t atoms) (sets_of board) (sets_of floor))) }
    ensures { let t = lent_table coefficient.entry monomial.entry terms.entry board.variables in
        Ahead t atoms board result sign.new }
{
    let most = 2 * board.variables + 1;
    let reached = replay(
        coefficient,
        monomial,
        terms,
        sign,
        board,
        atoms,
        floor,
        order,
    );
    sign_list(reached, monomial, terms, atoms, sign);
    let mut passed = Passed {
        board: reached,
        still: false,
        order,
    };
    for made in 0..most {
        let up = made / 2 % 2 == 1;
        let at = passed.board;
        let so_far = passed.order;
        passed = pass(
            coefficient,
            monomial,
            terms,
            sign,
            at,
            atoms,
            floor,
            so_far,
            up,
        );
        if passed.still {
            return passed;
        }
    }
    let at = passed.board;
    let so_far = passed.order;
    Passed {
        board: at,
        still: false,
        order: so_far,
    }
}
