// The search over the variables: the first of them, from x_1 on, of which a pair of atoms finds something.
// Where it is known that no pair finds anything of a variable with a certain set, its floor's, none is tried for it.
ghost use Rattle.std.specs.Prelude.{◌≡◌, false, ◌<◌, ◌≤◌, get_or};
ghost use Rattle.rules.specs.Polynomial.{variable};
ghost use Rattle.rules.specs.TwoAtoms.{tries};
ghost use Rattle.terms.specs.View.{sets_of};
ghost use Rattle.table.specs.Table.{atoms_of};
ghost use Rattle.two_atoms.specs.Cuts.{cut_in};
ghost use Rattle.round.specs.Views.{lent_table};
ghost use Rattle.round.specs.Signing.{Ready};
ghost use Rattle.search.specs.Filled.{Filled};
ghost use Rattle.search.specs.Search.{AtFloor, Nowhere, PairsFloor, SearchedBoard};
ghost use Rattle.search.specs.Words.{Words};

use crate::pairs::cut_by_pairs;
use crate::words::words_of;
use signs::SignSet;
use table::Atoms;
use terms::Board;

// Whether a pair found something of a variable, and the board that this leaves.
// kept: a public type, whose parts the contracts and the crates above name; what is left is there also where nothing was found.
#[derive(Clone, Copy)]
pub struct OfBoard {
    pub found: bool,
    pub board: Board,
}

// A floor that no set of a board with no empty set is at.
pub fn no_floor(board: Board) -> Board
    ensures { Nowhere board result }
{
    Board {
        variables: board.variables,
        sets: [SignSet::EMPTY.0; 16],
    }
}

// Whether some variable has another set than its floor's.
fn above(board: Board, floor: Board) -> bool
    requires { board.variables ≤ 16 }
    ensures { result ≡ false → AtFloor board floor }
{
    for i in 0..board.variables {
        let set = board.sets[i];
        let low = floor.sets[i];
        if set != low {
            return true;
        }
    }
    false
}

// The set of variable i, cut by the first finding that changes it; as it is where it is the floor's.
fn cut_variable(
    coefficient: &[i32],
    monomial: &[u64],
    terms: &[u8],
    sign: &[u8],
    masks: &[u64],
    columns: &[u64],
    falls: bool,
    board: Board,
    atoms: Atoms,
    floor: Board,
    i: usize,
) -> SignSet
    requires ready { let t = lent_table coefficient monomial terms board.variables in
        Ready t (sets_of board) atoms sign.now × Filled (sets_of board) }
    requires at_floor { let t = lent_table coefficient monomial terms board.variables in
        PairsFloor board.variables (atoms_of t atoms) (sets_of board) (sets_of floor) × (floor.variables ≡ board.variables) }
    requires words { Words coefficient.now monomial.now terms.now sign.now atoms masks.now columns.now falls }
    requires i_lt_variables { i < board.variables }
    ensures { let t = lent_table coefficient.entry monomial.entry terms.entry board.variables in
        result.0 ≡ cut_in false (get_or board.sets i 0) (tries (sets_of board) (variable board.variables i) (atoms_of t atoms)) }
{
    let set = board.sets[i];
    let low = floor.sets[i];
    if set == low {
        return SignSet(set);
    }
    cut_by_pairs(
        coefficient,
        monomial,
        terms,
        sign,
        masks,
        columns,
        falls,
        board,
        atoms,
        64 + i,
        SignSet(set),
        false,
    )
}

// The first variable of which a pair finds something, if there is one; the words of the atoms are lent.
fn search_board_by(
    coefficient: &[i32],
    monomial: &[u64],
    terms: &[u8],
    sign: &[u8],
    masks: &[u64],
    columns: &[u64],
    falls: bool,
    board: Board,
    atoms: Atoms,
    floor: Board,
) -> OfBoard
    requires ready { let t = lent_table coefficient monomial terms board.variables in
        Ready t (sets_of board) atoms sign.now × Filled (sets_of board) }
    requires at_floor { let t = lent_table coefficient monomial terms board.variables in
        PairsFloor board.variables (atoms_of t atoms) (sets_of board) (sets_of floor) × (floor.variables ≡ board.variables) }
    requires words { Words coefficient.now monomial.now terms.now sign.now atoms masks.now columns.now falls }
    ensures { let t = lent_table coefficient.entry monomial.entry terms.entry board.variables in
        SearchedBoard t board atoms result }
{
    for i in 0..board.variables {
        let set = board.sets[i];
        let cut = cut_variable(
            coefficient,
            monomial,
            terms,
            sign,
            masks,
            columns,
            falls,
            board,
            atoms,
            floor,
            i,
        );
        if cut.0 != set {
            let mut narrowed = board;
            narrowed.sets[i] = cut.0;
            return OfBoard {
                found: true,
                board: narrowed,
            };
        }
    }
    OfBoard {
        found: false,
        board,
    }
}

// The same. The words are worked out if there is a pair, and a variable above its floor.
pub fn search_board(
    coefficient: &[i32],
    monomial: &[u64],
    terms: &[u8],
    sign: &[u8],
    board: Board,
    atoms: Atoms,
    floor: Board,
) -> OfBoard
    requires ready { let t = lent_table coefficient monomial terms board.variables in
        Ready t (sets_of board) atoms sign.now × Filled (sets_of board) }
    requires at_floor { let t = lent_table coefficient monomial terms board.variables in
        PairsFloor board.variables (atoms_of t atoms) (sets_of board) (sets_of floor) × (floor.variables ≡ board.variables) }
    ensures { let t = lent_table coefficient.entry monomial.entry terms.entry board.variables in
        SearchedBoard t board atoms result }
{
    if atoms.count < 2 {
        return OfBoard {
            found: false,
            board,
        };
    }
    if !above(board, floor) {
        return OfBoard {
            found: false,
            board,
        };
    }
    let mut masks = [0u64; 128];
    let mut columns = [0u64; 130];
    let falls = words_of(
        coefficient,
        monomial,
        terms,
        sign,
        atoms,
        &mut masks,
        &mut columns,
    );
    search_board_by(
        coefficient,
        monomial,
        terms,
        sign,
        &masks,
        &columns,
        falls,
        board,
        atoms,
        floor,
    )
}
