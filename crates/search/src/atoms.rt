// The search over the atoms: the first in list order of which a pair of the others finds something.
// The others are the atoms of the list but that one, with their sets as they are.
ghost use Rattle.terms.specs.View.{sets_of};
ghost use Rattle.round.specs.Views.{lent_table};
ghost use Rattle.round.specs.Signing.{Ready};
ghost use Rattle.search.specs.Filled.{Filled};
ghost use Rattle.search.specs.Search.{SearchedAtoms};
ghost use Rattle.search.specs.Words.{Words};

use crate::pairs::cut_by_pairs;
use crate::silent::silenced;
use crate::words::words_of;
use round::list::many;
use signs::SignSet;
use table::Atoms;
use terms::Board;

// Whether a pair found something of an atom, and the atoms that this leaves.
// kept: a public type, whose parts the contracts and the crates above name; what is left is there also where nothing was found.
#[derive(Clone, Copy)]
pub struct OfAtoms {
    pub found: bool,
    pub atoms: Atoms,
}

// The first atom of which a pair of the others finds something, if there is one; the words of the atoms are lent.
fn search_atoms_by(
    coefficient: &[i32],
    monomial: &[u64],
    terms: &[u8],
    sign: &[u8],
    masks: &[u64],
    columns: &[u64],
    falls: bool,
    board: Board,
    atoms: Atoms,
) -> OfAtoms
    requires ready { let t = lent_table coefficient monomial terms board.variables in
        Ready t (sets_of board) atoms sign.now × Filled (sets_of board) }
    requires words { Words coefficient.now monomial.now terms.now sign.now atoms masks.now columns.now falls }
    ensures { let t = lent_table coefficient.entry monomial.entry terms.entry board.variables in
        SearchedAtoms t board atoms result }
{
    for i in 0..many(atoms.count) {
        let number = atoms.number[i];
        let set = atoms.set[i];
        let k = (number % 64) as usize;
        let rest = silenced(atoms, i);
        let cut = cut_by_pairs(
            coefficient,
            monomial,
            terms,
            sign,
            masks,
            columns,
            falls,
            board,
            rest,
            k,
            SignSet(set),
            false,
        );
        if cut.0 != set {
            let mut narrowed = atoms;
            narrowed.set[i] = cut.0;
            return OfAtoms {
                found: true,
                atoms: narrowed,
            };
        }
    }
    OfAtoms {
        found: false,
        atoms,
    }
}

// The same. The words are worked out if some atom has two others.
pub fn search_atoms(
    coefficient: &[i32],
    monomial: &[u64],
    terms: &[u8],
    sign: &[u8],
    board: Board,
    atoms: Atoms,
) -> OfAtoms
    requires { let t = lent_table coefficient monomial terms board.variables in
        Ready t (sets_of board) atoms sign.now × Filled (sets_of board) }
    ensures { let t = lent_table coefficient.entry monomial.entry terms.entry board.variables in
        SearchedAtoms t board atoms result }
{
    if atoms.count < 3 {
        return OfAtoms {
            found: false,
            atoms,
        };
    }
    let mut masks = [0u64; 128];
    let mut columns = [0u64; 130];
    let falls = words_of(
        coefficient,
        monomial,
        terms,
        sign,
        atoms,
        &mut masks,
        &mut columns,
    );
    search_atoms_by(
        coefficient,
        monomial,
        terms,
        sign,
        &masks,
        &columns,
        falls,
        board,
        atoms,
    )
}
