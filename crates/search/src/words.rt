// What the search asks of the forms of a list's atoms, once for the signs of a board and not once for each p: their words, the columns of
// these, and whether their monomials fall. Words and columns are lent.
ghost use Rattle.std.specs.Prelude.{◌≡◌, length};
ghost use Rattle.round.specs.Signing.{Slots};
ghost use Rattle.search.specs.Words.{Words};

use crate::falling::all_fall;
use crate::masked::mask_list;
use crate::noted::note_list;
use table::Atoms;

pub fn words_of(
    coefficient: &[i32],
    monomial: &[u64],
    terms: &[u8],
    sign: &[u8],
    atoms: Atoms,
    masks: &mut [u64],
    columns: &mut [u64],
) -> bool
    requires { Slots monomial.now terms.now sign.now × ((length coefficient.now ≡ 1280)
        × ((length masks.old ≡ 128) × (length columns.old ≡ 130))) }
    ensures { Words coefficient.now monomial.now terms.now sign.now atoms masks.new
        columns.new result }
{
    mask_list(coefficient, monomial, terms, sign, atoms, masks);
    note_list(atoms, masks, columns);
    all_fall(monomial, terms, atoms)
}
