// The words of the forms of a list's atoms, column by column (crate columns), once for a board: for p and q1 the atoms that may pass as q2 are
// worked out at once, and the pairs with all others are left out.
ghost use Rattle.std.specs.Prelude.{◌≡◌, length};
ghost use Rattle.search.specs.Noted.{NotedAtoms};

use crate::masked::mask_at;
use columns::note;
use round::list::many;
use table::Atoms;

// The columns of all atoms of a list, from their words.
pub fn note_list(atoms: Atoms, masks: &[u64], columns: &mut [u64])
    requires { (length masks.now ≡ 128) × (length columns.old ≡ 130) }
    ensures { NotedAtoms atoms masks.now columns.new }
{
    for i in 0..many(atoms.count) {
        let mask = mask_at(masks, i);
        note(mask, atoms.set[i], i, columns);
    }
}
