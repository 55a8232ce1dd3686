// A list in which an atom has the full set: it has no tries, so that the pairs are those of the others, and the list's words serve it as they are.
ghost use Rattle.std.specs.Prelude.{◌<◌};
ghost use Rattle.table.specs.Table.{many as many_of};
ghost use Rattle.search.specs.Silent.{SilencedAt};

use signs::SignSet;
use table::Atoms;

// The atom at i is silenced.
pub fn silenced(atoms: Atoms, i: usize) -> Atoms
    requires { i < many_of atoms.count }
    ensures { SilencedAt atoms i result }
{
    let mut rest = atoms;
    rest.set[i] = SignSet::FULL.0;
    rest
}
