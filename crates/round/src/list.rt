// Lists of atoms: how many there are, one more at the end, the rest of another list, and the set of a polynomial that is listed.
ghost use Rattle.std.specs.Prelude.{◌≡◌, ◌++◌, ◌+◌, ◌-◌, ◌<◌, ◌≤◌};
ghost use Rattle.std.proofs.Math.Option.{none};
ghost use Rattle.rules.specs.Rounds.{listed as listed_of};
ghost use Rattle.table.specs.Table.{Table, Forms, form_at, atoms_of, many as many_of};
ghost use Rattle.round.specs.Views.{rest};
ghost use Rattle.round.specs.Listed.{Listed};

use signs::SignSet;
use table::Atoms;

// How many atoms a list counts.
pub fn many(count: usize) -> usize
    ensures { result ≡ many_of count }
{
    if count < 64 { count } else { 64 }
}

// One atom more, at the end of a list.
pub fn push(atoms: Atoms, number: u8, set: u8) -> Atoms
    requires { atoms.count < 64 }
    ensures { Listed none number set atoms result }
{
    let count = atoms.count;
    let mut more = atoms;
    more.number[count] = number;
    more.set[count] = set;
    more.count = count + 1;
    more
}

// The atoms of one list, then those of another from an index on.
pub fn joined(first: Atoms, list: Atoms, from: usize) -> Atoms
    requires { first.count + (many_of list.count - from) ≤ 64 }
    ensures { (t : Table) → atoms_of t result ≡ atoms_of t first ++ rest t list from }
{
    let end = many(list.count);
    let mut atoms = first;
    for i in from..end {
        atoms = push(atoms, list.number[i], list.set[i]);
    }
    atoms
}

// The set of the polynomial in slot number, if it is listed, else full.
pub fn listed(list: Atoms, number: usize) -> SignSet
    requires { number < 64 }
    ensures { (t : Table) → Forms t → result.0 ≡ listed_of (form_at t number) (atoms_of t list) }
{
    let end = many(list.count);
    for i in 0..end {
        let k = (list.number[i] % 64) as usize;
        if number == k {
            return SignSet(list.set[i]);
        }
    }
    SignSet::FULL
}
