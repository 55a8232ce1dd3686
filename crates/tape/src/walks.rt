// 01, "A level", steps 1 and 4: how an OR child that comes back enters its AND, and a walk over the children.
// "An atom joins the end of the atom list. An AND is spliced"; nothing left is false; else the child stays.
ghost use Rattle.std.specs.Prelude.{◌≡◌, List, [], ◌∷◌, ℕ, ◌+◌, ◌<◌, ◌≤◌, length};
ghost use Rattle.rules.specs.Level.{Formula, Walk, still, fails, joins, stays, enter, dual, complemented, parts};
ghost use Rattle.table.specs.Table.{Table};
ghost use Rattle.tape.specs.Row.{Lists};
ghost use Rattle.tape.specs.Token.{atom_of, atoms_in};
ghost use Rattle.tape.specs.Tape.{Children, child, none, laid, ors_in};
ghost use Rattle.tape.specs.Walked.{Shows, Stands, Goes, load, room};

use crate::rows::{Row, append, atoms_of, empty, push, put_child, tokens_of};
use crate::tokens::opposite;

// The parts of an AND: its atoms, and its OR children.
#[derive(Clone, Copy)]
pub struct Level {
    pub atoms: Row,
    pub ors: Row,
}

// What a walk over OR children has found so far: a false one, or the children that stay, and the atoms that joined if any child joined or was spliced.
#[derive(Clone, Copy)]
pub struct Walked {
    pub falls: bool,
    pub moved: bool,
    pub new: Row,
    pub ors: Row,
}

// A walk that has met no child.
pub fn begin() -> Walked
    ensures { (load result ≡ 0) × ((room result ≡ 0) × ((t : Table) → Stands t result (still []))) }
{
    let new = empty();
    let ors = empty();
    Walked {
        falls: false,
        moved: false,
        new: new,
        ors: ors,
    }
}

// A child that is false.
fn fallen(walked: Walked) -> Walked
    ensures { (t : Table) (walk : Walk) → Stands t walked walk → Goes t walked walk 0 result fails }
{
    let new = walked.new;
    let ors = walked.ors;
    Walked {
        falls: true,
        moved: walked.moved,
        new: new,
        ors: ors,
    }
}

// A child that is one atom, whose set the child holds complemented.
fn joined(walked: Walked, token: u32) -> Walked
    requires { walked.new.count < 256 }
    ensures { (t : Table) (walk : Walk) → Stands t walked walk → Goes t walked walk 1 result (joins (complemented (atom_of t token) ∷ []) []) }
{
    let new = walked.new;
    let ors = walked.ors;
    let longer = push(new, opposite(token));
    Walked {
        falls: walked.falls,
        moved: true,
        new: longer,
        ors: ors,
    }
}

// A child that is one AND, the only one in its row: it has so many atoms, and its ORs come after them.
fn spliced(walked: Walked, row: Row, atoms: usize) -> Walked
    requires { (atoms + 1 ≤ row.count) × ((row.count ≤ 256) × ((walked.new.count + atoms ≤ 256) × (walked.ors.count + row.count ≤ 256 + atoms + 1))) }
    ensures { (t : Table) (walk : Walk) (l : List ℕ) (own : Children) → Stands t walked walk → Lists row (laid (child l own none)) → atoms ≡ length l → Goes t walked walk row.count result (joins (atoms_in t l) (ors_in t own)) }
{
    let new = walked.new;
    let ors = walked.ors;
    let end = row.count;
    let longer = append(new, row, 1, atoms + 1);
    let wider = append(ors, row, atoms + 1, end);
    Walked {
        falls: walked.falls,
        moved: true,
        new: longer,
        ors: wider,
    }
}

// A child that stays, with two parts or more.
fn stayed(walked: Walked, atoms: Row, inner: Row) -> Walked
    requires { walked.ors.count + atoms.count + inner.count + 1 ≤ 256 }
    ensures { (t : Table) (walk : Walk) (l : List ℕ) (own : Children) → Stands t walked walk → Lists atoms l → Lists inner (laid own) → 1 < atoms.count + inner.count → Goes t walked walk (atoms.count + inner.count) result (stays (dual (parts (atoms_in t l) (ors_in t own)))) }
{
    let new = walked.new;
    let ors = walked.ors;
    let wider = put_child(ors, atoms, inner);
    Walked {
        falls: walked.falls,
        moved: walked.moved,
        new: new,
        ors: wider,
    }
}

// A child's level enters.
pub fn add(walked: Walked, level: Level) -> Walked
    requires { walked.new.count + walked.ors.count + level.atoms.count + level.ors.count + 1 ≤ 256 }
    ensures { (t : Table) (walk : Walk) (kids : Formula) → Stands t walked walk → Shows t level kids → Goes t walked walk (level.atoms.count + level.ors.count) result (enter (dual kids)) }
{
    let atoms = level.atoms;
    let ors = level.ors;
    let n = atoms.count;
    let end = ors.count;
    if n == 0 {
        if end == 0 {
            return fallen(walked);
        }
        let head = ors.token[0];
        let first = atoms_of(head);
        let inner = tokens_of(head);
        if first + inner + 1 == end {
            return spliced(walked, ors, first);
        }
    }
    if n == 1 {
        if end == 0 {
            let token = atoms.token[0];
            return joined(walked, token);
        }
    }
    stayed(walked, atoms, ors)
}
