// Which atoms the cuts of a common run rest on: for the slot of each, the first round in which one does.
ghost use Rattle.std.specs.Prelude.{◌≡◌, ◌<◌};
ghost use Rattle.common_run.specs.Marks.{marked_by, MarkedAt};

// The first round, from 1, in which a cut rests on the atom of each slot; 0 where none does.
#[derive(Clone, Copy)]
pub struct Marks {
    pub first: [u8; 64],
}

// No slot is marked.
pub fn no_marks() -> Marks {
    Marks { first: [0; 64] }
}

// Of the atoms that the cuts rest on, which suffice for them; and of those that a cut needs: without the atom alone it would be another one.
#[derive(Clone, Copy)]
pub struct BothMarks {
    pub resting: Marks,
    pub needed: Marks,
}

pub fn no_marks_at_all() -> BothMarks {
    BothMarks {
        resting: no_marks(),
        needed: no_marks(),
    }
}

// Whether a mark is of one of the rounds 1 to round.
fn noted(mark: u8, round: u8) -> bool
    ensures { result ≡ marked_by mark round }
{
    if mark == 0 {
        return false;
    }
    mark <= round
}

// Slot k marked with the round, if an atom in it has changed a set and no earlier round has marked it.
pub fn marked(marks: Marks, before: u8, after: u8, k: usize, round: u8) -> Marks
    requires { (k < 64) × (0 < round) }
    ensures { MarkedAt marks.first before after k round result.first }
{
    if before == after {
        return marks;
    }
    let old = marks.first[k];
    if noted(old, round) {
        return marks;
    }
    let mut next = marks;
    next.first[k] = round;
    next
}
