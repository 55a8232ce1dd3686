// Which atoms take the signs out of a set: a cut needs an atom that alone takes a sign out.
ghost use Rattle.std.specs.Prelude.{◌≡◌, ◌<◌};
ghost use Rattle.rules.specs.Signs.{Sign};
ghost use Rattle.common_run.specs.Takers.{taker_of, Taker, Taken, SoleMarked, NeededMarked};

use crate::marks::{Marks, marked};

// Of each sign: 0 where no atom takes it out, k + 1 where those of slot k alone do, 65 where those of several slots do.
#[derive(Clone, Copy)]
pub struct Takers {
    pub negative: u8,
    pub nought: u8,
    pub positive: u8,
}

pub fn no_takers() -> Takers
    ensures { (s : Sign) → taker_of result s ≡ 0 }
{
    Takers {
        negative: 0,
        nought: 0,
        positive: 0,
    }
}

// One sign, whose bit an atom of slot k leaves or changes.
fn taker(by: u8, before: u8, after: u8, k: usize) -> u8
    requires { k < 64 }
    ensures { Taker by before after k result }
{
    if before == after {
        return by;
    }
    let own = k as u8 + 1;
    if by == 0 {
        return own;
    }
    if by == own {
        return own;
    }
    65
}

// The signs that an atom of slot k takes out of a set.
pub fn taken(takers: Takers, old: u8, cut: u8, k: usize) -> Takers
    requires { k < 64 }
    ensures { Taken takers old cut k result }
{
    let negative = taker(takers.negative, old / 4 % 2, cut / 4 % 2, k);
    let nought = taker(takers.nought, old / 2 % 2, cut / 2 % 2, k);
    let positive = taker(takers.positive, old % 2, cut % 2, k);
    Takers {
        negative,
        nought,
        positive,
    }
}

// The slot marked whose atoms alone take a sign out, if there is one.
fn sole_marked(marks: Marks, by: u8, round: u8) -> Marks
    requires { 0 < round }
    ensures { SoleMarked marks.first by round result.first }
{
    if by == 0 {
        return marks;
    }
    if 64 < by {
        return marks;
    }
    marked(marks, 0, by, by as usize - 1, round)
}

// The slots marked of all signs.
pub fn needed_marked(marks: Marks, takers: Takers, round: u8) -> Marks
    requires { 0 < round }
    ensures { NeededMarked marks.first takers round result.first }
{
    let one = sole_marked(marks, takers.negative, round);
    let two = sole_marked(one, takers.nought, round);
    sole_marked(two, takers.positive, round)
}
