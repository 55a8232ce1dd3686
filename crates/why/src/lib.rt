// 02, #106, "Why is the clause gone?": a record for each atom of a block whose root is an AND of atoms, in records that are lent.
// Refusals: the reader's, then 19 if the root is no AND of atoms, then 20 if there are fewer records than atoms.

#![tactic(auto)]

ghost use Rattle.std.specs.Prelude.{◌≡◌, ◌++◌, ◌<◌, length, take, drop, get_or};
ghost use Rattle.rules.specs.Reasons.{why as why_book};
ghost use Rattle.reasons.specs.Records.{blank};
ghost use Rattle.why.specs.Refusals.{number_of};
ghost use Rattle.why.specs.Entry.{Tells, Fits, Answers};

use crate::reading::explained;
use reasons::{Found, Reason, record};

pub mod exported; // the entry for C
pub mod reading; // from the bytes to the records by value

// Why no record is told.
#[derive(Clone, Copy, Debug, PartialEq, Eq)]
pub enum Refusal {
    // the reader's
    Block(block::Refusal),
    // 19: "the root is not an AND of atoms"
    NotAndOfAtoms,
    // 20: "the list has fewer records than atoms"
    RecordsShort,
}

impl Refusal {
    // The number that the documents give it.
    pub fn number(self) -> u8
        ensures { result ≡ number_of self }
    {
        match self {
            Refusal::Block(refusal) => refusal.number(),
            Refusal::NotAndOfAtoms => 19,
            Refusal::RecordsShort => 20,
        }
    }
}

// What is told of a block, by value: the records, and why there are none or how many there are, as many as the block has atoms.
#[derive(Clone, Copy)]
pub struct Told {
    pub found: Found,
    pub outcome: Result<usize, Refusal>,
}

fn outcome_of(told: Told) -> Result<usize, Refusal>
    ensures { result ≡ told.outcome }
{
    told.outcome
}

// The record at an index.
fn record_at(told: Told, i: usize) -> Reason
    requires { i < 255 }
    ensures { result ≡ get_or told.found.records i blank }
{
    let found = told.found;
    record(found, i)
}

// The first of the lent records are those that are told.
fn fill(records: &mut [Reason], told: Told)
    requires { Fits told.found records.old }
    ensures { records.new ≡ take told.found.count told.found.records ++ drop told.found.count records.old }
{
    for i in 0..told.found.count {
        records[i] = record_at(told, i);
    }
}

// Fills the first of the lent records, one for each atom in order. Every input is explained or refused.
pub fn why(input: &[u8], records: &mut [Reason]) -> Result<usize, Refusal>
    ensures { Answers (why_book (length records.old) input.now) records.old records.new result }
{
    let room = records.len();
    let told = explained(input, room);
    fill(records, told);
    outcome_of(told)
}
