// Request #112: "A small reader for this exact text gives back the formula": a script to the block that it is the script of.
// Each function reads what the definition of its name in the book does, and stops where it stops.

#![tactic(auto)]

ghost use Rattle.std.specs.Prelude.{◌≡◌};
ghost use Rattle.rules.specs.Block.{Block, edition1, write_block};
ghost use Rattle.block.specs.Held.{held_by, BlockRoom};
ghost use Rattle.writer.specs.Written.{Writable, SomeWritable};
ghost use Rattle.convert.specs.Converted.{Finishes};
ghost use Rattle.rules.specs.Reading.{read_text};
ghost use Rattle.script_back.specs.Refusals.{number_of, position_of};
ghost use Rattle.script_back.specs.declared.Refusal.TheVariants.{Stopped as StoppedAt, NotFinished as Unfinished};
ghost use Rattle.script_back.specs.Back.{GivesBack, reading_of};

use block::Held;
use convert::to_edition1;
use script_polynomial::Stop;
use whole_script::read_into;
use writer::write;

mod declarations; // from the logic to the assertion
pub mod exported; // the entry for C
mod opening; // what a node begins with
mod runs; // bytes that must stand at a position
mod tree; // nodes and their children
mod whole_script; // the root, the end, the whole text

// Why a text gives no block.
#[derive(Clone, Copy, Debug, PartialEq, Eq)]
pub enum Refusal {
    // 25: "with the position of the first byte at which no such text goes on"
    Stopped(Stop),
    // the converter's: 1 if the output is shorter than the finished block
    NotFinished(convert::Refusal),
}

impl Refusal {
    // The number that the documents give it.
    pub fn number(self) -> u8
        ensures { result ≡ number_of self }
    {
        match self {
            Refusal::Stopped(_) => 25,
            Refusal::NotFinished(refusal) => refusal.number(),
        }
    }

    // Where the text stopped; 0 if it was read and its block is not finished.
    pub fn position(self) -> usize
        ensures { result ≡ position_of self }
    {
        match self {
            Refusal::Stopped(stop) => stop.at,
            Refusal::NotFinished(_) => 0,
        }
    }
}

impl From<Stop> for Refusal {
    ghost from_gives = { λ stop given. given ≡ StoppedAt stop };

    fn from(stop: Stop) -> Refusal {
        Refusal::Stopped(stop)
    }
}

impl From<convert::Refusal> for Refusal {
    ghost from_gives = { λ refusal given. given ≡ Unfinished refusal };

    fn from(refusal: convert::Refusal) -> Refusal {
        Refusal::NotFinished(refusal)
    }
}

// Reads a script: every text is read, or stops somewhere. What the block holds is given as `block::read` gives it.
pub fn read_script(text: &[u8]) -> Result<Held, Stop>
    ensures { result ≡ reading_of (read_text text.now) }
{
    let mut coefficient = [0i32; 1024];
    let mut monomial = [0u64; 1024];
    let mut terms = [0u8; 64];
    let mut token = [0u32; 255];
    let script = read_into(
        text,
        &mut coefficient,
        &mut monomial,
        &mut terms,
        &mut token,
    )?;
    Ok(Held {
        variables: script.variables,
        polynomials: script.polynomials,
        root: script.root,
        tokens: script.tokens,
        coefficient,
        monomial,
        terms,
        token,
    })
}

// Writes the block that the arrays hold, in edition 1, if the output has room for it. It is written apart first; the longest block has 21,516 bytes.
fn put_block(
    variables: usize,
    polynomials: usize,
    root: u8,
    tokens: usize,
    coefficient: &[i32],
    monomial: &[u64],
    terms: &[u8],
    token: &[u32],
    output: &mut [u8],
) -> Result<usize, convert::Refusal>
    requires { BlockRoom coefficient.now monomial.now terms.now token.now
        × SomeWritable 1 (held_by variables polynomials root tokens coefficient.now monomial.now terms.now token.now) 21516 }
    ensures { (block : Block) → Writable 1 (held_by variables polynomials root tokens coefficient.now monomial.now
        terms.now token.now) 21516 block
        → Finishes (write_block edition1 block) output.old output.new result }
{
    let mut finished = [0u8; 21516];
    let size = write(
        1,
        variables,
        polynomials,
        root,
        tokens,
        coefficient,
        monomial,
        terms,
        token,
        &mut finished,
    );
    to_edition1(&finished[..size], output)
}

// Reads a script and writes its block, in edition 1, to the output's first bytes: it is finished, or refused by 1.
pub fn block_of(text: &[u8], output: &mut [u8]) -> Result<usize, Refusal>
    ensures { GivesBack text.now output.old output.new result }
{
    let mut coefficient = [0i32; 1024];
    let mut monomial = [0u64; 1024];
    let mut terms = [0u8; 64];
    let mut token = [0u32; 255];
    let script = read_into(
        text,
        &mut coefficient,
        &mut monomial,
        &mut terms,
        &mut token,
    )?;
    let size = put_block(
        script.variables,
        script.polynomials,
        script.root,
        script.tokens,
        &coefficient,
        &monomial,
        &terms,
        &token,
        output,
    )?;
    Ok(size)
}
