// 02, #109: "a converter each way": a block of either edition is read, and what it holds is written in the edition that is asked for.
// "the converter gives 1 after all others, if the output is shorter than the finished block": a refusal leaves before anything is written.

#![tactic(auto)]

ghost use Rattle.std.specs.Prelude.{◌≡◌, length};
ghost use Rattle.rules.specs.Block.{Block, edition1, edition2, edition_number, edition_of, write_block};
ghost use Rattle.block.specs.Held.{held_by, BlockRoom};
ghost use Rattle.writer.specs.Written.{Writable, SomeWritable};
ghost use Rattle.convert.specs.Refusals.{number_of};
ghost use Rattle.convert.specs.declared.Refusal.TheVariants.{Block as BlockRefused};
ghost use Rattle.convert.specs.Converted.{Finishes, Converts};

use block::read_into;
use lines::put_bytes;
use writer::write;

pub mod exported; // the entries for C

// Why a block is not converted.
#[derive(Clone, Copy, Debug, PartialEq, Eq)]
pub enum Refusal {
    // "after all others": the output is shorter than the finished block
    OutputShort,
    // the reader's
    Block(block::Refusal),
}

impl Refusal {
    // The number that the documents give it.
    pub fn number(self) -> u8
        ensures { result ≡ number_of self }
    {
        match self {
            Refusal::OutputShort => 1,
            Refusal::Block(refusal) => refusal.number(),
        }
    }
}

impl From<block::Refusal> for Refusal {
    ghost from_gives = { λ refusal given. given ≡ BlockRefused refusal };

    fn from(refusal: block::Refusal) -> Refusal {
        Refusal::Block(refusal)
    }
}

// Writes the block that the arrays hold, in an edition, if the output has room for it. It is written apart first, so that its length is known before
// the output is touched; the longest block has 21,516 bytes.
fn finish(
    edition: u64,
    variables: usize,
    polynomials: usize,
    root: u8,
    tokens: usize,
    coefficient: &[i32],
    monomial: &[u64],
    terms: &[u8],
    token: &[u32],
    output: &mut [u8],
) -> Result<usize, Refusal>
    requires { BlockRoom coefficient.now monomial.now terms.now token.now
        × SomeWritable edition (held_by variables polynomials root tokens coefficient.now monomial.now terms.now token.now) 21516 }
    ensures { (block : Block) → Writable edition (held_by variables polynomials root tokens coefficient.now monomial.now
        terms.now token.now) 21516 block
        → Finishes (write_block (edition_of edition) block) output.old output.new result }
{
    let mut finished = [0u8; 21516];
    let size = write(
        edition,
        variables,
        polynomials,
        root,
        tokens,
        coefficient,
        monomial,
        terms,
        token,
        &mut finished,
    );
    if output.len() < size {
        return Err(Refusal::OutputShort);
    }
    put_bytes(output, 0, &finished[..size]);
    Ok(size)
}

// Reads a block and writes it in an edition.
fn converted_to(edition: u64, input: &[u8], output: &mut [u8]) -> Result<usize, Refusal>
    requires { edition ≡ edition_number (edition_of edition) }
    ensures { Converts (edition_of edition) input.now output.old output.new result }
{
    let mut coefficient = [0i32; 1024];
    let mut monomial = [0u64; 1024];
    let mut terms = [0u8; 64];
    let mut token = [0u32; 255];
    let contents = read_into(
        input,
        &mut coefficient,
        &mut monomial,
        &mut terms,
        &mut token,
    )?;
    finish(
        edition,
        contents.variables,
        contents.polynomials,
        contents.root,
        contents.tokens,
        &coefficient,
        &monomial,
        &terms,
        &token,
        output,
    )
}

// Converts a block of either edition to edition 1: every input is converted or refused.
pub fn to_edition1(input: &[u8], output: &mut [u8]) -> Result<usize, Refusal>
    ensures { Converts edition1 input.now output.old output.new result }
{
    converted_to(1, input, output)
}

// Converts a block of either edition to edition 2: every input is converted or refused.
pub fn to_edition2(input: &[u8], output: &mut [u8]) -> Result<usize, Refusal>
    ensures { Converts edition2 input.now output.old output.new result }
{
    converted_to(2, input, output)
}
