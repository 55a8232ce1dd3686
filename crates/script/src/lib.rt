// Request #112: "Simplify a block and write the answer as a script". The script is measured first, then written.
// The reader's refusals come first, then 24; a refusal leaves before anything is written.

#![tactic(auto)]

ghost use Rattle.std.specs.Prelude.{◌≡◌, ◌≤◌, length};
ghost use Rattle.rules.specs.Block.{Block, read_block};
ghost use Rattle.rules.specs.Scripts.{script_within, script_read, simplified_read, script_answer};
ghost use Rattle.script_text.specs.Tree.{Stands, SomeStands};
ghost use Rattle.script.specs.Refusals.{number_of, by_number};
ghost use Rattle.script.specs.declared.Refusal.TheVariants.{Answer as NoAnswer};
ghost use Rattle.answer.specs.declared.Refusal.TheVariants.{Block as NoBlock};
ghost use Rattle.script.specs.Entry.{Tells, SomeRead, size_in, number_in as number_in_of, Exports};

use block::read_into;
use lift::simplify;
use script_text::put_script;

// Why no script is written.
#[derive(Clone, Copy, Debug, PartialEq, Eq)]
pub enum Refusal {
    // the reader's, as the simplifier gives it
    Answer(lift::Refusal),
    // 24: "the lent text buffer is shorter than the finished script"
    TextShort,
}

impl Refusal {
    // The number that the documents give it.
    pub fn number(self) -> u8
        ensures { result ≡ number_of self }
    {
        match self {
            Refusal::Answer(refusal) => refusal.number(),
            Refusal::TextShort => 24,
        }
    }
}

impl From<lift::Refusal> for Refusal {
    ghost from_gives = { λ refusal given. given ≡ NoAnswer refusal };

    fn from(refusal: lift::Refusal) -> Refusal {
        Refusal::Answer(refusal)
    }
}

impl From<block::Refusal> for Refusal {
    ghost from_gives = { λ refusal given. given ≡ NoAnswer (NoBlock refusal) };

    fn from(refusal: block::Refusal) -> Refusal {
        Refusal::Answer(lift::Refusal::Block(refusal))
    }
}

// The script of the block that the arrays hold, if it fits: "24 if the lent text buffer is shorter than the finished script". Measured first.
fn told(
    variables: usize,
    root: u8,
    coefficient: &[i32],
    monomial: &[u64],
    terms: &[u8],
    token: &[u32],
    text: &mut [u8],
) -> Result<usize, Refusal>
    requires { SomeStands variables root coefficient.now monomial.now terms.now token.now }
    ensures { (block : Block) → Stands variables root coefficient.now monomial.now terms.now token.now block
        → Tells (script_within (length text.old) block) text.old text.new result }
{
    let mut none = [0u8; 1];
    let length = put_script(
        variables,
        root,
        coefficient,
        monomial,
        terms,
        token,
        &mut none,
    );
    if text.len() < length {
        return Err(Refusal::TextShort);
    }
    put_script(variables, root, coefficient, monomial, terms, token, text);
    Ok(length)
}

// The script of a block in bytes.
pub fn script_of(block: &[u8], text: &mut [u8]) -> Result<usize, Refusal>
    ensures { Tells (script_read (length text.old) (read_block block.now)) text.old text.new result }
{
    let mut coefficient = [0i32; 1024];
    let mut monomial = [0u64; 1024];
    let mut terms = [0u8; 64];
    let mut token = [0u32; 255];
    let held = read_into(
        block,
        &mut coefficient,
        &mut monomial,
        &mut terms,
        &mut token,
    )?;
    told(
        held.variables,
        held.root,
        &coefficient,
        &monomial,
        &terms,
        &token,
        text,
    )
}

// The answer to a block that is accepted, as a script. No accepted block is as long as the output.
fn answered(input: &[u8], text: &mut [u8]) -> Result<usize, Refusal>
    requires { SomeRead input.now }
    ensures { Tells (script_read (length text.old) (simplified_read (read_block input.now))) text.old text.new result }
{
    let mut output = [0u8; 32768];
    let answer = simplify(input, &mut output)?;
    script_of(&output[..answer.length], text)
}

// Simplifies a block and writes the answer's script to the text's first bytes.
pub fn script(input: &[u8], text: &mut [u8]) -> Result<usize, Refusal>
    ensures { Tells (script_answer (length text.old) input.now) text.old text.new result }
{
    let mut coefficient = [0i32; 1024];
    let mut monomial = [0u64; 1024];
    let mut terms = [0u8; 64];
    let mut token = [0u32; 255];
    read_into(
        input,
        &mut coefficient,
        &mut monomial,
        &mut terms,
        &mut token,
    )?;
    answered(input, text)
}

// A refusal's own number, or 65,536 and the script's length.
fn number_in(outcome: Result<usize, Refusal>) -> u32
    requires { size_in (by_number outcome) ≤ 2024782 }
    ensures { result ≡ number_in_of (by_number outcome) }
{
    match outcome {
        Err(refusal) => refusal.number() as u32,
        Ok(size) => 65536 + size as u32,
    }
}

// The entry for C, declared in `include/placardpan.h` and exported by crate script_c.
pub fn placardpan_script(input: &[u8], text: &mut [u8]) -> u32
    ensures { Exports (script_answer (length text.old) input.now) text.old text.new result }
{
    let outcome = script(input, text);
    number_in(outcome)
}
