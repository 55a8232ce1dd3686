// From the logic to the assertion: "after i declarations: `d` iff i < 16, `a` iff i ≥ 1".
ghost use Rattle.std.specs.Prelude.{true, ◌∷◌, ◌≡◌, ◌<◌, ◌≤◌, length};
ghost use Rattle.rules.specs.Text.{bytes, letter, declaration};
ghost use Rattle.script_back.specs.Runs.{Said};
ghost use Rattle.script_back.specs.Whole.{all_declared as all_declared_of, DeclaredFound};

use crate::runs::said;
use script_polynomial::Stop;
use script_polynomial::bytes::byte_at;

// How many variables are declared, and the position behind `(assert `.
#[derive(Clone, Copy)]
pub struct Declared {
    pub variables: usize,
    pub next: usize,
}

// The name of variable number i, and what stands behind it.
fn named(text: &[u8], at: usize, i: u8) -> Result<usize, Stop>
    requires { (at ≤ length text.now) × (i < 16) }
    ensures { Said text.now at (letter i ∷ bytes " () Int)\n") result }
{
    if byte_at(text, at) == 97 + i {
        return said(text, at + 1, b" () Int)\n");
    }
    Err(Stop { at })
}

// The declaration of variable number i.
fn declared_one(text: &[u8], at: usize, i: u8) -> Result<usize, Stop>
    requires { (at ≤ length text.now) × (i < 16) }
    ensures { Said text.now at (declaration i) result }
{
    let name = said(text, at, b"(declare-fun ")?;
    named(text, name, i)
}

// Whether no declaration comes behind the first i.
fn all_declared(text: &[u8], at: usize, i: u8) -> bool
    requires { at ≤ length text.now }
    ensures { result ≡ all_declared_of text.now at i }
{
    if i == 16 {
        return true;
    }
    if i == 0 {
        return false;
    }
    byte_at(text, at + 1) == b'a'
}

// The assertion's beginning behind the declarations of so many variables.
fn asserted(text: &[u8], at: usize, i: u8) -> Result<Declared, Stop>
    requires { (at ≤ length text.now) × (i ≤ 16) × (all_declared_of text.now at i ≡ true) }
    ensures { DeclaredFound text.now at i result }
{
    let next = said(text, at, b"(assert ")?;
    Ok(Declared {
        variables: i as usize,
        next,
    })
}

// The declarations behind the first i, and the assertion's beginning.
pub fn read_declarations(text: &[u8], at: usize, i: u8) -> Result<Declared, Stop>
    requires { (at ≤ length text.now) × (i ≤ 16) }
    ensures { DeclaredFound text.now at i result }
{
    if all_declared(text, at, i) {
        return asserted(text, at, i);
    }
    let next = declared_one(text, at, i)?;
    read_declarations(text, next, i + 1)
}
