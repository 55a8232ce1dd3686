// The whole script: the root of the tree, its end, and that nothing stands behind it.
// What was read goes to lent arrays as `block::read_into` stores it.
ghost use Rattle.std.specs.Prelude.{◌≤◌, length};
ghost use Rattle.script_back.specs.Whole.{Blank, NoneFound, RootFound, EndFound, AssertionFound, RestFound, Lent, ScriptFound};

use crate::declarations::read_declarations;
use crate::runs::said;
use crate::tree::{Branch, Place, read_node};
use script_polynomial::Stop;
use script_polynomial::bytes::byte_at;

// The four numbers of the block that a text is the script of.
#[derive(Clone, Copy)]
pub struct Script {
    pub variables: usize,
    pub polynomials: usize,
    pub root: u8,
    pub tokens: usize,
}

// `true` or `false`: an AND or an OR of none.
fn read_none(
    text: &[u8],
    token: &mut [u32],
    at: usize,
    bytes: &[u8],
    kind: u8,
) -> Result<Branch, Stop>
    requires { (at ≤ length text.now) × (1 ≤ length token.old) }
    ensures { NoneFound text.now at bytes.now kind token.old token.new result }
{
    let next = said(text, at, bytes)?;
    token[0] = 16777216;
    let behind = Place {
        at: next,
        room: 254,
        known: 0,
        tokens: 1,
    };
    Ok(Branch { behind, kind })
}

// The root: "AND of none, OR of none, any other".
fn read_root(
    text: &[u8],
    coefficient: &mut [i32],
    monomial: &mut [u64],
    terms: &mut [u8],
    token: &mut [u32],
    at: usize,
    variables: usize,
) -> Result<Branch, Stop>
    requires { Blank variables coefficient.old monomial.old terms.old token.old × (at ≤ length text.now) }
    ensures { RootFound text.now at variables coefficient.old coefficient.new monomial.old monomial.new
        terms.old terms.new token.old token.new result }
{
    let first = byte_at(text, at);
    if first == b't' {
        return read_none(text, token, at, b"true", 1);
    }
    if first == b'f' {
        return read_none(text, token, at, b"false", 2);
    }
    let place = Place {
        at,
        room: 254,
        known: 0,
        tokens: 0,
    };
    read_node(
        text,
        coefficient,
        monomial,
        terms,
        token,
        place,
        variables,
        6,
        0,
    )
}

// The assertion's end behind the root: "a text with more behind it [stops] where the extra begins".
fn read_end(text: &[u8], place: Place, root: u8, variables: usize) -> Result<Script, Stop>
    requires { place.at ≤ length text.now }
    ensures { EndFound text.now place root variables result }
{
    let next = said(text, place.at, b")\n")?;
    if next < text.len() {
        return Err(Stop { at: next });
    }
    Ok(Script {
        variables,
        polynomials: place.known,
        root,
        tokens: place.tokens,
    })
}

// What stands behind `(assert `.
fn read_assertion(
    text: &[u8],
    coefficient: &mut [i32],
    monomial: &mut [u64],
    terms: &mut [u8],
    token: &mut [u32],
    at: usize,
    variables: usize,
) -> Result<Script, Stop>
    requires { Blank variables coefficient.old monomial.old terms.old token.old × (at ≤ length text.now) }
    ensures { AssertionFound text.now at variables coefficient.old coefficient.new monomial.old
        monomial.new terms.old terms.new token.old token.new result }
{
    let root = read_root(text, coefficient, monomial, terms, token, at, variables)?;
    read_end(text, root.behind, root.kind, variables)
}

// What stands behind the logic.
fn read_rest(
    text: &[u8],
    coefficient: &mut [i32],
    monomial: &mut [u64],
    terms: &mut [u8],
    token: &mut [u32],
    at: usize,
) -> Result<Script, Stop>
    requires { Lent coefficient.old monomial.old terms.old token.old × (at ≤ length text.now) }
    ensures { RestFound text.now at coefficient.old coefficient.new monomial.old
        monomial.new terms.old terms.new token.old token.new result }
{
    let declared = read_declarations(text, at, 0)?;
    read_assertion(
        text,
        coefficient,
        monomial,
        terms,
        token,
        declared.next,
        declared.variables,
    )
}

// Reads a script and stores what it holds over what the lent arrays hold.
pub fn read_into(
    text: &[u8],
    coefficient: &mut [i32],
    monomial: &mut [u64],
    terms: &mut [u8],
    token: &mut [u32],
) -> Result<Script, Stop>
    requires { Lent coefficient.old monomial.old terms.old token.old }
    ensures { ScriptFound text.now coefficient.old coefficient.new monomial.old
        monomial.new terms.old terms.new token.old token.new result }
{
    let next = said(text, 0, b"(set-logic QF_NIA)\n")?;
    read_rest(text, coefficient, monomial, terms, token, next)
}
