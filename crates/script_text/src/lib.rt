// Request #112: the script of a block that arrays hold, stored in a lent text as far as it reaches.
// Each function writes what the definition of its name says; a text that is too short for the script is only measured.

#![tactic(auto)]

ghost use Rattle.std.specs.Prelude.{◌+◌, ◌*◌, ◌/◌, ◌%◌, ◌<◌, ◌≤◌, List, length, get_or};
ghost use Rattle.rules.specs.Polynomial.{Polynomial};
ghost use Rattle.rules.specs.Formula.{Parts, leaf};
ghost use Rattle.rules.specs.Block.{NumberedAtom, Block};
ghost use Rattle.rules.specs.Answer.{formula_of};
ghost use Rattle.lines.specs.Written.{Wrote};
ghost use Rattle.rules.specs.Text.{opening, closing, node_text, root_text, declarations, script_of};
ghost use Rattle.script_text.specs.Runs.{Fits};
ghost use Rattle.script_text.specs.Tree.{stored_at, Terms, join_text, none_text, Ahead, SomeAhead, PartsPut, Stands, SomeStands, SomeRoot};

pub mod polynomials; // terms and polynomials
mod runs; // bytes, numbers, powers

use polynomials::put_polynomial;
use runs::{put_byte, put_bytes};

// A token below this is an atom's: its polynomial's number times eight and its set. Any other is that of an AND or an OR.
const JOIN: u32 = 16777216;

// How far the writer is: the next byte, and the next token.
#[derive(Clone, Copy)]
struct Spot {
    at: usize,
    k: usize,
}

// What stands before the polynomial of an atom with this set: "≠ is the negation of an equality".
fn put_opening(text: &mut [u8], at: usize, set: u32) -> usize
    requires { Fits at (opening set) }
    ensures { Wrote text.old text.new at (opening set) result }
{
    match set {
        0 => at,
        1 => put_bytes(text, at, b"(> "),
        2 => put_bytes(text, at, b"(= "),
        3 => put_bytes(text, at, b"(>= "),
        4 => put_bytes(text, at, b"(< "),
        5 => put_bytes(text, at, b"(not (= "),
        _ => put_bytes(text, at, b"(<= "),
    }
}

// And what stands behind it and a space.
fn put_closing(text: &mut [u8], at: usize, set: u32) -> usize
    requires { Fits at (closing set) }
    ensures { Wrote text.old text.new at (closing set) result }
{
    match set {
        0 => at,
        5 => put_bytes(text, at, b"0))"),
        _ => put_bytes(text, at, b"0)"),
    }
}

// The atom of a token.
fn put_atom(
    text: &mut [u8],
    coefficient: &[i32],
    monomial: &[u64],
    terms: &[u8],
    at: usize,
    n: usize,
    token: u32,
) -> usize
    requires { (n ≤ 16) × (token / 8 < length terms.now)
        × Terms coefficient.now monomial.now (16 * (token / 8)) (get_or terms.now (token / 8) 0)
        × Fits at (node_text n (leaf (stored_at coefficient.now monomial.now terms.now (token / 8) (token % 8)))) }
    ensures { Wrote text.old text.new at
        (node_text n (leaf (stored_at coefficient.now monomial.now terms.now (token / 8) (token % 8)))) result }
{
    let number = (token / 8) as usize;
    let count = terms[number] as usize;
    let polynomial = put_opening(text, at, token % 8);
    let space = put_polynomial(
        text,
        coefficient,
        monomial,
        polynomial,
        n,
        16 * number,
        count,
    );
    let end = put_byte(text, space, b' ');
    put_closing(text, end, token % 8)
}

// What an AND or an OR begins with: 1 is AND, 2 is OR.
fn put_join(text: &mut [u8], at: usize, kind: u8) -> usize
    requires { Fits at (join_text kind) }
    ensures { Wrote text.old text.new at (join_text kind) result }
{
    if kind == 1 {
        return put_bytes(text, at, b"(and");
    }
    put_bytes(text, at, b"(or")
}

// So many nodes from the token k on, each behind a space; those of them that are an AND or OR are of that kind, and their children of the other.
fn put_parts(
    text: &mut [u8],
    coefficient: &[i32],
    monomial: &[u64],
    terms: &[u8],
    token: &[u32],
    at: usize,
    n: usize,
    k: usize,
    count: usize,
    kind: u8,
) -> Spot
    requires { SomeAhead n coefficient.now monomial.now terms.now token.now kind k count at }
    ensures { (table : List Polynomial) (parts : Parts NumberedAtom)
        → Ahead n coefficient.now monomial.now terms.now token.now kind k count table parts
        → PartsPut n table text.old text.new at parts k result }
{
    if count == 0 {
        return Spot { at, k };
    }
    let first = token[k];
    let start = put_byte(text, at, b' ');
    if first < JOIN {
        let next = put_atom(text, coefficient, monomial, terms, start, n, first);
        return put_parts(
            text,
            coefficient,
            monomial,
            terms,
            token,
            next,
            n,
            k + 1,
            count - 1,
            kind,
        );
    }
    let children = first - JOIN;
    let kids = put_join(text, start, kind);
    let inner = put_parts(
        text,
        coefficient,
        monomial,
        terms,
        token,
        kids,
        n,
        k + 1,
        children as usize,
        3 - kind,
    );
    let next = put_byte(text, inner.at, b')');
    put_parts(
        text,
        coefficient,
        monomial,
        terms,
        token,
        next,
        n,
        inner.k,
        count - 1,
        kind,
    )
}

// "ALWAYS and UNSATISFIABLE are true and false": an AND or an OR of none.
fn put_none(text: &mut [u8], at: usize, kind: u8) -> usize
    requires { Fits at (none_text kind) }
    ensures { Wrote text.old text.new at (none_text kind) result }
{
    if kind == 1 {
        return put_bytes(text, at, b"true");
    }
    put_bytes(text, at, b"false")
}

// The root of the tree.
fn put_root(
    text: &mut [u8],
    coefficient: &[i32],
    monomial: &[u64],
    terms: &[u8],
    token: &[u32],
    at: usize,
    n: usize,
    root: u8,
) -> usize
    requires { SomeRoot n root coefficient.now monomial.now terms.now token.now at }
    ensures { (block : Block) → Stands n root coefficient.now monomial.now terms.now token.now block
        → Wrote text.old text.new at (root_text n (formula_of block)) result }
{
    let first = token[0];
    if first < JOIN {
        return put_atom(text, coefficient, monomial, terms, at, n, first);
    }
    let children = first - JOIN;
    if children == 0 {
        return put_none(text, at, root);
    }
    let kids = put_join(text, at, root);
    let end = put_parts(
        text,
        coefficient,
        monomial,
        terms,
        token,
        kids,
        n,
        1,
        children as usize,
        3 - root,
    );
    put_byte(text, end.at, b')')
}

// "one declaration for each variable": those from number i on, of which there are so many.
fn put_declarations(text: &mut [u8], at: usize, i: u8, count: usize) -> usize
    requires { (i + count ≤ 16) × Fits at (declarations i count) }
    ensures { Wrote text.old text.new at (declarations i count) result }
{
    if count == 0 {
        return at;
    }
    let letter = put_bytes(text, at, b"(declare-fun ");
    let rest = put_byte(text, letter, 97 + i);
    let next = put_bytes(text, rest, b" () Int)\n");
    put_declarations(text, next, i + 1, count - 1)
}

// The script of the block that the arrays hold, stored in the text as far as it reaches; its length.
pub fn put_script(
    variables: usize,
    root: u8,
    coefficient: &[i32],
    monomial: &[u64],
    terms: &[u8],
    token: &[u32],
    text: &mut [u8],
) -> usize
    requires { SomeStands variables root coefficient.now monomial.now terms.now token.now }
    ensures { (block : Block) → Stands variables root coefficient.now monomial.now terms.now token.now block
        → Wrote text.old text.new 0 (script_of block) result }
{
    let declarations = put_bytes(text, 0, b"(set-logic QF_NIA)\n");
    let assertion = put_declarations(text, declarations, 0, variables);
    let tree = put_bytes(text, assertion, b"(assert ");
    let end = put_root(
        text,
        coefficient,
        monomial,
        terms,
        token,
        tree,
        variables,
        root,
    );
    put_bytes(text, end, b")\n")
}
