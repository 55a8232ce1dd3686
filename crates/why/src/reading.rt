// From the bytes of a block to the records of its atoms, by value. 02, #106: "takes a block whose root is an AND of atoms only (a root atom is one)".
ghost use Rattle.std.specs.Prelude.{◌≡◌, Err, List, ℕ, ◌≤◌, length, take, drop};
ghost use Rattle.block.specs.Held.{held_by};
ghost use Rattle.rules.specs.Reasons.{reasons, why as why_book};
ghost use Rattle.reasons.specs.Records.{Tells as TellsReasons};
ghost use Rattle.why.specs.Flat.{all_atoms as all_atoms_of, behind_root as behind_root_of, and_of_atoms as and_of_atoms_of};
ghost use Rattle.why.specs.Entry.{Tells, Taken, TakenSome};
ghost use Rattle.why.specs.Way.{atoms_read, AndSome};

use crate::{Refusal, Told};
use block::read_into;
use forms::{normal_tokens, work};
use places::give;
use reasons::{Found, refused, tell_all};
use tape::rows::part;

fn refuse(refusal: Refusal) -> Told
    ensures { (result.outcome ≡ Err refusal) × (result.found.count ≡ 0) }
{
    let found = refused(0);
    Told {
        found,
        outcome: Err(refusal),
    }
}

// How many tokens stand before those of the children: the root's, unless it is an atom.
fn behind_root(root: u8) -> usize
    ensures { result ≡ behind_root_of root }
{
    if root == 0 {
        return 0;
    }
    1
}

// Whether the tokens from a place up to another are atoms' only.
fn all_atoms(token: &[u32], from: usize, count: usize) -> bool
    requires { count ≤ length token.now }
    ensures { result ≡ all_atoms_of (drop from (take count token.now)) }
{
    for i in from..count {
        let t = token[i];
        if 16777216 <= t {
            return false;
        }
    }
    true
}

// Whether the root is an AND of atoms, or an atom.
fn and_of_atoms(token: &[u32], root: u8, count: usize) -> bool
    requires { count ≤ length token.now }
    ensures { result ≡ and_of_atoms_of root (take count token.now) }
{
    if root == 2 {
        return false;
    }
    all_atoms(token, behind_root(root), count)
}

// The records of the atoms of a block whose root is an AND of them: their tokens, brought to normal form and given their places, stand behind the
// root's.
fn records_of(
    variables: usize,
    polynomials: usize,
    root: u8,
    count: usize,
    coefficient: &[i32],
    monomial: &[u64],
    terms: &[u8],
    token: &mut [u32],
) -> Found
    requires { AndSome (held_by variables polynomials root count coefficient.now monomial.now terms.now token.old) }
    ensures { (bytes : List ℕ) (taken : Taken bytes (held_by variables polynomials root count coefficient.now monomial.now
        terms.now token.old)) → TellsReasons result (reasons variables (atoms_read taken.given)) }
{
    let mut form_coefficient = [0i32; 1280];
    let mut form_monomial = [0u64; 1280];
    let mut form_terms = [0u8; 81];
    let mut number = [0u8; 64];
    let mut turned = [false; 64];
    work(
        coefficient,
        monomial,
        terms,
        polynomials,
        variables,
        &mut form_coefficient,
        &mut form_monomial,
        &mut form_terms,
        &mut number,
        &mut turned,
    );
    normal_tokens(token, count, &number, &turned);
    give(token, count);
    let given = part(token, behind_root(root), count);
    tell_all(
        &form_coefficient,
        &form_monomial,
        &form_terms,
        variables,
        given,
    )
}

// What is told of a block that was read.
fn explain(
    variables: usize,
    polynomials: usize,
    root: u8,
    count: usize,
    coefficient: &[i32],
    monomial: &[u64],
    terms: &[u8],
    token: &mut [u32],
    room: usize,
) -> Told
    requires { TakenSome (held_by variables polynomials root count coefficient.now monomial.now terms.now token.old) }
    ensures { (bytes : List ℕ) → Taken bytes (held_by variables polynomials root count coefficient.now monomial.now terms.now
        token.old) → Tells room (why_book room bytes) result }
{
    if !and_of_atoms(token, root, count) {
        return refuse(Refusal::NotAndOfAtoms);
    }
    let atoms = count - behind_root(root);
    if room < atoms {
        return refuse(Refusal::RecordsShort);
    }
    let found = records_of(
        variables,
        polynomials,
        root,
        count,
        coefficient,
        monomial,
        terms,
        token,
    );
    Told {
        found,
        outcome: Ok(atoms),
    }
}

// What is told of an input, with room for so many records.
pub fn explained(input: &[u8], room: usize) -> Told
    ensures { Tells room (why_book room input.now) result }
{
    let mut coefficient = [0i32; 1024];
    let mut monomial = [0u64; 1024];
    let mut terms = [0u8; 64];
    let mut token = [0u32; 255];
    let contents = read_into(
        input,
        &mut coefficient,
        &mut monomial,
        &mut terms,
        &mut token,
    );
    match contents {
        Err(refusal) => refuse(Refusal::Block(refusal)),
        Ok(held) => explain(
            held.variables,
            held.polynomials,
            held.root,
            held.tokens,
            &coefficient,
            &monomial,
            &terms,
            &mut token,
            room,
        ),
    }
}
