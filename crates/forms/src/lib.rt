// The working table of a block, 01 "Normal form": its polynomials in normal form, numbered so that equal forms share a number.
// An atom then names a form by its slot, and two polynomials are the same exactly if their numbers are.

#![tactic(auto)]

ghost use Rattle.std.specs.Prelude.{◌≡◌, false, ◌<◌, ◌≤◌, length};
ghost use Rattle.normal.specs.Normal.{turned_set as turned_set_of};
ghost use Rattle.forms.specs.Working.{TableRead, working_by, blank, is_plain, Worked};
ghost use Rattle.forms.specs.Tokens.{normal_token as normal_token_of, normal_tokens as normal_tokens_of};

use signs::SignSet;

mod slots;

// Eighty slots of sixteen places. Slots 0 to 63: the normal forms, each where its first polynomial stands, fillers in between. From 64 on: the variables.
#[derive(Clone, Copy)]
pub struct WorkingTable {
    pub coefficient: [i32; 1280],
    pub monomial: [u64; 1280],
    // how many terms the form in a slot has, and behind these the mark of the engine
    pub terms: [u8; 81],
    // the slot of each polynomial's normal form
    pub number: [u8; 64],
    // whether the polynomial was negated
    pub turned: [bool; 64],
}

// Makes the working table of the polynomials that the reader left in its arrays, in arrays that are lent: blank, save the engine's mark behind the counts.
pub fn work(
    coefficient: &[i32],
    monomial: &[u64],
    terms: &[u8],
    polynomials: usize,
    variables: usize,
    normal_coefficient: &mut [i32],
    normal_monomial: &mut [u64],
    normal_terms: &mut [u8],
    number: &mut [u8],
    turned: &mut [bool],
)
    requires { TableRead coefficient.now monomial.now terms.now polynomials variables
        × (working_by normal_coefficient.old normal_monomial.old normal_terms.old number.old turned.old ≡ blank (is_plain normal_terms.old)) }
    ensures { Worked (is_plain normal_terms.old) coefficient.now monomial.now terms.now polynomials variables
        (working_by normal_coefficient.new normal_monomial.new normal_terms.new number.new turned.new) }
{
    slots::normalize_all(coefficient, terms, normal_coefficient, turned, polynomials);
    slots::copy(monomial, normal_monomial, 16 * polynomials);
    slots::copy(terms, normal_terms, polynomials);
    slots::number_all(
        normal_coefficient,
        normal_monomial,
        normal_terms,
        number,
        polynomials,
    );
    slots::fill(
        normal_coefficient,
        normal_monomial,
        normal_terms,
        number,
        polynomials,
    );
    slots::put_variables(normal_coefficient, normal_monomial, normal_terms, variables);
}

// The same as a value, with the mark of the fast engine.
pub fn working(
    coefficient: &[i32],
    monomial: &[u64],
    terms: &[u8],
    polynomials: usize,
    variables: usize,
) -> WorkingTable
    requires { TableRead coefficient.now monomial.now terms.now polynomials variables }
    ensures { Worked false coefficient.now monomial.now terms.now polynomials variables result }
{
    let mut normal_coefficient = [0i32; 1280];
    let mut normal_monomial = [0u64; 1280];
    let mut normal_terms = [0u8; 81];
    let mut number = [0u8; 64];
    let mut turned = [false; 64];
    work(
        coefficient,
        monomial,
        terms,
        polynomials,
        variables,
        &mut normal_coefficient,
        &mut normal_monomial,
        &mut normal_terms,
        &mut number,
        &mut turned,
    );
    WorkingTable {
        coefficient: normal_coefficient,
        monomial: normal_monomial,
        terms: normal_terms,
        number: number,
        turned: turned,
    }
}

// ---- tokens

// "mirror the atom's set"
fn turned_set(turned: bool, set: SignSet) -> SignSet
    ensures { result.0 ≡ turned_set_of turned set.0 }
{
    if turned { set.mirror() } else { set }
}

// The token of an atom's normal form.
pub fn normal_token(token: u32, number: &[u8], turned: &[bool]) -> u32
    requires { (token < 16777216) × (length number.now ≡ 64) × (length turned.now ≡ 64) }
    ensures { result ≡ normal_token_of number.now turned.now token }
{
    let polynomial = (token / 8 % 64) as usize;
    let set = turned_set(turned[polynomial], SignSet((token % 8) as u8));
    token / 512 * 512 + (number[polynomial] as u32) * 8 + (set.0 as u32)
}

// The first tokens of a tape, each atom's brought to normal form; a node's stays.
pub fn normal_tokens(token: &mut [u32], count: usize, number: &[u8], turned: &[bool])
    requires { (count ≤ length token.old) × (length number.now ≡ 64) × (length turned.now ≡ 64) }
    ensures { token.new ≡ normal_tokens_of number.now turned.now count token.old }
{
    for i in 0..count {
        let t = token[i];
        if t < 16777216 {
            token[i] = normal_token(t, number, turned);
        }
    }
}
