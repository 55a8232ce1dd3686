// The slots of the working table: the normal forms of a block's polynomials, each once, fillers between them, and the variables.
// A slot is sixteen places of the arrays of terms and one place of the array of counts.
ghost use Rattle.std.specs.Prelude.{◌≡◌, ◌+◌, ◌*◌, ◌<◌, ◌≤◌, ◌++◌, length, set, take, drop};
ghost use Rattle.rules.specs.Polynomial.{same};
ghost use Rattle.terms.specs.View.{terms_from};
ghost use Rattle.forms.specs.Slots.{slot_of, Readable, normal_slots, turned_slots, Laid, same_term as same_term_of, number_of, numbered_slots, is_own as is_own_of};
ghost use Rattle.forms.specs.Slots.{filled_coefficients, filled_monomials, filled_counts, variable_coefficients, variable_monomials, variable_counts};

use normal::normalize;

// ---- the normal forms

// The coefficients of the polynomials in normal form, each in the slot of its number; of each, whether it was negated.
pub fn normalize_all(
    coefficient: &[i32],
    terms: &[u8],
    target: &mut [i32],
    turned: &mut [bool],
    polynomials: usize,
)
    requires { Readable coefficient.now terms.now polynomials × (16 * polynomials ≤ length target.old) × (polynomials ≤ length turned.old) }
    ensures { (target.new ≡ normal_slots coefficient.now terms.now target.old 0 polynomials)
        × (turned.new ≡ turned_slots coefficient.now terms.now turned.old polynomials) }
{
    for i in 0..polynomials {
        let from = 16 * i;
        let to = from + terms[i] as usize;
        turned[i] = normalize(coefficient, target, from, to);
    }
}

// The first elements of an array, copied to another.
pub fn copy<T: Copy>(source: &[T], target: &mut [T], count: usize)
    requires { (count ≤ length source.now) × (count ≤ length target.old) }
    ensures { target.new ≡ take count source.now ++ drop count target.old }
{
    target[..count].copy_from_slice(&source[..count]);
}

// ---- the numbers

// Whether the terms at two places are equal.
fn same_term(coefficient: &[i32], monomial: &[u64], first: usize, second: usize) -> bool
    requires { (first < length coefficient.now) × (second < length coefficient.now) × (first < length monomial.now) × (second < length monomial.now) }
    ensures { result ≡ same_term_of coefficient.now monomial.now first second }
{
    monomial[first] == monomial[second] && coefficient[first] == coefficient[second]
}

// Whether the terms from one place on are those from another place on, so many.
fn same_terms(
    coefficient: &[i32],
    monomial: &[u64],
    first: usize,
    second: usize,
    count: usize,
) -> bool
    requires { (first + count ≤ length coefficient.now) × (second + count ≤ length coefficient.now)
        × (first + count ≤ length monomial.now) × (second + count ≤ length monomial.now) }
    ensures { result ≡ same (terms_from coefficient.now monomial.now first count)
        (terms_from coefficient.now monomial.now second count) }
{
    for i in 0..count {
        if !same_term(coefficient, monomial, first + i, second + i) {
            return false;
        }
    }
    true
}

// "Polynomials are the same when their normal forms are equal": the forms in two slots.
fn same_form(
    coefficient: &[i32],
    monomial: &[u64],
    terms: &[u8],
    first: usize,
    second: usize,
) -> bool
    requires { Laid coefficient.now monomial.now terms.now × (first < 80) × (second < 80) }
    ensures { result ≡ same (slot_of coefficient.now monomial.now terms.now first)
        (slot_of coefficient.now monomial.now terms.now second) }
{
    let count = terms[first];
    if count != terms[second] {
        return false;
    }
    same_terms(
        coefficient,
        monomial,
        16 * first,
        16 * second,
        count as usize,
    )
}

// The first slot with the form of slot i.
fn find(coefficient: &[i32], monomial: &[u64], terms: &[u8], i: usize) -> usize
    requires { Laid coefficient.now monomial.now terms.now × (i < 80) }
    ensures { result ≡ number_of coefficient.now monomial.now terms.now i }
{
    for j in 0..i {
        if same_form(coefficient, monomial, terms, j, i) {
            return j;
        }
    }
    i
}

// The number of each polynomial: the first slot with its form.
pub fn number_all(
    coefficient: &[i32],
    monomial: &[u64],
    terms: &[u8],
    number: &mut [u8],
    polynomials: usize,
)
    requires { Laid coefficient.now monomial.now terms.now × (polynomials ≤ 64) × (polynomials ≤ length number.old) }
    ensures { number.new ≡ numbered_slots coefficient.now monomial.now terms.now number.old polynomials }
{
    for i in 0..polynomials {
        number[i] = find(coefficient, monomial, terms, i) as u8;
    }
}

// ---- fillers and variables

// Whether slot i holds a form that no slot before it holds.
fn is_own(number: &[u8], polynomials: usize, i: usize) -> bool
    requires { polynomials ≤ length number.now }
    ensures { result ≡ is_own_of number.now polynomials i }
{
    i < polynomials && number[i] as usize == i
}

// One term as all that a slot holds.
fn put_term(
    coefficient: &mut [i32],
    monomial: &mut [u64],
    terms: &mut [u8],
    slot: usize,
    factor: i32,
    powers: u64,
)
    requires { (16 * slot < length coefficient.old) × (16 * slot < length monomial.old) × (slot < length terms.old) }
    ensures { (coefficient.new ≡ set coefficient.old (16 * slot) factor)
        × (monomial.new ≡ set monomial.old (16 * slot) powers)
        × (terms.new ≡ set terms.old slot 1) }
{
    coefficient[16 * slot] = factor;
    monomial[16 * slot] = powers;
    terms[slot] = 1;
}

// A filler in each of the first 64 slots that holds no form of its own. A form of a block has no coefficient 0, so a filler is the same as no other form.
pub fn fill(
    coefficient: &mut [i32],
    monomial: &mut [u64],
    terms: &mut [u8],
    number: &[u8],
    polynomials: usize,
)
    requires { (1024 ≤ length coefficient.old) × (1024 ≤ length monomial.old) × (64 ≤ length terms.old) × (polynomials ≤ length number.now) }
    ensures { (coefficient.new ≡ filled_coefficients (is_own_of number.now polynomials) coefficient.old)
        × (monomial.new ≡ filled_monomials (is_own_of number.now polynomials) monomial.old)
        × (terms.new ≡ filled_counts (is_own_of number.now polynomials) terms.old) }
{
    for i in 0..64 {
        if !is_own(number, polynomials, i) {
            put_term(coefficient, monomial, terms, i, 0, i as u64 + 1);
        }
    }
}

// The variables, from slot 64 on: one term each, coefficient 1, the exponent 1 at the variable's four bits.
pub fn put_variables(
    coefficient: &mut [i32],
    monomial: &mut [u64],
    terms: &mut [u8],
    variables: usize,
)
    requires { (1280 ≤ length coefficient.old) × (1280 ≤ length monomial.old) × (80 ≤ length terms.old) × (variables ≤ 16) }
    ensures { (coefficient.new ≡ variable_coefficients variables coefficient.old)
        × (monomial.new ≡ variable_monomials variables monomial.old)
        × (terms.new ≡ variable_counts variables terms.old) }
{
    for i in 0..variables {
        put_term(
            coefficient,
            monomial,
            terms,
            64 + i,
            1,
            1 << (4 * (variables - 1 - i)),
        );
    }
}
