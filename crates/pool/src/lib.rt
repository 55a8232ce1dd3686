// Request #113: a pool of polynomials for a release, in words that are lent. Blocks are added by their numbers and withdrawn.
// Any words are a pool to these functions; zeros are the empty one. A refusal leaves before anything is written.

#![tactic(auto)]

ghost use Rattle.std.specs.Prelude.{◌≡◌, false, not, ◌&&◌, ◌||◌, ◌≤◌, ◌<◌, eqb, ltb, length, get_or};
ghost use Rattle.rules.specs.Block.{read_block};
ghost use Rattle.rules.specs.Pool.{count as marked, forms_listed, forms_in_use, add_block, add as add_book, unless_none, withdraw as withdraw_book};
ghost use Rattle.pool_laws.specs.Places.{new_forms as new_forms_of};
ghost use Rattle.terms.specs.View.{numbers_from};
ghost use Rattle.forms.specs.Working.{TableRead};
ghost use Rattle.pool.specs.Marks.{marks};
ghost use Rattle.pool.specs.Words.{slots_of, pool_of, all_listed, added_words, all_unlisted, withdrawn_words};
ghost use Rattle.pool.specs.Reading.{forms_in, block_from, FormRoom, Order, Blank, HoldsForms};
ghost use Rattle.pool.specs.Refusals.{number_of, told};
ghost use Rattle.pool.specs.declared.Refusal.TheVariants.{Block as BlockRefused};
ghost use Rattle.pool.specs.Entry.{Filled, Gives, entered, added_read};

pub mod exported; // the entries for C
mod listed;
mod slots;
mod words;

use block::read_into;
use forms::work;

// How many words a pool has: n, the numbers present, and 128 slots of 34 words.
pub const POOL_WORDS: usize = 4354;

// Why a call is refused.
#[derive(Clone, Copy, Debug, PartialEq, Eq)]
pub enum Refusal {
    // the reader's
    Block(block::Refusal),
    // 1: fewer words are lent than a pool has
    PoolShort,
    // 26: "block number above 31, already present on adding or absent on withdrawal"
    NumberNotAllowed,
    // 27: "variable number n differs from that of the blocks present"
    VariablesDiffer,
    // 28: "pool full"
    Full,
}

impl Refusal {
    // The number that the documents give it.
    pub fn number(self) -> u8
        ensures { result ≡ number_of self }
    {
        match self {
            Refusal::Block(refusal) => refusal.number(),
            Refusal::PoolShort => 1,
            Refusal::NumberNotAllowed => 26,
            Refusal::VariablesDiffer => 27,
            Refusal::Full => 28,
        }
    }
}

impl From<block::Refusal> for Refusal {
    ghost from_gives = { λ refusal given. given ≡ BlockRefused refusal };

    fn from(refusal: block::Refusal) -> Refusal {
        Refusal::Block(refusal)
    }
}

// How many of the listed forms the pool does not have.
fn new_forms(
    pool: &[u64],
    coefficient: &[i32],
    monomial: &[u64],
    terms: &[u8],
    order: &[u8],
    count: usize,
) -> usize
    requires { FormRoom coefficient.now monomial.now terms.now × Order order.now count }
    ensures { (result ≡ new_forms_of (forms_in_use (slots_of pool.now))
        (forms_in coefficient.now monomial.now terms.now (numbers_from order.now 0 count))) × (result ≤ count) }
{
    let mut total = 0;
    for i in 0..count {
        let slot = usize::from(order[i]);
        let size = usize::from(terms[slot]);
        if slots::find(pool, coefficient, monomial, 16 * slot, size).is_none() {
            total += 1;
        }
    }
    total
}

// Each listed form listed for a number, in order.
fn list_forms(
    pool: &mut [u64],
    number: usize,
    coefficient: &[i32],
    monomial: &[u64],
    terms: &[u8],
    order: &[u8],
    count: usize,
)
    requires { (4354 ≤ length pool.old) × (number < 32) × FormRoom coefficient.now monomial.now terms.now × Order order.now count }
    ensures { pool.new ≡ all_listed number pool.old
        (forms_in coefficient.now monomial.now terms.now (numbers_from order.now 0 count)) }
{
    for i in 0..count {
        let slot = usize::from(order[i]);
        let size = usize::from(terms[slot]);
        slots::list_form(pool, number, coefficient, monomial, 16 * slot, size);
    }
}

// "26 if the number is above 31 or present": whether a block can be added under a number.
fn is_open(present: u64, number: usize) -> bool
    ensures { result ≡ (ltb number 32 && not (get_or (marks 32 present) number false)) }
{
    if number < 32 {
        return !words::mark(present, number);
    }
    false
}

// "27 if some block is present and its n differs": whether a block of n variables can be added.
fn allows(present: u64, variables: u64, n: usize) -> bool
    ensures { result ≡ (eqb (marked (marks 32 present)) 0 || eqb n variables) }
{
    if present % 4294967296 == 0 {
        return true;
    }
    n as u64 == variables
}

// The forms that a block lists, worked out in blank arrays that are lent: their slots at the front of `order`, and how many there are.
fn forms_of(
    coefficient: &[i32],
    monomial: &[u64],
    terms: &[u8],
    polynomials: usize,
    variables: usize,
    form_coefficient: &mut [i32],
    form_monomial: &mut [u64],
    form_terms: &mut [u8],
    order: &mut [u8],
) -> usize
    requires { TableRead coefficient.now monomial.now terms.now polynomials variables
        × Blank form_coefficient.old form_monomial.old form_terms.old order.old }
    ensures { HoldsForms form_coefficient.new form_monomial.new form_terms.new order.new result
        (forms_listed (block_from variables coefficient.now monomial.now terms.now polynomials)) }
{
    let mut number = [0u8; 64];
    let mut turned = [false; 64];
    work(
        coefficient,
        monomial,
        terms,
        polynomials,
        variables,
        form_coefficient,
        form_monomial,
        form_terms,
        &mut number,
        &mut turned,
    );
    listed::listed(form_monomial, form_terms, &number, polynomials, order)
}

// The forms of a block listed for a number, and its n and its mark stored: "28 exactly if the forms in use together with the listed ones are more than
// 128", before anything is written.
fn fill(
    pool: &mut [u64],
    number: usize,
    variables: usize,
    coefficient: &[i32],
    monomial: &[u64],
    terms: &[u8],
    order: &[u8],
    count: usize,
) -> Result<(), Refusal>
    requires { (4354 ≤ length pool.old) × (number < 32) × FormRoom coefficient.now monomial.now terms.now × Order order.now count × (count ≤ 64) }
    ensures { Filled pool.old pool.new number variables
        (forms_in coefficient.now monomial.now terms.now (numbers_from order.now 0 count)) (told result) }
{
    let fresh = new_forms(pool, coefficient, monomial, terms, order, count);
    if 128 < slots::used(pool) + fresh {
        return Err(Refusal::Full);
    }
    let row = words::with_mark(pool[1], number, true);
    list_forms(pool, number, coefficient, monomial, terms, order, count);
    pool[0] = variables as u64;
    pool[1] = row;
    Ok(())
}

// A block that was read, added under a number.
fn add_read(
    pool: &mut [u64],
    number: usize,
    variables: usize,
    polynomials: usize,
    coefficient: &[i32],
    monomial: &[u64],
    terms: &[u8],
) -> Result<(), Refusal>
    requires { (4354 ≤ length pool.old) × TableRead coefficient.now monomial.now terms.now polynomials variables }
    ensures { Gives pool.old pool.new (told result)
        (add_block number (block_from variables coefficient.now monomial.now terms.now polynomials) (pool_of pool.old))
        (added_words number variables (forms_listed (block_from variables coefficient.now monomial.now terms.now polynomials))
        pool.old) }
{
    let present = pool[1];
    if !is_open(present, number) {
        return Err(Refusal::NumberNotAllowed);
    }
    if !allows(present, pool[0], variables) {
        return Err(Refusal::VariablesDiffer);
    }
    let mut form_coefficient = [0i32; 1280];
    let mut form_monomial = [0u64; 1280];
    let mut form_terms = [0u8; 81];
    let mut order = [0u8; 64];
    let count = forms_of(
        coefficient,
        monomial,
        terms,
        polynomials,
        variables,
        &mut form_coefficient,
        &mut form_monomial,
        &mut form_terms,
        &mut order,
    );
    fill(
        pool,
        number,
        variables,
        &form_coefficient,
        &form_monomial,
        &form_terms,
        &order,
        count,
    )
}

// "`add(number, block)`": done, or a refusal, and no word is changed. 1 if fewer words are lent than a pool has, then the reader's, 26, 27, 28.
pub fn add(pool: &mut [u64], number: usize, block: &[u8]) -> Result<(), Refusal>
    ensures { Gives pool.old pool.new (told result) (entered pool.old (add_book number block.now (pool_of pool.old)))
        (added_read number (read_block block.now) pool.old) }
{
    if pool.len() < POOL_WORDS {
        return Err(Refusal::PoolShort);
    }
    let mut coefficient = [0i32; 1024];
    let mut monomial = [0u64; 1024];
    let mut terms = [0u8; 64];
    let mut token = [0u32; 255];
    let contents = read_into(
        block,
        &mut coefficient,
        &mut monomial,
        &mut terms,
        &mut token,
    )?;
    add_read(
        pool,
        number,
        contents.variables,
        contents.polynomials,
        &coefficient,
        &monomial,
        &terms,
    )
}

// The number taken away from every slot.
fn unlist_all(pool: &mut [u64], number: usize)
    requires { (4354 ≤ length pool.old) × (number < 32) }
    ensures { pool.new ≡ all_unlisted number pool.old 0 128 }
{
    for slot in 0..128 {
        slots::unlist(pool, 2 + 34 * slot, number);
    }
}

// "26 if the number is above 31 or absent": whether there is a block to withdraw.
fn is_there(present: u64, number: usize) -> bool
    ensures { result ≡ (ltb number 32 && get_or (marks 32 present) number false) }
{
    if number < 32 {
        return words::mark(present, number);
    }
    false
}

// n, unless no mark is left.
fn kept(left: u64, n: u64) -> u64
    ensures { result ≡ unless_none left n }
{
    if left == 0 {
        return 0;
    }
    n
}

// "`withdraw(number)`": done, or a refusal, and no word is changed. 1 if fewer words are lent than a pool has, then 26.
pub fn withdraw(pool: &mut [u64], number: usize) -> Result<(), Refusal>
    ensures { Gives pool.old pool.new (told result) (entered pool.old (withdraw_book number (pool_of pool.old)))
        (withdrawn_words number pool.old) }
{
    if pool.len() < POOL_WORDS {
        return Err(Refusal::PoolShort);
    }
    let present = pool[1];
    if !is_there(present, number) {
        return Err(Refusal::NumberNotAllowed);
    }
    let variables = pool[0];
    let left = words::with_mark(present, number, false);
    unlist_all(pool, number);
    pool[1] = left;
    pool[0] = kept(left, variables);
    Ok(())
}
