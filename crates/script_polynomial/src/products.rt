// Products of a script: a number, and the variables as often as the exponents say.
// A monomial is its exponents as one number; `after` is how many variables follow the one that was read last.
ghost use Rattle.std.specs.Prelude.{◌&&◌, ◌≡◌, ◌-◌, ◌^◌, ◌*◌, ◌≤◌, ◌<◌, eqb, length};
ghost use Rattle.rules.specs.Reading.{any_may, letters, after_factor, product};
ghost use Rattle.script_polynomial.specs.Found.{NumberFound};
ghost use Rattle.script_polynomial.specs.Terms.{factors_of, ProductFound};
ghost use Rattle.script_polynomial.specs.Letters.{LetterFound, Packed, FactorFound};

use crate::bytes::byte_at;
use crate::numbers::read_number;
use crate::{Read, Stop};

// What reading a factor finds: the product and the position behind it; or that another factor is to come.
#[derive(Clone, Copy)]
pub enum Factor {
    Last {
        monomial: u64,
        behind: usize,
    },
    More {
        after: usize,
        monomial: u64,
        behind: usize,
    },
}

// A product that was read, and the position behind it.
#[derive(Clone, Copy)]
pub struct Product {
    pub coefficient: i32,
    pub monomial: u64,
    pub behind: usize,
}

// Which variable a letter is: none that may come next, or one that so many follow.
// May a factor come next? "not below the last one, below n, its exponent below 15, and" the product within the limit.
fn next_letter(byte: u8, n: usize, limit: u64, after: usize, monomial: u64) -> Option<usize>
    requires { (after < n) × (n ≤ 16) × Packed limit after monomial }
    ensures { LetterFound n limit after monomial byte result }
{
    if byte < 97 {
        return None;
    }
    let i = (byte - 97) as usize;
    if n <= i {
        return None;
    }
    let later = n - 1 - i;
    if after < later {
        return None;
    }
    if (monomial >> (4 * later)) % 16 == 15 {
        return None;
    }
    if limit - monomial < 1 << (4 * later) {
        return None;
    }
    Some(later)
}

// "a space iff" any factor may come behind it.
fn space_may(byte: u8, limit: u64, monomial: u64) -> bool
    ensures { result ≡ (eqb byte 32 && any_may 0 limit monomial) }
{
    if byte != 32 {
        return false;
    }
    if monomial % 16 == 15 {
        return false;
    }
    monomial < limit
}

// A factor and the byte behind it.
fn read_factor(
    text: &[u8],
    at: usize,
    n: usize,
    limit: u64,
    after: usize,
    monomial: u64,
) -> Result<Factor, Stop>
    requires { (at ≤ length text.now) × (after < n) × (n ≤ 16) × Packed limit after monomial }
    ensures { FactorFound text.now at n limit after monomial result }
{
    let Some(later) = next_letter(byte_at(text, at), n, limit, after, monomial) else {
        return Err(Stop { at });
    };
    let product = monomial + (1 << (4 * later));
    let byte = byte_at(text, at + 1);
    if byte == 41 {
        return Ok(Factor::Last {
            monomial: product,
            behind: at + 2,
        });
    }
    if !space_may(byte, limit, product) {
        return Err(Stop { at: at + 1 });
    }
    Ok(Factor::More {
        after: later,
        monomial: product,
        behind: at + 2,
    })
}

// The factors of a product, with the ) behind them.
fn read_factors(text: &[u8], at: usize, n: usize, limit: u64) -> Result<Read<u64>, Stop>
    requires { (at ≤ length text.now) × (0 < n) × (n ≤ 16) × (0 < limit) }
    ensures { NumberFound text.now at (letters n limit (after_factor n limit limit) (n - 1) 0) (λ m. m ≤ limit) result }
{
    let mut next = at;
    let mut after = n - 1;
    let mut product: u64 = 0;
    loop {
        match read_factor(text, next, n, limit, after, product)? {
            Factor::Last { monomial, behind } => {
                return Ok(Read {
                    value: monomial,
                    behind,
                });
            }
            Factor::More {
                after: later,
                monomial,
                behind,
            } => {
                after = later;
                product = monomial;
                next = behind;
            }
        }
    }
}

// The factors behind a number that was read.
fn with_factors(
    text: &[u8],
    at: usize,
    n: usize,
    limit: u64,
    coefficient: i32,
) -> Result<Product, Stop>
    requires { (at ≤ length text.now) × (0 < n) × (n ≤ 16) × (0 < limit) }
    ensures { ProductFound text.now at (factors_of n limit coefficient) limit result }
{
    let found = read_factors(text, at, n, limit)?;
    Ok(Product {
        coefficient,
        monomial: found.value,
        behind: found.behind,
    })
}

// Behind "(* ".
pub fn read_product(text: &[u8], at: usize, n: usize, limit: u64) -> Result<Product, Stop>
    requires { (at ≤ length text.now) × (0 < n) × (n ≤ 16) × (0 < limit) }
    ensures { ProductFound text.now at (product n limit) limit result }
{
    let number = read_number(text, at, 32)?;
    with_factors(text, number.behind, n, limit, number.value)
}
