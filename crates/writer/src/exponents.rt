// The exponents of a term: in edition 1 "n exponents of 4 bits", in edition 2 "a 5-bit count of variables with exponent above 0", "then that many
// pairs of variable number and exponent" (02, #109).
ghost use Rattle.std.specs.Prelude.{◌≡◌, ℕ, ◌≤◌, ◌<◌, length};
ghost use Rattle.rules.specs.Polynomial.{exponent};
ghost use Rattle.rules.specs.Pairs.{pairs_from, write_pairs as write_pairs_of};
ghost use Rattle.rules.specs.Block.{edition_of, write_exponents as write_exponents_of};
ghost use Rattle.writer.specs.Written.{Room, Wrote};

use crate::write_field;

// The exponent of the variable that has `followers` variables behind it.
fn exponent_of(monomial: u64, followers: usize) -> u64
    requires { followers < 16 }
    ensures { result ≡ exponent monomial followers }
{
    (monomial >> (4 * followers)) % 16
}

// How many of the last k variables have an exponent above 0.
fn pair_count(k: usize, monomial: u64) -> u64
    requires { k ≤ 16 }
    ensures { ((n : ℕ) → result ≡ length (pairs_from n k monomial)) × (result ≤ k) }
{
    if k == 0 {
        return 0;
    }
    let others = pair_count(k - 1, monomial);
    if exponent_of(monomial, k - 1) == 0 {
        return others;
    }
    others + 1
}

// The pairs of the last k of n variables.
fn write_pairs(out: &mut [u8], at: usize, n: usize, k: usize, monomial: u64) -> usize
    requires { (n ≤ 16) × (k ≤ n) × Room (length out.old) at (write_pairs_of (pairs_from n k monomial)) }
    ensures { Wrote out.old out.new at (write_pairs_of (pairs_from n k monomial)) result }
{
    if k == 0 {
        return at;
    }
    let exponent = exponent_of(monomial, k - 1);
    if exponent == 0 {
        return write_pairs(out, at, n, k - 1, monomial);
    }
    let variable = write_field(out, at, 4, (n - k) as u64);
    let next = write_field(out, variable, 4, exponent);
    write_pairs(out, next, n, k - 1, monomial)
}

// The exponents of a term of n variables, in an edition.
pub fn write_exponents(out: &mut [u8], at: usize, edition: u64, n: usize, monomial: u64) -> usize
    requires { (n ≤ 16) × Room (length out.old) at (write_exponents_of (edition_of edition) n monomial) }
    ensures { Wrote out.old out.new at (write_exponents_of (edition_of edition) n monomial) result }
{
    if edition < 2 {
        return write_field(out, at, 4 * n, monomial);
    }
    let pairs = write_field(out, at, 5, pair_count(n, monomial));
    write_pairs(out, pairs, n, n, monomial)
}
