// 01, "The block": the writer, from arrays to bytes.
// Each function writes what the definition of the same name in the book does, and keeps every other bit.

#![tactic(auto)]

ghost use Rattle.std.specs.Prelude.{◌≡◌, ◌+◌, ◌-◌, ◌*◌, ◌≤◌, ◌<◌, nat_abs, length, get_or};
ghost use Rattle.std.proofs.lemmas.List.Edits.{sets};
ghost use Rattle.rules.specs.Bits.{field};
ghost use Rattle.rules.specs.Formula.{Parts, children};
ghost use Rattle.rules.specs.Block.{NumberedAtom, Block, edition_of, minus_bit, write_term as write_term_of, write_terms as write_terms_of, write_polynomial as write_polynomial_of, write_table as write_table_of, block_length, write_block};
ghost use Rattle.block.specs.Held.{held_by, BlockRoom};
ghost use Rattle.writer.specs.Written.{terms_at, table_at, TermsInside, PartsHeld, PartsAhead, PartsWrote, Writable, SomeWritable};
ghost use Rattle.writer.specs.Written.{Room, Wrote, atom_bits, join_bits, head_bits};

use bits::put;
use exponents::write_exponents;

mod exponents; // the exponents of a term, by edition

// How far the writer is: the next bit, and the next token.
#[derive(Clone, Copy)]
struct Spot {
    at: usize,
    k: usize,
}

// A coefficient's minus bit.
pub fn minus_of(coefficient: i32) -> u64
    ensures { result ≡ minus_bit coefficient }
{
    if coefficient < 0 { 1 } else { 0 }
}

// A coefficient's magnitude.
pub fn magnitude_of(coefficient: i32) -> u64
    ensures { result ≡ nat_abs coefficient }
{
    let long = coefficient as i64;
    if long < 0 {
        (0 - long) as u64
    } else {
        long as u64
    }
}

// Writes a field of k bits. Of each step of the writer the result is the bit behind what it wrote.
fn write_field(out: &mut [u8], at: usize, k: usize, v: u64) -> usize
    requires { (k ≤ 64) × Room (length out.old) at (field k v) }
    ensures { Wrote out.old out.new at (field k v) result }
{
    put(out, at, k, v);
    at + k
}

// A term of n variables.
fn write_term(
    out: &mut [u8],
    at: usize,
    edition: u64,
    n: usize,
    coefficient: i32,
    monomial: u64,
) -> usize
    requires { (n ≤ 16) × Room (length out.old) at (write_term_of (edition_of edition) n (record { coefficient = coefficient; monomial = monomial })) }
    ensures { Wrote out.old out.new at (write_term_of (edition_of edition) n (record { coefficient = coefficient; monomial = monomial })) result }
{
    let sign = write_field(out, at, 1, minus_of(coefficient));
    let size = write_field(out, sign, 31, magnitude_of(coefficient));
    write_exponents(out, size, edition, n, monomial)
}

// So many terms from the place k on.
fn write_terms(
    out: &mut [u8],
    coefficient: &[i32],
    monomial: &[u64],
    at: usize,
    edition: u64,
    n: usize,
    k: usize,
    count: usize,
) -> usize
    requires { (n ≤ 16) × (k + count ≤ length coefficient.now) × (k + count ≤ length monomial.now)
        × Room (length out.old) at (write_terms_of (edition_of edition) n (terms_at coefficient.now monomial.now k count)) }
    ensures { Wrote out.old out.new at
        (write_terms_of (edition_of edition) n (terms_at coefficient.now monomial.now k count)) result }
{
    if count == 0 {
        return at;
    }
    let value = coefficient[k];
    let next = write_term(out, at, edition, n, value, monomial[k]);
    write_terms(
        out,
        coefficient,
        monomial,
        next,
        edition,
        n,
        k + 1,
        count - 1,
    )
}

// The polynomial number i.
fn write_polynomial(
    out: &mut [u8],
    coefficient: &[i32],
    monomial: &[u64],
    counts: &[u8],
    at: usize,
    edition: u64,
    n: usize,
    i: usize,
) -> usize
    requires { (n ≤ 16) × (i < 64) × (i < length counts.now) × (16 * i + get_or counts.now i 0 ≤ length coefficient.now)
        × (16 * i + get_or counts.now i 0 ≤ length monomial.now)
        × Room (length out.old) at (write_polynomial_of (edition_of edition) n (terms_at coefficient.now monomial.now (16 * i) (get_or counts.now i 0))) }
    ensures { Wrote out.old out.new at
        (write_polynomial_of (edition_of edition) n (terms_at coefficient.now monomial.now (16 * i) (get_or counts.now i 0))) result }
{
    let count = counts[i] as usize;
    let next = write_field(out, at, 5, count as u64);
    write_terms(out, coefficient, monomial, next, edition, n, 16 * i, count)
}

// The polynomials from number i on, up to number m.
fn write_table(
    out: &mut [u8],
    coefficient: &[i32],
    monomial: &[u64],
    counts: &[u8],
    at: usize,
    edition: u64,
    n: usize,
    i: usize,
    m: usize,
) -> usize
    requires { (n ≤ 16) × (i ≤ m) × (m ≤ 64) × (m ≤ length counts.now) × TermsInside coefficient.now monomial.now counts.now m
        × Room (length out.old) at (write_table_of (edition_of edition) n (table_at coefficient.now monomial.now counts.now i (m - i))) }
    ensures { Wrote out.old out.new at
        (write_table_of (edition_of edition) n (table_at coefficient.now monomial.now counts.now i (m - i))) result }
{
    if i == m {
        return at;
    }
    let next = write_polynomial(out, coefficient, monomial, counts, at, edition, n, i);
    write_table(
        out,
        coefficient,
        monomial,
        counts,
        next,
        edition,
        n,
        i + 1,
        m,
    )
}

// An atom by its token.
fn write_atom(out: &mut [u8], at: usize, token: u32) -> usize
    requires { Room (length out.old) at (atom_bits token) }
    ensures { Wrote out.old out.new at (atom_bits token) result }
{
    let kind = write_field(out, at, 2, 0);
    let number = write_field(out, kind, 6, (token / 8) as u64);
    write_field(out, number, 3, (token % 8) as u64)
}

// The kind and the number of children of an AND or OR.
fn write_join(out: &mut [u8], at: usize, kind: u64, children: u64) -> usize
    requires { Room (length out.old) at (join_bits kind children) }
    ensures { Wrote out.old out.new at (join_bits kind children) result }
{
    let next = write_field(out, at, 2, kind);
    write_field(out, next, 8, children)
}

// So many nodes from the token k on; those of them that are an AND or OR are of that kind, and their children of the other.
fn write_parts(out: &mut [u8], token: &[u32], at: usize, k: usize, count: usize, kind: u64) -> Spot
    requires { PartsAhead token.now kind k count (length out.old) at }
    ensures { (parts : Parts NumberedAtom) → PartsHeld token.now kind k parts → children parts ≡ count
        → PartsWrote out.old out.new at parts k result }
{
    if count == 0 {
        return Spot { at, k };
    }
    let first = token[k];
    if first < 16777216 {
        let next = write_atom(out, at, first);
        return write_parts(out, token, next, k + 1, count - 1, kind);
    }
    let children = first - 16777216;
    let next = write_join(out, at, kind, children as u64);
    let inner = write_parts(out, token, next, k + 1, children as usize, 3 - kind);
    write_parts(out, token, inner.at, inner.k, count - 1, kind)
}

// "edition, variables n, polynomials m, tree nodes, block length in bytes"
fn write_head(
    out: &mut [u8],
    edition: u64,
    variables: u64,
    polynomials: u64,
    nodes: u64,
    size: u64,
) -> usize
    requires { 5 ≤ length out.old }
    ensures { Wrote out.old out.new 0 (head_bits edition variables polynomials nodes size) result }
{
    let start = write_field(out, 0, 4, edition);
    let first = write_field(out, start, 5, variables);
    let second = write_field(out, first, 7, polynomials);
    let third = write_field(out, second, 8, nodes);
    write_field(out, third, 16, size)
}

// Writes the block that the arrays hold, in an edition, to the output's first bytes, and gives its length; the rest of the output keeps its values.
pub fn write(
    edition: u64,
    variables: usize,
    polynomials: usize,
    root: u8,
    tokens: usize,
    coefficient: &[i32],
    monomial: &[u64],
    terms: &[u8],
    token: &[u32],
    out: &mut [u8],
) -> usize
    requires { BlockRoom coefficient.now monomial.now terms.now token.now
        × SomeWritable edition (held_by variables polynomials root tokens coefficient.now monomial.now terms.now token.now) (length out.old) }
    ensures { (block : Block) → Writable edition (held_by variables polynomials root tokens coefficient.now monomial.now
        terms.now token.now) (length out.old) block
        → (result ≡ block_length (edition_of edition) block) × (out.new ≡ sets out.old 0 (write_block (edition_of edition) block)) }
{
    let tree = write_table(
        out,
        coefficient,
        monomial,
        terms,
        40,
        edition,
        variables,
        0,
        polynomials,
    );
    let last = write_parts(out, token, tree, 0, 1, root as u64);
    let end = last.at;
    let size = (end + 7) / 8;
    write_field(out, end, size * 8 - end, 0);
    write_head(
        out,
        edition,
        variables as u64,
        polynomials as u64,
        tokens as u64,
        size as u64,
    );
    size
}
