// A pool's calls and their lines on standard output: what the two programs share.
// What is told of a call is what `pool::add` or `pool::withdraw` gives back; that standard output takes it is no promise of ours.

#![tactic(auto)]

use pool::Refusal;
use std::io;
use std::io::Write;

// `ADDED 3`, `WITHDRAWN 3`, or `REFUSED` and the number of the refusal.
fn tell<W: Write>(
    out: &mut W,
    word: &str,
    number: usize,
    outcome: Result<(), Refusal>,
) -> io::Result<()> {
    match outcome {
        Ok(()) => writeln!(out, "{word} {number}"),
        Err(refusal) => writeln!(out, "REFUSED {}", refusal.number()),
    }
}

pub fn add<W: Write>(
    out: &mut W,
    words: &mut [u64],
    number: usize,
    block: &[u8],
) -> io::Result<()> {
    tell(out, "ADDED", number, pool::add(words, number, block))
}

pub fn withdraw<W: Write>(out: &mut W, words: &mut [u64], number: usize) -> io::Result<()> {
    tell(out, "WITHDRAWN", number, pool::withdraw(words, number))
}

// ---- show: n, the numbers present, and of each slot the row of marks, the number of terms, 16 coefficients and 16 monomials

// The word at a place, 0 where there is none.
fn word(words: &[u64], k: usize) -> u64 {
    if k < words.len() {
        return words[k];
    }
    0
}

// Where word k of a slot stands; the first word that no pool has, if the pool has no such slot.
fn place(slot: usize, k: usize) -> usize {
    if slot < 128 {
        if k < 34 {
            return 2 + 34 * slot + k;
        }
    }
    4354
}

// How many of a word's 32 marks there are.
fn marks(word: u64) -> u32 {
    ((word % 4294967296) as u32).count_ones()
}

fn has_mark(word: u64, number: u32) -> bool {
    if number < 32 {
        return (word >> number) % 2 == 1;
    }
    false
}

// How many blocks list the form of a slot.
fn uses(words: &[u64], slot: usize) -> u32 {
    marks(word(words, place(slot, 0)))
}

fn forms(words: &[u64]) -> usize {
    (0..128).filter(|slot| uses(words, *slot) > 0).count()
}

// A number behind a comma, unless it is the first.
fn print_listed<W: Write>(out: &mut W, first: bool, number: u32) -> io::Result<()> {
    if !first {
        out.write_all(b",")?;
    }
    write!(out, "{number}")
}

// The numbers whose marks a word has, joined by commas.
fn print_numbers<W: Write>(out: &mut W, row: u64) -> io::Result<()> {
    let mut first = true;
    for number in 0..32 {
        if has_mark(row, number) {
            print_listed(out, first, number)?;
            first = false;
        }
    }
    Ok(())
}

// A coefficient in decimal: an even word is twice the number, an odd one twice the magnitude and one less.
fn print_coefficient<W: Write>(out: &mut W, word: u64) -> io::Result<()> {
    let half = word / 2;
    if word % 2 == 0 {
        return write!(out, "{half}");
    }
    let magnitude = half + 1;
    write!(out, "-{magnitude}")
}

// The exponent behind which so many variables' exponents stand, four bits each; 0 where there are more than fifteen.
fn exponent(monomial: u64, behind: u64) -> u64 {
    if behind < 16 {
        return (monomial >> (4 * behind)) % 16;
    }
    0
}

// The exponents of so many variables in decimal, joined by dots, the first variable foremost.
fn print_exponents<W: Write>(out: &mut W, monomial: u64, variables: u64) -> io::Result<()> {
    for behind in (0..variables).rev() {
        let degree = exponent(monomial, behind);
        write!(out, "{degree}")?;
        if behind > 0 {
            out.write_all(b".")?;
        }
    }
    Ok(())
}

fn print_term<W: Write>(
    out: &mut W,
    words: &[u64],
    slot: usize,
    i: usize,
    variables: u64,
) -> io::Result<()> {
    if i < 16 {
        out.write_all(b" ")?;
        print_coefficient(out, word(words, place(slot, 2 + i)))?;
        out.write_all(b":")?;
        print_exponents(out, word(words, place(slot, 18 + i)), variables)?;
    }
    Ok(())
}

fn print_form<W: Write>(out: &mut W, words: &[u64], slot: usize) -> io::Result<()> {
    let variables = word(words, 0);
    let count = word(words, place(slot, 1));
    for i in 0..16 {
        if (i as u64) < count {
            print_term(out, words, slot, i, variables)?;
        }
    }
    Ok(())
}

// The slot, the use count, the numbers of its blocks joined by commas, and the form.
fn print_slot<W: Write>(out: &mut W, words: &[u64], slot: usize) -> io::Result<()> {
    let count = uses(words, slot);
    write!(out, "{slot} {count} ")?;
    print_numbers(out, word(words, place(slot, 0)))?;
    print_form(out, words, slot)?;
    out.write_all(b"\n")
}

// A line for each form in slot order.
fn print_slots<W: Write>(out: &mut W, words: &[u64]) -> io::Result<()> {
    for slot in 0..128 {
        if uses(words, slot) > 0 {
            print_slot(out, words, slot)?;
        }
    }
    Ok(())
}

// `FORMS k BLOCKS b`, then the forms.
pub fn show<W: Write>(out: &mut W, words: &[u64]) -> io::Result<()> {
    let count = forms(words);
    let blocks = marks(word(words, 1));
    writeln!(out, "FORMS {count} BLOCKS {blocks}")?;
    print_slots(out, words)
}
