// What is told of an input, as lines on standard output: what the two programs of request #106 share.
// What is told are the outcome and the records of `why::reading::explained`; that standard output takes them is no promise of ours.

#![tactic(auto)]

use block::read_into;
use reasons::{Found, Reason, record};
use std::io;
use std::io::Write;
use why::reading::explained;

// ---- the line of a record

// "sets as < = <= > != >="
fn print_set<W: Write>(out: &mut W, set: u8, mirrored: bool) -> io::Result<()> {
    match set {
        1 => out.write_all(b" >")?,
        2 => out.write_all(b" =")?,
        3 => out.write_all(b" >=")?,
        4 => out.write_all(b" <")?,
        5 => out.write_all(b" !=")?,
        _ => out.write_all(b" <=")?,
    }
    if mirrored {
        out.write_all(b" MIRRORED")?;
    }
    Ok(())
}

fn has_bit(word: u64, k: usize) -> bool {
    if k < 64 {
        return (word >> k) % 2 == 1;
    }
    false
}

// Whether a set of places has a place.
fn has_place(places: [u64; 4], place: usize) -> bool {
    if place < 256 {
        return has_bit(places[place / 64], place % 64);
    }
    false
}

// A place behind a space, the first behind the word BY.
fn print_named<W: Write>(out: &mut W, first: bool, place: usize) -> io::Result<()> {
    if first {
        out.write_all(b" BY")?;
    }
    write!(out, " {place}")
}

// The places that are named, rising.
fn print_places<W: Write>(out: &mut W, places: [u64; 4]) -> io::Result<()> {
    let mut first = true;
    for place in 0..256 {
        if has_place(places, place) {
            print_named(out, first, place)?;
            first = false;
        }
    }
    Ok(())
}

// "REMOVED without BY: its terms alone say so; without a set: a true constant, or all signs allowed."
fn print_removed<W: Write>(out: &mut W, reason: Reason, mirrored: bool) -> io::Result<()> {
    out.write_all(b" REMOVED")?;
    if reason.set < 7 {
        print_set(out, reason.set, mirrored)?;
    }
    print_places(out, reason.places)
}

fn print_false<W: Write>(out: &mut W, reason: Reason) -> io::Result<()> {
    out.write_all(b" FALSE")?;
    print_places(out, reason.places)
}

fn print_reason<W: Write>(out: &mut W, reason: Reason, mirrored: bool) -> io::Result<()> {
    let place = reason.place;
    match reason.kind {
        1 => {
            out.write_all(b" KEPT")?;
            print_set(out, reason.set, mirrored)?;
        }
        2 => {
            out.write_all(b" NARROWED")?;
            print_set(out, reason.set, mirrored)?;
        }
        3 => write!(out, " MERGED {place}")?,
        4 => print_removed(out, reason, mirrored)?,
        _ => print_false(out, reason)?,
    }
    out.write_all(b"\n")
}

// ---- the head line: "verdict word, atoms in, atoms kept"

fn kind_at(found: Found, i: usize) -> u8 {
    if i < 255 {
        let reason = record(found, i);
        return reason.kind;
    }
    0
}

fn is_kept(kind: u8) -> bool {
    match kind {
        1 | 2 => true,
        _ => false,
    }
}

// How many records are kept or narrowed.
fn count_kept(found: Found) -> usize {
    (0..255)
        .filter(|at| *at < found.count && is_kept(kind_at(found, *at)))
        .count()
}

// The whole is false in every record, or in none.
fn print_verdict<W: Write>(out: &mut W, found: Found, kept: usize) -> io::Result<()> {
    if 0 < found.count {
        if kind_at(found, 0) == 5 {
            return out.write_all(b"UNSATISFIABLE ");
        }
    }
    if kept == 0 {
        out.write_all(b"ALWAYS ")
    } else {
        out.write_all(b"FORMULA ")
    }
}

fn print_head<W: Write>(out: &mut W, found: Found) -> io::Result<()> {
    let count = found.count;
    let kept = count_kept(found);
    print_verdict(out, found, kept)?;
    writeln!(out, "{count} {kept}")
}

// ---- all lines

// "MIRRORED where the clause's polynomial stands negated in the answer": the first coefficient of the polynomial of the token at a place is below 0.
fn is_mirrored(coefficient: &[i32], token: &[u32], at: usize) -> bool {
    if at < token.len() {
        let first = (token[at] / 8 % 64 * 16) as usize;
        if first < coefficient.len() {
            return coefficient[first] < 0;
        }
    }
    false
}

fn print_line<W: Write>(out: &mut W, found: Found, i: usize, mirrored: bool) -> io::Result<()> {
    if i < 255 {
        write!(out, "{i}")?;
        print_reason(out, record(found, i), mirrored)?;
    }
    Ok(())
}

// A line for each record; the atoms' tokens stand behind the root's.
fn print_lines<W: Write>(
    out: &mut W,
    found: Found,
    coefficient: &[i32],
    token: &[u32],
    root: usize,
) -> io::Result<()> {
    for at in 0..255 {
        if at < found.count {
            if root < 2 {
                print_line(out, found, at, is_mirrored(coefficient, token, root + at))?;
            }
        }
    }
    Ok(())
}

fn print_all<W: Write>(out: &mut W, input: &[u8], found: Found) -> io::Result<()> {
    let mut coefficient = [0i32; 1024];
    let mut monomial = [0u64; 1024];
    let mut terms = [0u8; 64];
    let mut token = [0u32; 255];
    let contents = read_into(
        input,
        &mut coefficient,
        &mut monomial,
        &mut terms,
        &mut token,
    );
    print_head(out, found)?;
    match contents {
        Err(_) => Ok(()),
        Ok(held) => print_lines(out, found, &coefficient, &token, held.root as usize),
    }
}

// A block has at most 255 atoms.
pub fn tell<W: Write>(out: &mut W, input: &[u8]) -> io::Result<()> {
    let told = explained(input, 255);
    match told.outcome {
        Err(refusal) => {
            let number = refusal.number();
            writeln!(out, "REFUSED {number}")
        }
        Ok(_) => print_all(out, input, told.found),
    }
}
