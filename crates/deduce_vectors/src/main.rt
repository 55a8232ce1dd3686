// Works out one deduction for each block of a stream and prints its finding as a number.
// Polynomial 0 is p, polynomial 1 is q; the tokens are an AND, an atom of p, an atom of q, and an atom of each variable with its set on the board.

#![tactic(auto)]

use block::Held;
use deduce::Run;
use frames::answer_each;
use signs::SignSet;
use std::io;
use std::io::Write;
use terms::{Board, few};

// The board: the atoms of the variables are the tokens from number 3 on.
fn board_of(held: Held) -> Board {
    let token = held.token;
    let n = few(held.variables);
    let mut sets = [0u8; 16];
    for i in 0..n {
        sets[i] = (token[3 + i] % 8) as u8;
    }
    Board { variables: n, sets }
}

// The finding of p from the atom of q, which is token number 2.
fn finding(held: Held) -> SignSet {
    let board = board_of(held);
    let coefficient = held.coefficient;
    let monomial = held.monomial;
    let terms = held.terms;
    let token = held.token;
    let mut sign = [0u8; 1024];
    terms::sign_terms(board, &monomial, &mut sign, 0, 32);
    let p = Run {
        from: 0,
        to: few(terms[0] as usize),
    };
    let q = Run {
        from: 16,
        to: 16 + few(terms[1] as usize),
    };
    let set = SignSet((token[2] % 8) as u8);
    deduce::deduce(&coefficient, &monomial, &sign, board, p, q, set)
}

fn tell<W: Write>(out: &mut W, block: &[u8]) -> io::Result<()> {
    let Ok(held) = block::read(block) else {
        return out.write_all(b"REFUSED\n");
    };
    let found = finding(held).0;
    writeln!(out, "{found}")
}

fn main(rt: HostRuntime) -> io::Result<()> {
    let mut space = [0u8; 65536];
    answer_each(
        &mut rt.stdin(),
        &mut rt.stdout(),
        &mut space,
        |out, block| tell(out, block),
    )
}
