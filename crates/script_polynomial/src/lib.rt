// Request #112, the reader: one polynomial of a script, from a position of the text on.
// Each function reads what the definition of its name in the book does, and stops where it stops.

#![tactic(auto)]

ghost use Rattle.std.specs.Prelude.{◌≡◌, ◌≤◌, length};
ghost use Rattle.script_polynomial.specs.Tabled.{SomeTabled, PieceFound, StopsAmong, smaller};

pub mod bytes; // a byte, and a run of bytes
mod numbers; // numbers of either sign
mod products; // a number and its factors
mod sums; // terms and polynomials
mod tabled; // the known polynomials

use sums::read_polynomial;
use tabled::{find, longest, store};

// Where the text stopped: the position of the first byte at which nothing goes on.
#[derive(Clone, Copy, Debug, PartialEq, Eq)]
pub struct Stop {
    pub at: usize,
}

// What was read, and the position behind it.
#[derive(Clone, Copy)]
pub struct Read<T> {
    pub value: T,
    pub behind: usize,
}

// The polynomial of an atom that was read: its number in the table, how many polynomials the table has with it,
// and the position behind it and its space.
#[derive(Clone, Copy)]
pub struct Piece {
    pub number: u32,
    pub known: usize,
    pub behind: usize,
}

fn smaller_of(a: usize, b: usize) -> usize
    ensures { result ≡ smaller a b }
{
    if b < a { b } else { a }
}

// Where reading stops, if it stops at a position where the table does not matter: "With 64 known only a known text goes on".
fn stops_at(
    text: &[u8],
    coefficient: &[i32],
    monomial: &[u64],
    terms: &[u8],
    at: usize,
    variables: usize,
    known: usize,
    position: usize,
) -> usize
    requires { SomeTabled variables known coefficient.now monomial.now terms.now × (at ≤ length text.now) }
    ensures { StopsAmong text.now at variables known coefficient.now monomial.now terms.now
        position result }
{
    if known < 64 {
        return position;
    }
    let reach = longest(text, coefficient, monomial, terms, at, variables, known);
    smaller_of(position, reach)
}

// The polynomial of an atom, behind a table of so many known ones. One that is new is stored in the next slot.
pub fn known_polynomial(
    text: &[u8],
    coefficient: &mut [i32],
    monomial: &mut [u64],
    terms: &mut [u8],
    at: usize,
    variables: usize,
    known: usize,
) -> Result<Piece, Stop>
    requires { SomeTabled variables known coefficient.old monomial.old terms.old × (at ≤ length text.now) }
    ensures { PieceFound text.now at variables known coefficient.old coefficient.new
        monomial.old monomial.new terms.old terms.new result }
{
    let mut value = [0i32; 16];
    let mut powers = [0u64; 16];
    let found = read_polynomial(text, &mut value, &mut powers, at, variables);
    match found {
        Err(stop) => {
            let reach = stops_at(
                text,
                coefficient,
                monomial,
                terms,
                at,
                variables,
                known,
                stop.at,
            );
            Err(Stop { at: reach })
        }
        Ok(sum) => {
            let number = find(
                coefficient,
                monomial,
                terms,
                &value,
                &powers,
                known,
                variables,
                sum.value,
            );
            if number < known {
                return Ok(Piece {
                    number: number as u32,
                    known,
                    behind: sum.behind,
                });
            }
            if 64 <= known {
                let reach = longest(text, coefficient, monomial, terms, at, variables, known);
                return Err(Stop { at: reach });
            }
            store(
                coefficient,
                monomial,
                terms,
                &value,
                &powers,
                known,
                sum.value,
            );
            Ok(Piece {
                number: known as u32,
                known: known + 1,
                behind: sum.behind,
            })
        }
    }
}
