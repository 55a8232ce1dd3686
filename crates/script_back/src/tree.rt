// The tree: a node is read by reading its children, whose tokens go behind its own. The nodes that may still come get fewer.
// Polynomials go to the lent arrays and tokens to the lent tape as `block::read_into` stores them.
ghost use Rattle.std.specs.Prelude.{◌≡◌, ◌+◌, ◌-◌, ◌*◌, ◌<◌, ◌≤◌, length};
ghost use Rattle.rules.specs.Text.{closing as closing_text};
ghost use Rattle.script_polynomial.specs.Tabled.{SomeTabled};
ghost use Rattle.script_back.specs.Runs.{Said};
ghost use Rattle.script_back.specs.Tree.{Ready, Kids, may_join as may_join_of, TurnFound, Closes, AtomFound, NodeFound, KidsFound};

use crate::opening::open_node;
use crate::runs::said;
use script_polynomial::bytes::byte_at;
use script_polynomial::{Stop, known_polynomial};

// Where the reader stands: the next byte, how many nodes more than those that are owed may come, how many polynomials are known, how many tokens stored.
#[derive(Clone, Copy)]
pub struct Place {
    pub at: usize,
    pub room: usize,
    pub known: usize,
    pub tokens: usize,
}

// A node that was read: the place behind it, and its kind: 0 is an atom, 1 is AND, 2 is OR.
#[derive(Clone, Copy)]
pub struct Branch {
    pub behind: Place,
    pub kind: u8,
}

// ---- atoms

// What stands behind the polynomial of an atom with this set.
fn closing(text: &[u8], at: usize, set: u32) -> Result<usize, Stop>
    requires { (at ≤ length text.now) × (0 < set) × (set ≤ 6) }
    ensures { Said text.now at (closing_text set) result }
{
    if set == 5 {
        return said(text, at, b"0))");
    }
    said(text, at, b"0)")
}

// The end of an atom, whose token is stored.
fn close_atom(
    text: &[u8],
    token: &mut [u32],
    place: Place,
    set: u32,
    number: u32,
) -> Result<Branch, Stop>
    requires { Ready text.now token.old place 1 × (0 < set) × (set ≤ 6) × (number < 64) }
    ensures { Closes text.now place set number token.old token.new result }
{
    let tokens = place.tokens;
    let next = closing(text, place.at, set)?;
    token[tokens] = number * 8 + set;
    let behind = Place {
        at: next,
        room: place.room,
        known: place.known,
        tokens: tokens + 1,
    };
    Ok(Branch { behind, kind: 0 })
}

// The rest of an atom with this set, from its polynomial on.
fn read_atom(
    text: &[u8],
    coefficient: &mut [i32],
    monomial: &mut [u64],
    terms: &mut [u8],
    token: &mut [u32],
    place: Place,
    variables: usize,
    set: u32,
) -> Result<Branch, Stop>
    requires { SomeTabled variables place.known coefficient.old monomial.old terms.old
        × Ready text.now token.old place 1 × (0 < set) × (set ≤ 6) }
    ensures { AtomFound text.now variables place set coefficient.old coefficient.new monomial.old monomial.new
        terms.old terms.new token.old token.new result }
{
    let piece = known_polynomial(
        text,
        coefficient,
        monomial,
        terms,
        place.at,
        variables,
        place.known,
    )?;
    let end = Place {
        at: piece.behind,
        room: place.room,
        known: piece.known,
        tokens: place.tokens,
    };
    close_atom(text, token, end, set, piece.number)
}

// ---- nodes

// "`a` or `o` iff the parent is of another kind, the nesting is below 6", and the two children that it owes have room.
fn may_join(nesting: usize, parent: u8, room: usize, kind: u8) -> bool
    ensures { result ≡ may_join_of nesting parent room kind }
{
    if nesting == 0 {
        return false;
    }
    if parent == kind {
        return false;
    }
    2 <= room
}

// What comes behind so many children: their parent ends, or another child comes, with so much room.
#[derive(Clone, Copy)]
enum Turn {
    End,
    More(usize),
}

// "after child j: a space iff j < 2" or there is room; "`)` iff j ≥ 2".
fn turn_at(text: &[u8], at: usize, room: usize, children: u32) -> Result<Turn, Stop>
    requires { (at ≤ length text.now) × (room + children ≤ 254) }
    ensures { TurnFound text.now at room children result }
{
    let next = byte_at(text, at);
    if children < 2 {
        if next == b' ' {
            return Ok(Turn::More(room));
        }
        return Err(Stop { at });
    }
    if next == b')' {
        return Ok(Turn::End);
    }
    if room == 0 {
        return Err(Stop { at });
    }
    if next == b' ' {
        return Ok(Turn::More(room - 1));
    }
    Err(Stop { at })
}

// The node at a place, under a parent of that kind (0 at the root), where so many nestings are still allowed.
#[cycle(read_kids_read_node)]
pub fn read_node(
    text: &[u8],
    coefficient: &mut [i32],
    monomial: &mut [u64],
    terms: &mut [u8],
    token: &mut [u32],
    place: Place,
    variables: usize,
    nesting: usize,
    parent: u8,
) -> Result<Branch, Stop>
    requires { SomeTabled variables place.known coefficient.old monomial.old terms.old × Ready text.now token.old place 1 }
    ensures { NodeFound text.now variables nesting parent place coefficient.old coefficient.new
        monomial.old monomial.new terms.old terms.new token.old token.new result }
{
    let ands = may_join(nesting, parent, place.room, 1);
    let ors = may_join(nesting, parent, place.room, 2);
    let opening = open_node(text, place.at, ands, ors)?;
    let which = opening.which;
    if which < 7 {
        let polynomial = Place {
            at: opening.next,
            room: place.room,
            known: place.known,
            tokens: place.tokens,
        };
        return read_atom(
            text,
            coefficient,
            monomial,
            terms,
            token,
            polynomial,
            variables,
            which,
        );
    }
    let first = Place {
        at: opening.next,
        room: place.room - 2,
        known: place.known,
        tokens: place.tokens + 1,
    };
    read_kids(
        text,
        coefficient,
        monomial,
        terms,
        token,
        first,
        variables,
        nesting - 1,
        (which - 6) as u8,
        place.tokens,
        0,
    )
}

// The children behind so many, and their parent's end: its token, at its own place, has their number.
#[cycle(read_kids_read_node)]
fn read_kids(
    text: &[u8],
    coefficient: &mut [i32],
    monomial: &mut [u64],
    terms: &mut [u8],
    token: &mut [u32],
    place: Place,
    variables: usize,
    nesting: usize,
    kind: u8,
    own: usize,
    children: u32,
) -> Result<Branch, Stop>
    requires { SomeTabled variables place.known coefficient.old monomial.old terms.old × Ready text.now token.old place (2 - children)
        × Kids place own children }
    ensures { KidsFound text.now variables nesting kind own children place coefficient.old coefficient.new
        monomial.old monomial.new terms.old terms.new token.old token.new result }
{
    let at = place.at;
    let turn = turn_at(text, at, place.room, children)?;
    match turn {
        Turn::End => {
            token[own] = 16777216 + children;
            let behind = Place {
                at: at + 1,
                room: place.room,
                known: place.known,
                tokens: place.tokens,
            };
            Ok(Branch { behind, kind })
        }
        Turn::More(room) => {
            let child = Place {
                at: at + 1,
                room,
                known: place.known,
                tokens: place.tokens,
            };
            let branch = read_node(
                text,
                coefficient,
                monomial,
                terms,
                token,
                child,
                variables,
                nesting,
                kind,
            )?;
            read_kids(
                text,
                coefficient,
                monomial,
                terms,
                token,
                branch.behind,
                variables,
                nesting,
                kind,
                own,
                children + 1,
            )
        }
    }
}
