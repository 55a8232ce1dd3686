// 01, "The block" and "Refusal numbers": the reader, from bytes to arrays or to the first refusal.
// Each function reads what the definition of the same name in the book does, and tries the refusals in its order.

#![tactic(auto)]

ghost use Rattle.std.specs.Prelude.{◌||◌, ◌≡◌, ◌+◌, ◌-◌, ◌*◌, ◌^◌, ◌≤◌, ◌<◌, ltb, length};
ghost use Rattle.rules.specs.Block.{Block, edition1, edition2, edition_number, edition_of, head_edition, signed, read_term as read_term_of, read_terms as read_terms_of};
ghost use Rattle.rules.specs.Block.{read_polynomial as read_polynomial_of, read_table as read_table_of, read_node, read_parts, read_end as read_end_of, read_block};
ghost use Rattle.block.specs.Refusals.{number_of, refusal_by};
ghost use Rattle.block.specs.Held.{BlockRoom, RoomFor, HeldFound};
ghost use Rattle.block.specs.Steps.{stream_at, Inside, Left, Reads, ceiling, FieldsAt, TermStored, TermsStored, PolynomialStored, TableStored};
ghost use Rattle.block.specs.Steps.{ExponentsFound, Opened, NodeStored, PartsStored, Ends, RootFound, HeadHeld, HeadFound, ContentsFound, HasAtMost, FewFound};

use bits::get;
use pairs::{PairsFault, tell};

// Why a run of bytes is no block: 01, "Refusal numbers", 2 to 15, and 02, #109, 21 to 23.
#[derive(Clone, Copy, Debug, PartialEq, Eq)]
pub enum Refusal {
    // 2: "input under 5 bytes"
    InputUnderFiveBytes,
    // 3: "edition not 1"; since #109 "neither 1 nor 2"
    UnknownEdition,
    // 4: "length field differs from input length"
    LengthDiffers,
    // 5: "n, m or node count not allowed"
    CountNotAllowed,
    // 6: "bits end inside a field"
    EndsInsideField,
    // 7: "term count 0 or above 16"
    TermCount,
    // 8: "magnitude 0"
    MagnitudeZero,
    // 9: "exponents do not fall strictly"
    ExponentsNotFalling,
    // 10: "kind 3"
    KindThree,
    // 11: "polynomial number m or above"
    PolynomialNumber,
    // 12: "AND under AND or OR under OR"
    SameKindAbove,
    // 13: "nesting above 6"
    NestingAboveSix,
    // 14: "more or fewer nodes than the head says"
    NodesDiffer,
    // 15: "padding not zero, or a whole byte left over"
    PaddingOrByteLeft,
    // 21: "pair count above n"
    PairCountAboveN,
    // 22: "variable numbers not rising or not below n"
    VariablesNotRising,
    // 23: "exponent 0"
    ExponentZero,
}

impl Refusal {
    // The number that the documents give it.
    pub fn number(self) -> u8
        ensures { result ≡ number_of self }
    {
        match self {
            Refusal::InputUnderFiveBytes => 2,
            Refusal::UnknownEdition => 3,
            Refusal::LengthDiffers => 4,
            Refusal::CountNotAllowed => 5,
            Refusal::EndsInsideField => 6,
            Refusal::TermCount => 7,
            Refusal::MagnitudeZero => 8,
            Refusal::ExponentsNotFalling => 9,
            Refusal::KindThree => 10,
            Refusal::PolynomialNumber => 11,
            Refusal::SameKindAbove => 12,
            Refusal::NestingAboveSix => 13,
            Refusal::NodesDiffer => 14,
            Refusal::PaddingOrByteLeft => 15,
            Refusal::PairCountAboveN => 21,
            Refusal::VariablesNotRising => 22,
            Refusal::ExponentZero => 23,
        }
    }
}

impl From<Refusal> for u8 {
    ghost from_gives = { λ refusal number. number ≡ number_of refusal };

    fn from(refusal: Refusal) -> u8 {
        refusal.number()
    }
}

impl From<PairsFault> for Refusal {
    ghost from_gives = { λ fault refusal. refusal ≡ refusal_by fault };

    fn from(fault: PairsFault) -> Refusal {
        match fault {
            PairsFault::NotRising => Refusal::VariablesNotRising,
            PairsFault::SomeZero => Refusal::ExponentZero,
        }
    }
}

// What a block holds, in arrays that are 0 wherever nothing is stored.
#[derive(Clone, Copy)]
pub struct Held {
    pub variables: usize,
    pub polynomials: usize,
    // the kind of the tree's root: 0 is an atom, 1 is AND, 2 is OR
    // kept: a number, since it is the block's own two bits, and the writer takes and writes it as such
    pub root: u8,
    // how many tokens there are
    pub tokens: usize,
    // polynomial i has its terms in the slot of sixteen places from 16 * i on
    pub coefficient: [i32; 1024],
    pub monomial: [u64; 1024],
    // how many terms polynomial i has
    pub terms: [u8; 64],
    // the tree, parent before children: an atom is its polynomial's number * 8 + its set, an AND or OR is 16777216 + its number of children
    pub token: [u32; 255],
}

// What reading into lent arrays gives: the four numbers that `Held` has beside its arrays.
#[derive(Clone, Copy)]
pub struct Contents {
    pub variables: usize,
    pub polynomials: usize,
    pub root: u8,
    pub tokens: usize,
}

// Where the reader stands: the next bit, and how many nodes the head still allows.
#[derive(Clone, Copy)]
struct Place {
    at: usize,
    allowed: usize,
}

// ---- the table of polynomials

// How many bits are left from a place on.
fn left(src: &[u8], place: Place) -> usize
    requires { Inside src.now place }
    ensures { Left src.now place result }
{
    src.len() * 8 - place.at
}

// The coefficient of a minus bit and a magnitude.
fn coefficient_of(minus: u64, magnitude: u64) -> i32
    requires { magnitude < 2 ^ 31 }
    ensures { result ≡ signed minus magnitude }
{
    if minus == 0 {
        return magnitude as i32;
    }
    0 - (magnitude as i32)
}

// "Exponent lists fall strictly from term to term"; the first term has none before it.
fn falls(exponents: u64, first: bool, above: u64) -> bool
    ensures { result ≡ (first || ltb exponents above) }
{
    if first { true } else { exponents < above }
}

// A term of edition 1: its minus bit and magnitude as one number, and its exponents.
#[derive(Clone, Copy)]
struct Fields {
    word: u64,
    exponents: u64,
}

// The fields of a term of n variables: read at once where eight bytes hold them wherever they begin.
fn term_fields(src: &[u8], at: usize, n: usize) -> Fields
    requires { (at + (32 + 4 * n) ≤ 8 * length src.now) × (length src.now < 2 ^ 16) × (n ≤ 16) }
    ensures { FieldsAt src.now at n result }
{
    if 6 < n {
        let word = get(src, at, 32);
        let exponents = get(src, at + 32, 4 * n);
        return Fields { word, exponents };
    }
    let whole = get(src, at, 32 + 4 * n);
    Fields {
        word: whole >> (4 * n),
        exponents: whole % (1 << (4 * n)),
    }
}

// A term of n variables in edition 1, stored at the place k: "n exponents of 4 bits".
fn read_term(
    src: &[u8],
    coefficient: &mut [i32],
    monomial: &mut [u64],
    place: Place,
    n: usize,
    k: usize,
    first: bool,
    above: u64,
) -> Result<Place, Refusal>
    requires { Inside src.now place × (n ≤ 16) × (k < length coefficient.old) × (k < length monomial.old) }
    ensures { Reads src.now (read_term_of edition1 n (ceiling first n above) (stream_at src.now place))
        (TermStored place k coefficient.old coefficient.new monomial.old monomial.new) result }
{
    let at = place.at;
    if left(src, place) < 32 + 4 * n {
        return Err(Refusal::EndsInsideField);
    }
    let fields = term_fields(src, at, n);
    let magnitude = fields.word % 2147483648;
    if magnitude == 0 {
        return Err(Refusal::MagnitudeZero);
    }
    if !falls(fields.exponents, first, above) {
        return Err(Refusal::ExponentsNotFalling);
    }
    coefficient[k] = coefficient_of(fields.word / 2147483648, magnitude);
    monomial[k] = fields.exponents;
    Ok(Place {
        at: at + (32 + 4 * n),
        allowed: place.allowed,
    })
}

// What the pairs of a term are: the exponents as one number, and the bit behind the pairs.
#[derive(Clone, Copy)]
struct Exponents {
    exponents: u64,
    behind: usize,
}

// The exponents of a term in edition 2, from its pair count on: "21, 6 for the pairs, 22, 23".
fn read_pairs(src: &[u8], place: Place, n: usize) -> Result<Exponents, Refusal>
    requires { Inside src.now place × (place.at + 5 ≤ 8 * length src.now) × (n ≤ 16) }
    ensures { ExponentsFound src.now place n result }
{
    let at = place.at;
    let count = get(src, at, 5) as usize;
    if n < count {
        return Err(Refusal::PairCountAboveN);
    }
    if left(src, place) < 5 + 8 * count {
        return Err(Refusal::EndsInsideField);
    }
    let exponents = tell(src, at + 5, n, count)?;
    Ok(Exponents {
        exponents,
        behind: at + (5 + 8 * count),
    })
}

// A term of n variables in edition 2, stored at the place k: "6 as far as the pair count, 8, 21, 6 for the pairs, 22, 23, 9".
fn read_paired_term(
    src: &[u8],
    coefficient: &mut [i32],
    monomial: &mut [u64],
    place: Place,
    n: usize,
    k: usize,
    first: bool,
    above: u64,
) -> Result<Place, Refusal>
    requires { Inside src.now place × (n ≤ 16) × (k < length coefficient.old) × (k < length monomial.old) }
    ensures { Reads src.now (read_term_of edition2 n (ceiling first n above) (stream_at src.now place))
        (TermStored place k coefficient.old coefficient.new monomial.old monomial.new) result }
{
    let at = place.at;
    if left(src, place) < 37 {
        return Err(Refusal::EndsInsideField);
    }
    let magnitude = get(src, at + 1, 31);
    if magnitude == 0 {
        return Err(Refusal::MagnitudeZero);
    }
    let count = Place {
        at: at + 32,
        allowed: place.allowed,
    };
    let pairs = read_pairs(src, count, n)?;
    if !falls(pairs.exponents, first, above) {
        return Err(Refusal::ExponentsNotFalling);
    }
    coefficient[k] = coefficient_of(get(src, at, 1), magnitude);
    monomial[k] = pairs.exponents;
    Ok(Place {
        at: pairs.behind,
        allowed: place.allowed,
    })
}

// A term of n variables in an edition, stored at the place k.
fn read_term_in(
    src: &[u8],
    coefficient: &mut [i32],
    monomial: &mut [u64],
    place: Place,
    edition: u64,
    n: usize,
    k: usize,
    first: bool,
    above: u64,
) -> Result<Place, Refusal>
    requires { Inside src.now place × (n ≤ 16) × (k < length coefficient.old) × (k < length monomial.old) }
    ensures { Reads src.now (read_term_of (edition_of edition) n (ceiling first n above) (stream_at src.now place))
        (TermStored place k coefficient.old coefficient.new monomial.old monomial.new) result }
{
    if edition < 2 {
        return read_term(src, coefficient, monomial, place, n, k, first, above);
    }
    read_paired_term(src, coefficient, monomial, place, n, k, first, above)
}

// So many terms, one after the other, stored from the place k on.
fn read_terms(
    src: &[u8],
    coefficient: &mut [i32],
    monomial: &mut [u64],
    place: Place,
    edition: u64,
    n: usize,
    k: usize,
    count: usize,
) -> Result<Place, Refusal>
    requires { Inside src.now place × (n ≤ 16) × (k + count ≤ length coefficient.old) × (k + count ≤ length monomial.old) × (count ≤ 16) }
    ensures { Reads src.now (read_terms_of (edition_of edition) count n (2 ^ (4 * n)) (stream_at src.now place))
        (TermsStored place k coefficient.old coefficient.new monomial.old monomial.new) result }
{
    let mut next = place;
    let mut first = true;
    let mut above: u64 = 0;
    for i in 0..count {
        next = read_term_in(
            src,
            coefficient,
            monomial,
            next,
            edition,
            n,
            k + i,
            first,
            above,
        )?;
        first = false;
        above = monomial[k + i];
    }
    Ok(next)
}

// A polynomial of n variables, stored as number i.
fn read_polynomial(
    src: &[u8],
    coefficient: &mut [i32],
    monomial: &mut [u64],
    counts: &mut [u8],
    place: Place,
    edition: u64,
    n: usize,
    i: usize,
) -> Result<Place, Refusal>
    requires { Inside src.now place × (n ≤ 16)
        × (16 * i + 16 ≤ length coefficient.old) × (16 * i + 16 ≤ length monomial.old) × (i < length counts.old) × (i < 64) }
    ensures { Reads src.now (read_polynomial_of (edition_of edition) n (stream_at src.now place))
        (PolynomialStored place i coefficient.old coefficient.new monomial.old monomial.new
        counts.old counts.new) result }
{
    let at = place.at;
    if left(src, place) < 5 {
        return Err(Refusal::EndsInsideField);
    }
    let count = get(src, at, 5);
    if count == 0 {
        return Err(Refusal::TermCount);
    }
    if 16 < count {
        return Err(Refusal::TermCount);
    }
    counts[i] = count as u8;
    let first = Place {
        at: at + 5,
        allowed: place.allowed,
    };
    read_terms(
        src,
        coefficient,
        monomial,
        first,
        edition,
        n,
        16 * i,
        count as usize,
    )
}

// The table of m polynomials.
fn read_table(
    src: &[u8],
    coefficient: &mut [i32],
    monomial: &mut [u64],
    counts: &mut [u8],
    place: Place,
    edition: u64,
    n: usize,
    m: usize,
) -> Result<Place, Refusal>
    requires { Inside src.now place × (n ≤ 16) × (m ≤ 64)
        × (16 * m ≤ length coefficient.old) × (16 * m ≤ length monomial.old) × (m ≤ length counts.old) }
    ensures { Reads src.now (read_table_of (edition_of edition) m n (stream_at src.now place))
        (TableStored place 0 coefficient.old coefficient.new monomial.old monomial.new
        counts.old counts.new) result }
{
    let mut next = place;
    for i in 0..m {
        next = read_polynomial(src, coefficient, monomial, counts, next, edition, n, i)?;
    }
    Ok(next)
}

// ---- the tree

// What a node begins with: an atom, or the kind and the number of children of an AND or OR.
#[derive(Clone, Copy)]
enum Opening {
    Atom { number: u64, set: u64 },
    Join { kind: u64, children: u64 },
}

// What the node at a place begins with, under a parent of that kind (0 at the root), where so many nestings are still allowed.
fn open_node(
    src: &[u8],
    place: Place,
    nesting: usize,
    parent: u64,
    m: u64,
) -> Result<Opening, Refusal>
    requires { Inside src.now place }
    ensures { Opened src.now place nesting m parent result }
{
    let at = place.at;
    let rest = left(src, place);
    if place.allowed == 0 {
        return Err(Refusal::NodesDiffer);
    }
    if rest < 2 {
        return Err(Refusal::EndsInsideField);
    }
    let kind = get(src, at, 2);
    if kind == 3 {
        return Err(Refusal::KindThree);
    }
    if kind == 0 {
        if rest < 11 {
            return Err(Refusal::EndsInsideField);
        }
        let both = get(src, at + 2, 9);
        let number = both / 8;
        if m <= number {
            return Err(Refusal::PolynomialNumber);
        }
        return Ok(Opening::Atom {
            number,
            set: both % 8,
        });
    }
    if rest < 10 {
        return Err(Refusal::EndsInsideField);
    }
    if kind == parent {
        return Err(Refusal::SameKindAbove);
    }
    if nesting == 0 {
        return Err(Refusal::NestingAboveSix);
    }
    let children = get(src, at + 2, 8);
    Ok(Opening::Join { kind, children })
}

// The node at a place: its tokens go behind those of the nodes read so far, of the `count` that the head gives.
#[cycle(read_node_read_parts)]
fn read_node(
    src: &[u8],
    token: &mut [u32],
    place: Place,
    count: usize,
    nesting: usize,
    parent: u64,
    m: u64,
) -> Result<Place, Refusal>
    requires { Inside src.now place × (place.allowed ≤ count) × (count ≤ length token.old) }
    ensures { Reads src.now (read_node nesting m parent (stream_at src.now place))
        (NodeStored place count token.old token.new) result }
{
    let at = place.at;
    let allowed = place.allowed;
    let opening = open_node(src, place, nesting, parent, m)?;
    match opening {
        Opening::Atom { number, set } => {
            token[count - allowed] = (number * 8 + set) as u32;
            Ok(Place {
                at: at + 11,
                allowed: allowed - 1,
            })
        }
        Opening::Join { kind, children } => {
            token[count - allowed] = (16777216 + children) as u32;
            let first = Place {
                at: at + 10,
                allowed: allowed - 1,
            };
            read_parts(src, token, first, count, nesting - 1, kind, m, children)
        }
    }
}

// So many nodes, one after the other.
#[cycle(read_node_read_parts)]
fn read_parts(
    src: &[u8],
    token: &mut [u32],
    place: Place,
    count: usize,
    nesting: usize,
    parent: u64,
    m: u64,
    children: u64,
) -> Result<Place, Refusal>
    requires { Inside src.now place × (place.allowed ≤ count) × (count ≤ length token.old) × (children < 256) }
    ensures { Reads src.now (read_parts (read_node nesting m parent) children (stream_at src.now place))
        (PartsStored place count token.old token.new) result }
{
    let mut next = place;
    for _ in 0..children {
        next = read_node(src, token, next, count, nesting, parent, m)?;
    }
    Ok(next)
}

// "At the end 14, then 15."
fn read_end(src: &[u8], place: Place) -> Result<Place, Refusal>
    requires { Inside src.now place }
    ensures { (block : Block) → Reads src.now (read_end_of block (stream_at src.now place)) (Ends block place) result }
{
    let at = place.at;
    if place.allowed != 0 {
        return Err(Refusal::NodesDiffer);
    }
    let rest = left(src, place);
    if 8 <= rest {
        return Err(Refusal::PaddingOrByteLeft);
    }
    if get(src, at, rest) != 0 {
        return Err(Refusal::PaddingOrByteLeft);
    }
    Ok(place)
}

// The tree and the end: the kind of the root.
fn read_tree(
    src: &[u8],
    token: &mut [u32],
    place: Place,
    count: usize,
    m: u64,
) -> Result<u8, Refusal>
    requires { Inside src.now place × (place.allowed ≤ count) × (count ≤ length token.old) }
    ensures { RootFound src.now place count m token.old token.new result }
{
    let at = place.at;
    let after = read_node(src, token, place, count, 6, 0, m)?;
    read_end(src, after)?;
    Ok(get(src, at, 2) as u8)
}

// ---- the whole block

// The edition of a block by its head, 1 or 2; of bytes with another first field, one of them all the same, and the reader refuses them.
pub fn edition(src: &[u8]) -> u64
    ensures { result ≡ edition_number (head_edition src.now) }
{
    if src.len() == 0 {
        return 1;
    }
    if get(src, 0, 4) < 2 {
        return 1;
    }
    2
}

// What the head holds: the edition, the variable count, the polynomial count and the node count.
#[derive(Clone, Copy)]
struct Head {
    edition: u64,
    variables: usize,
    polynomials: usize,
    nodes: usize,
}

// "1 to 5 are tried in that order; 5 in field order." (1 is about the output.)
fn read_head(src: &[u8]) -> Result<Head, Refusal>
    ensures { HeadFound src.now result }
{
    if src.len() < 5 {
        return Err(Refusal::InputUnderFiveBytes);
    }
    let edition = get(src, 0, 4);
    if edition == 0 {
        return Err(Refusal::UnknownEdition);
    }
    if 2 < edition {
        return Err(Refusal::UnknownEdition);
    }
    if get(src, 24, 16) != src.len() as u64 {
        return Err(Refusal::LengthDiffers);
    }
    let variables = get(src, 4, 5) as usize;
    if variables == 0 {
        return Err(Refusal::CountNotAllowed);
    }
    if 16 < variables {
        return Err(Refusal::CountNotAllowed);
    }
    let polynomials = get(src, 9, 7) as usize;
    if 64 < polynomials {
        return Err(Refusal::CountNotAllowed);
    }
    let nodes = get(src, 16, 8) as usize;
    if nodes == 0 {
        return Err(Refusal::CountNotAllowed);
    }
    Ok(Head {
        edition,
        variables,
        polynomials,
        nodes,
    })
}

// What stands behind the head.
fn read_body(
    src: &[u8],
    coefficient: &mut [i32],
    monomial: &mut [u64],
    terms: &mut [u8],
    token: &mut [u32],
    head: Head,
) -> Result<Contents, Refusal>
    requires { HeadHeld src.now head × RoomFor head.polynomials head.nodes coefficient.old monomial.old terms.old token.old }
    ensures { ContentsFound src.now coefficient.old coefficient.new monomial.old monomial.new
        terms.old terms.new token.old token.new result × HasAtMost head.polynomials result }
{
    let start = Place {
        at: 40,
        allowed: head.nodes,
    };
    let after = read_table(
        src,
        coefficient,
        monomial,
        terms,
        start,
        head.edition,
        head.variables,
        head.polynomials,
    )?;
    let root = read_tree(src, token, after, head.nodes, head.polynomials as u64)?;
    Ok(Contents {
        variables: head.variables,
        polynomials: head.polynomials,
        root,
        tokens: head.nodes,
    })
}

// Reads a block and stores what it holds over what the lent arrays hold.
pub fn read_into(
    src: &[u8],
    coefficient: &mut [i32],
    monomial: &mut [u64],
    terms: &mut [u8],
    token: &mut [u32],
) -> Result<Contents, Refusal>
    requires { BlockRoom coefficient.old monomial.old terms.old token.old }
    ensures { ContentsFound src.now coefficient.old coefficient.new monomial.old monomial.new
        terms.old terms.new token.old token.new result }
{
    let head = read_head(src)?;
    read_body(src, coefficient, monomial, terms, token, head)
}

// The same as `read_into` for a block of at most sixteen polynomials, in arrays with room for these; None for a block with more, of which no more than
// the head is read.
pub fn read_few_into(
    src: &[u8],
    coefficient: &mut [i32],
    monomial: &mut [u64],
    terms: &mut [u8],
    token: &mut [u32],
) -> Option<Result<Contents, Refusal>>
    requires { RoomFor 16 255 coefficient.old monomial.old terms.old token.old }
    ensures { FewFound src.now coefficient.old coefficient.new monomial.old monomial.new
        terms.old terms.new token.old token.new result }
{
    let head = read_head(src);
    // kept: a `?` would give the refusal back bare, and here it is one of the outcomes of a block of few polynomials
    match head {
        Err(refusal) => Some(Err(refusal)),
        Ok(head) => {
            if 16 < head.polynomials {
                return None;
            }
            Some(read_body(src, coefficient, monomial, terms, token, head))
        }
    }
}

// Reads a block.
pub fn read(src: &[u8]) -> Result<Held, Refusal>
    ensures { HeldFound src.now result }
{
    let mut coefficient = [0i32; 1024];
    let mut monomial = [0u64; 1024];
    let mut terms = [0u8; 64];
    let mut token = [0u32; 255];
    let contents = read_into(src, &mut coefficient, &mut monomial, &mut terms, &mut token)?;
    Ok(Held {
        variables: contents.variables,
        polynomials: contents.polynomials,
        root: contents.root,
        tokens: contents.tokens,
        coefficient,
        monomial,
        terms,
        token,
    })
}
