// 01, "A level", step 6 at the root: a level written out again as a tape of tokens, parent before children.
// Both tapes have a token for each node, in the same order, so a row is written from left to right: a head becomes a node's token.
ghost use Rattle.std.specs.Prelude.{◌≡◌, Bool, List, [], map, ◌++◌, ℕ, ◌+◌, ◌-◌, ◌<◌, ◌≤◌, length, take, drop};
ghost use Rattle.rules.specs.Level.{Formula};
ghost use Rattle.table.specs.Table.{Table};
ghost use Rattle.tape.specs.Row.{row_of, Lists};
ghost use Rattle.tape.specs.Tape.{Children, laid};
ghost use Rattle.tape.specs.Walked.{Shows, size_of};
ghost use Rattle.level.specs.Source.{flat};
ghost use Rattle.level.specs.Written.{told as told_of, forest, Between, MarksIs, Heads, Tellable, opening, root_of as the_root_of, TreeIs};

use tape::rows::{Row, atoms_of, tokens_of};
use tape::tokens::{NODE, opposite};
use tape::walks::Level;

// A tree: its root's kind (0 is an atom, 1 is AND, 2 is OR) and its tokens.
#[derive(Clone, Copy)]
pub struct Tree {
    pub root: u8,
    pub tokens: Row,
}

// An atom's token as it stands under an AND or an OR. Its bits from 2 ^ 24 up are not set; the remainder says so again.
fn told(token: u32, conjunction: bool) -> u32
    ensures { result ≡ told_of conjunction token }
{
    if conjunction {
        return token % NODE;
    }
    opposite(token) % NODE
}

// The atoms from one place of a row up to another, told from a place on.
fn tell_atoms(out: &mut [u32], n: usize, row: &[u32], from: usize, to: usize, conjunction: bool)
    requires { (from ≤ to) × ((to ≤ length row.now) × (n + to ≤ length out.old + from)) }
    ensures { (k : ℕ) (l m : List ℕ) → Lists (row_of out.old n) l → Lists (row_of row.now k) m → to ≤ length m → Lists (row_of out.new (n + (to - from))) (l ++ map (told_of conjunction) (take (to - from) (drop from m))) }
{
    let mut place = n;
    for &token in &row[from..to] {
        out[place] = told(token, conjunction);
        place += 1;
    }
}

// The children between two places are nodes of this kind; how many they are. The marks have the kind of a node for each place where one begins: true
// for AND, false for OR.
fn mark(row: &[u32], from: usize, to: usize, conjunction: bool, marks: &mut [bool]) -> u32
    requires { (to ≤ 256) × ((to ≤ length row.now) × ((to ≤ length marks.old) × ((n : ℕ) × ((children : Children) × Between (row_of row.now n) from to children)))) }
    ensures { (result + from ≤ to) × ((n : ℕ) (children : Children) → Between (row_of row.now n) from to children → MarksIs from to conjunction marks.old children result marks.new) }
{
    let mut count: u32 = 0;
    let mut place = from;
    // kept: a step of this walk goes past a whole child
    while place < to {
        let head = row[place];
        let atoms = atoms_of(head);
        let tokens = tokens_of(head);
        marks[place] = conjunction;
        count += 1;
        place = place + 1 + atoms + tokens;
    }
    count
}

// All children of a row, which are marked with their kind, told from a place on; the place after them. Each marks its own children with the other kind.
fn tell_children(out: &mut [u32], at: usize, row: &[u32], n: usize, marks: &mut [bool]) -> usize
    requires { (length out.old ≡ 256) × ((length row.now ≡ 256) × ((length marks.old ≡ 256) × Tellable (row_of out.old at) (row_of row.now n) marks.old)) }
    ensures { (children : Children) (b : Bool) (l : List ℕ) → Lists (row_of row.now n) (laid children) → Heads marks.old 0 b children → Lists (row_of out.old at) l → Lists (row_of out.new result) (l ++ flat (forest b children)) }
{
    let mut end = at;
    let mut place = 0;
    // kept: a step of this walk goes to the child's own children, or past a child that has none
    while place < n {
        let head = row[place];
        let atoms = atoms_of(head);
        let tokens = tokens_of(head);
        let inner = place + 1 + atoms;
        let conjunction = marks[place];
        let below = mark(row, inner, inner + tokens, !conjunction, marks);
        out[end] = NODE + (atoms as u32) + below;
        tell_atoms(out, end + 1, row, place + 1, inner, conjunction);
        end = end + 1 + atoms;
        place = inner;
    }
    end
}

// "One part: that part." Else the parts stand under a node of their own. The place after its token.
fn opened(out: &mut [u32], parts: u32) -> usize
    requires { (parts ≤ 255) × (0 < length out.old) }
    ensures { Lists (row_of out.new result) (opening parts) × (result ≤ 1) }
{
    if parts == 1 {
        return 0;
    }
    out[0] = NODE + parts;
    1
}

// The kind of the root: a node of this kind, or its one part.
fn root_of(atoms: usize, parts: u32, conjunction: bool) -> u8
    ensures { result ≡ the_root_of atoms parts conjunction }
{
    if parts == 1 {
        if atoms == 1 {
            return 0;
        }
        if conjunction {
            return 2;
        }
        return 1;
    }
    if conjunction {
        return 1;
    }
    2
}

// A level that the AND rule (`conjunction`) or the OR rule has made of the root.
pub fn tree_of(level: Level, conjunction: bool) -> Tree
    requires { (size_of level ≤ 254) × ((t : Table) × ((kids : Formula) × Shows t level kids)) }
    ensures { (t : Table) (kids : Formula) → Shows t level kids → TreeIs t conjunction kids result }
{
    let atoms = level.atoms;
    let ors = level.ors;
    let n = atoms.count;
    let end = ors.count;
    let children = ors.token;
    let mut marks = [false; 256];
    let marked = mark(&children, 0, end, !conjunction, &mut marks);
    let parts = n as u32 + marked;
    let mut out = [0u32; 256];
    let place = opened(&mut out, parts);
    let list = atoms.token;
    tell_atoms(&mut out, place, &list, 0, n, conjunction);
    let count = tell_children(&mut out, place + n, &children, end, &mut marks);
    let tokens = Row {
        token: out,
        count: count,
    };
    Tree {
        root: root_of(n, parts, conjunction),
        tokens: tokens,
    }
}
