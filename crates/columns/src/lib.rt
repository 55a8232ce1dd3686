// All atoms of a list at once: the words of their forms (crate masks), column by column. For p and q1 one word has the atoms that may pass as q2;
// where a bit is 0, all tries of that pair leave p's set as it is.

#![tactic(auto)]

ghost use Rattle.std.specs.Prelude.{◌≡◌, ◌<◌, ◌≤◌, length};
ghost use Rattle.columns.specs.Columns.{Put, PutIf, Spread, Took, LeftOf, LeftWith, LeftIf, Candidates, Still, Next};

use masks::Mask;
use masks::cutting::swapped;
use two_atoms::finding::{non_negative, non_positive};

// ---- what is written

// Bit j, put into one column.
fn put(k: usize, j: usize, columns: &mut [u64])
    requires { (j < 64) × ((k < 130) × (length columns.old ≡ 130)) }
    ensures { Put columns.old k j columns.new }
{
    columns[k] |= 1u64 << j;
}

// Bit j, put into the columns of each bit of a word, those from a place on.
fn spread(word: u64, from: usize, j: usize, columns: &mut [u64])
    requires { (j < 64) × ((from ≤ 64) × (length columns.old ≡ 130)) }
    ensures { Spread columns.old word from j columns.new }
{
    let mut rest = word;
    while rest != 0 {
        let k = u64::trailing_zeros(rest) as usize;
        put(from + k, j, columns);
        rest = rest - (1u64 << k);
    }
}

// Bit j, put into one column if a test holds.
fn put_if(there: bool, k: usize, j: usize, columns: &mut [u64])
    requires { (j < 64) × ((k < 130) × (length columns.old ≡ 130)) }
    ensures { PutIf columns.old there k j columns.new }
{
    if there {
        put(k, j, columns);
    }
}

// The atom at place j of a list, with the words of its form and its set.
pub fn note(q: Mask, set: u8, j: usize, columns: &mut [u64])
    requires { (j < 64) × (length columns.old ≡ 130) }
    ensures { Took columns.old j q set columns.new }
{
    spread(q.positive, 0, j, columns);
    spread(q.negative, 64, j, columns);
    put_if(non_positive(set), 128, j, columns);
    put_if(non_negative(set), 129, j, columns);
}

// ---- what is read

// The atoms that pass with a v for which v·q2 is never positive; n and p are the words of p + u·q1.
fn left_of(n: u64, p: u64, columns: &[u64]) -> u64
    requires { length columns.now ≡ 130 }
    ensures { LeftOf columns.now n p result }
{
    let mut need = n & (n ^ p);
    let mut low = columns[128];
    let mut high = columns[129];
    while need != 0 {
        let k = u64::trailing_zeros(need) as usize;
        low = low & columns[k];
        high = high & columns[64 + k];
        need = need - (1u64 << k);
        if low | high == 0 {
            return 0;
        }
    }
    low | high
}

// And with a u of one sign, if u·q1 is never positive for it; q has the words of u·q1.
fn left_with(allowed: bool, p: Mask, q: Mask, columns: &[u64]) -> u64
    requires { length columns.now ≡ 130 }
    ensures { LeftWith columns.now allowed p q result }
{
    if allowed {
        return left_of(p.negative | q.negative, p.positive | q.positive, columns);
    }
    0
}

// And with a u of either sign, for a test that can cut the set.
fn left_cutting(cuts: bool, p: Mask, q1: Mask, set1: u8, columns: &[u64]) -> u64
    requires { length columns.now ≡ 130 }
    ensures { LeftIf columns.now cuts p q1 set1 result }
{
    if !cuts {
        return 0;
    }
    left_with(non_positive(set1), p, q1, columns)
        | left_with(non_negative(set1), p, swapped(q1), columns)
}

// The atoms whose tries with p and q1 may cut a set of p: the test ≥ does not if it is > already, nor the mirrored one if it is <.
pub fn candidates(p: Mask, q1: Mask, set1: u8, set: u8, columns: &[u64]) -> u64
    requires { length columns.now ≡ 130 }
    ensures { Candidates columns.now p q1 set1 set result }
{
    if 8 <= set {
        return u64::MAX;
    }
    left_cutting(2 <= set, p, q1, set1, columns)
        | left_cutting(set % 4 != 0, swapped(p), q1, set1, columns)
}

// The next place from j on, below n, whose bit is set; n, or one above it, if there is none.
pub fn next(word: u64, j: usize, n: usize) -> usize
    requires { n ≤ 64 }
    ensures { Next word j n result }
{
    if n <= j {
        return j;
    }
    let rest = word >> j;
    if rest == 0 {
        return n;
    }
    j + u64::trailing_zeros(rest) as usize
}

// A word of candidates, where the set may have been cut since: all atoms if it has.
pub fn still(word: u64, before: u8, after: u8) -> u64
    ensures { Still word before after result }
{
    if before == after {
        return word;
    }
    u64::MAX
}
