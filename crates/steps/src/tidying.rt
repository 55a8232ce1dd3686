// 01, "A level", step 2: "atoms of one polynomial become one at the first's place with the intersected set.
// Full or true: dropped. Empty or false: the node is false." The tokens name normal forms already, so no atom is brought to one here.
ghost use Rattle.std.specs.Prelude.{◌≡◌, true, false, List, ℕ, ◌+◌, ◌*◌, ◌/◌, ◌%◌, ◌<◌, ◌≤◌, length};
ghost use Rattle.rules.specs.Level.{plains};
ghost use Rattle.table.specs.Table.{Table, Forms, atoms_of};
ghost use Rattle.tape.specs.Row.{row_of, Lists, Ahead};
ghost use Rattle.tape.specs.Token.{slot, atoms_in as atoms_in_of};
ghost use Rattle.round.specs.Views.{lent_table};
ghost use Rattle.steps.specs.Tidied.{TruthIs, MergesInto, Merges, WithoutFull, Tidies};

use signs::SignSet;
use table::Atoms;
use tape::tokens::{set_of, slot_of, with_set};
use terms::sign_of;

// How many tokens step 2 keeps, at the front of their list, or that the node is false.
#[derive(Clone, Copy)]
pub struct Kept {
    pub count: usize,
    pub broken: bool,
}

// "A constant polynomial makes its atom true or false"; every other polynomial leaves it open.
fn if_constant(
    coefficient: &[i32],
    monomial: &[u64],
    terms: &[u8],
    variables: usize,
    token: u32,
) -> Option<bool>
    requires { Forms (lent_table coefficient monomial terms variables) }
    ensures { let t = lent_table coefficient.entry monomial.entry terms.entry variables in TruthIs t token result }
{
    let number = slot_of(token);
    let count = terms[number];
    if 1 < count {
        return None;
    }
    if count == 0 {
        return Some(SignSet(2).inside(set_of(token)));
    }
    let exponents = monomial[16 * number];
    if exponents == 0 {
        let c = coefficient[16 * number];
        return Some(sign_of(c).inside(set_of(token)));
    }
    None
}

// An atom into the front of a list, which has each polynomial once. Past the next place nothing changes.
fn merge_into(list: &mut [u32], count: usize, token: u32) -> usize
    requires { count < length list.old }
    ensures { (result ≤ count + 1) × (Ahead list.new list.old (count + 1) × ((t : Table) (l : List ℕ) → Forms t → Lists (row_of list.old count) l → MergesInto t token l (row_of list.new result))) }
{
    let number = slot_of(token);
    for i in 0..count {
        let other = list[i];
        if slot_of(other) == number {
            let set = set_of(other).intersect(set_of(token));
            list[i] = with_set(other, set);
            return count;
        }
    }
    list[count] = token;
    count + 1
}

fn merge(
    coefficient: &[i32],
    monomial: &[u64],
    terms: &[u8],
    variables: usize,
    list: &mut [u32],
    n: usize,
) -> Kept
    requires { Forms (lent_table coefficient monomial terms variables) × (n ≤ length list.old) }
    ensures { let t = lent_table coefficient.entry monomial.entry terms.entry variables in (result.count ≤ n) × ((l : List ℕ) → Lists (row_of list.old n) l → Merges t l (row_of list.new result.count) result.broken) }
{
    let mut count = 0;
    for i in 0..n {
        let token = list[i];
        match if_constant(coefficient, monomial, terms, variables, token) {
            None => {
                count = merge_into(list, count, token);
            }
            Some(true) => {}
            Some(false) => {
                return Kept {
                    count: count,
                    broken: true,
                };
            }
        }
    }
    Kept {
        count: count,
        broken: false,
    }
}

fn without_full(list: &mut [u32], n: usize) -> Kept
    requires { n ≤ length list.old }
    ensures { (t : Table) (l : List ℕ) → Lists (row_of list.old n) l → WithoutFull t l (row_of list.new result.count) result.broken }
{
    let mut count = 0;
    for i in 0..n {
        let token = list[i];
        let set = set_of(token);
        if set.0 == SignSet::EMPTY.0 {
            return Kept {
                count: count,
                broken: true,
            };
        }
        if set.0 != SignSet::FULL.0 {
            list[count] = token;
            count += 1;
        }
    }
    Kept {
        count: count,
        broken: false,
    }
}

// Step 2 of the first n tokens of a list, where they lie.
pub fn tidy(
    coefficient: &[i32],
    monomial: &[u64],
    terms: &[u8],
    variables: usize,
    list: &mut [u32],
    n: usize,
) -> Kept
    requires { Forms (lent_table coefficient monomial terms variables) × (n ≤ length list.old) }
    ensures { let t = lent_table coefficient.entry monomial.entry terms.entry variables in ((l : List ℕ) → Lists (row_of list.old n) l → Tidies t l (row_of list.new result.count) result.broken) }
{
    let merged = merge(coefficient, monomial, terms, variables, list, n);
    if merged.broken {
        return merged;
    }
    without_full(list, merged.count)
}

// ---- the list as the rounds take it

// After step 2 each slot stands at most once, so at most 64 atoms are left.
pub fn atoms_in(list: &[u32], n: usize) -> Atoms
    requires { (n ≤ length list.now) × (n ≤ 64) }
    ensures { (result.count ≡ n) × ((t : Table) (l : List ℕ) → Lists (row_of list.now n) l → atoms_of t result ≡ plains (atoms_in_of t l)) }
{
    let mut atoms = Atoms {
        count: n,
        number: [0; 64],
        set: [0; 64],
    };
    for i in 0..n {
        let token = list[i];
        atoms.number[i] = (token / 8 % 64) as u8;
        atoms.set[i] = (token % 8) as u8;
    }
    atoms
}
