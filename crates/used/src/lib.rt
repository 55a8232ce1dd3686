// What the new block holds, 01 "A level": it "keeps n and lists the used normal forms by first use in the tree".
// The simplified tree is a tape of tokens whose atoms name slots of the working table; the new block's atoms name forms by their place in its list.

#![tactic(auto)]

ghost use Rattle.std.specs.Prelude.{◌≡◌, List, [], map, ℕ, ◌+◌, ◌*◌, ◌<◌, ◌≤◌, ℤ, length, take, drop, replicate};
ghost use Rattle.std.proofs.lemmas.List.Edits.{sets};
ghost use Rattle.rules.specs.Polynomial.{constant};
ghost use Rattle.rules.specs.Formula.{Node, alone, each_atom_of, atoms as atoms_of};
ghost use Rattle.rules.specs.Block.{NumberedAtom};
ghost use Rattle.rules.specs.Answer.{used, without_constants, block_of};
ghost use Rattle.table.specs.Table.{form_at, Forms};
ghost use Rattle.block.specs.Held.{kind_of, held_by, BlockRoom, held_over};
ghost use Rattle.used.specs.Tape.{lent, in_slot, forms_in, Holds, HoldsSome};
ghost use Rattle.used.specs.FirstUse.{order_of, TapeFits, FormsFit, UsedFit, RoomFor, Ordered, Copied, is_some, renumbered};

// A token below this is an atom's: its slot times eight and its set. Any other is that of an AND or an OR.
const JOIN: u32 = 16777216;

// How many atoms a tape has.
pub fn atoms(token: &[u32], count: usize) -> usize
    requires { HoldsSome token.now count }
    ensures { (tree : Node NumberedAtom) → Holds token.now count tree → result ≡ atoms_of (alone tree) }
{
    token[..count].iter().filter(|next| **next < JOIN).count()
}

// ---- the order of first use

// Lists the slots that the tape names, each at its first use, and gives each slot its place in that list; 64 says that it has none.
fn order_slots(token: &[u32], count: usize, order: &mut [u8], number: &mut [u8]) -> usize
    requires { TapeFits token.now count × (length order.old ≡ 64) × (number.old ≡ replicate 64 64) }
    ensures { Ordered (order_of (take count token.now)) order.old order.new number.new result }
{
    let mut used = 0;
    for &next in &token[..count] {
        if next < JOIN {
            let slot = (next / 8) as usize;
            if number[slot] == 64 {
                number[slot] = used as u8;
                order[used] = slot as u8;
                used += 1;
            }
        }
    }
    used
}

// ---- the forms that a tape uses

// Whether the form in a slot is a constant.
fn is_constant(monomial: &[u64], terms: &[u8], slot: usize) -> bool
    requires { (16 * slot < length monomial.now) × (slot < length terms.now) }
    ensures { (n : ℕ) (cs : List ℤ) → result ≡ is_some (constant (form_at (lent n cs monomial.now terms.now) slot)) }
{
    let count = terms[slot];
    if 1 < count {
        return false;
    }
    if count == 0 {
        return true;
    }
    monomial[16 * slot] == 0
}

// How many of the listed slots hold a form that is no constant.
fn count_forms(monomial: &[u64], terms: &[u8], order: &[u8], used: usize) -> usize
    requires { (1024 ≤ length monomial.now) × (64 ≤ length terms.now) × UsedFit order.now used }
    ensures { (n : ℕ) (cs : List ℤ)
        → result ≡ length (without_constants (forms_in (lent n cs monomial.now terms.now) order.now used)) }
{
    let mut forms = 0;
    for &slot in &order[..used] {
        if !is_constant(monomial, terms, slot as usize) {
            forms += 1;
        }
    }
    forms
}

// 02, #103: the number of different forms that a tape uses, constants left out. The forms are those of the working table, so that none is made again.
pub fn forms_used(monomial: &[u64], terms: &[u8], token: &[u32], count: usize) -> usize
    requires { (1024 ≤ length monomial.now) × (64 ≤ length terms.now) × HoldsSome token.now count }
    ensures { (n : ℕ) (cs : List ℤ) (tree : Node NumberedAtom) → Forms (lent n cs monomial.now terms.now)
        → Holds token.now count tree
        → result ≡ length (without_constants (used [] (alone (each_atom_of (in_slot (lent n cs monomial.now terms.now)) tree)))) }
{
    let mut order = [0u8; 64];
    let mut number = [64u8; 64];
    let used = order_slots(token, count, &mut order, &mut number);
    count_forms(monomial, terms, &order, used)
}

// ---- the forms of the new block

// Copies so many elements, from the place `from` of one slice to the place `to` of the other.
fn copy_run<T: Copy>(source: &[T], target: &mut [T], from: usize, to: usize, count: usize)
    requires { (from + count ≤ length source.now) × (to + count ≤ length target.old) }
    ensures { target.new ≡ sets target.old to (take count (drop from source.now)) }
{
    target[to..to + count].copy_from_slice(&source[from..from + count]);
}

// Copies the forms of the used slots, in order, to the slots 0, 1, .. of the new table.
fn copy_forms(
    coefficient: &[i32],
    monomial: &[u64],
    terms: &[u8],
    order: &[u8],
    used: usize,
    new_coefficient: &mut [i32],
    new_monomial: &mut [u64],
    new_terms: &mut [u8],
)
    requires { FormsFit coefficient.now monomial.now terms.now × UsedFit order.now used
        × RoomFor used new_coefficient.old new_monomial.old new_terms.old }
    ensures { (n : ℕ) → Copied (forms_in (lent n coefficient.now monomial.now terms.now) order.now used)
        new_coefficient.old new_coefficient.new new_monomial.old new_monomial.new
        new_terms.old new_terms.new }
{
    for i in 0..used {
        let slot = order[i] as usize;
        let count = terms[slot];
        new_terms[i] = count;
        copy_run(
            coefficient,
            new_coefficient,
            16 * slot,
            16 * i,
            count as usize,
        );
        copy_run(monomial, new_monomial, 16 * slot, 16 * i, count as usize);
    }
}

// ---- the tape

// A token with the new number of its slot; that of an AND or an OR stays.
fn renumber(number: &[u8], token: u32) -> u32
    requires { (token < 16777216 → token < 512) × (length number.now ≡ 64) }
    ensures { result ≡ renumbered number.now token }
{
    if JOIN <= token {
        return token;
    }
    let slot = (token / 8) as usize;
    (number[slot] as u32) * 8 + token % 8
}

// All tokens of a tape.
fn renumber_all(number: &[u8], token: &[u32], count: usize, target: &mut [u32])
    requires { TapeFits token.now count × (length number.now ≡ 64) × (count ≤ length target.old) }
    ensures { target.new ≡ sets target.old 0 (map (renumbered number.now) (take count token.now)) }
{
    for i in 0..count {
        target[i] = renumber(number, token[i]);
    }
}

// ---- the whole

// Stores what the block of a tree holds over what the lent new arrays hold, and gives the number of its polynomials.
pub fn collect(
    coefficient: &[i32],
    monomial: &[u64],
    terms: &[u8],
    variables: usize,
    token: &[u32],
    count: usize,
    new_coefficient: &mut [i32],
    new_monomial: &mut [u64],
    new_terms: &mut [u8],
    new_token: &mut [u32],
) -> usize
    requires { Forms (lent variables coefficient.now monomial.now terms.now) × HoldsSome token.now count
        × BlockRoom new_coefficient.old new_monomial.old new_terms.old new_token.old }
    ensures { (tree : Node NumberedAtom) → Holds token.now count tree
        → held_by variables result (kind_of tree) count new_coefficient.new new_monomial.new new_terms.new new_token.new
        ≡ held_over new_coefficient.old new_monomial.old new_terms.old new_token.old
        (block_of variables (each_atom_of (in_slot (lent variables coefficient.now monomial.now terms.now)) tree)) }
{
    let mut order = [0u8; 64];
    let mut number = [64u8; 64];
    let polynomials = order_slots(token, count, &mut order, &mut number);
    copy_forms(
        coefficient,
        monomial,
        terms,
        &order,
        polynomials,
        new_coefficient,
        new_monomial,
        new_terms,
    );
    renumber_all(&number, token, count, new_token);
    polynomials
}
