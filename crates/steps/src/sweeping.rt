// 01, "A level", step 4: each OR child against what the list says.
// "The list here is the one that step 3 left: joins and splices take effect after the last child, in child order."
ghost use Rattle.std.specs.Prelude.{◌≡◌, List, ℕ, ◌+◌, ◌-◌, ◌≤◌, length, take, drop};
ghost use Rattle.rules.specs.Level.{Walk};
ghost use Rattle.removal_laws.specs.Settled.{Settled};
ghost use Rattle.table.specs.Table.{Forms};
ghost use Rattle.tape.specs.Row.{row_of, Lists};
ghost use Rattle.round.specs.Views.{lent_table, state_of};
ghost use Rattle.tape.specs.Tape.{Children, laid, ChildAt};
ghost use Rattle.tape.specs.Walked.{Stands};
ghost use Rattle.steps.specs.Swept.{Hears, CutIs, PruneIs, EntersPruned, SweepIs};

use round::State;
use round::slots::sign_table;
use search::words::words_of;
use settled::says;
use signs::SignSet;
use tape::rows::{Row, atoms_of, part, tokens_of};
use tape::tokens::{set_of, slot_of, with_set};
use tape::walks::{Level, Walked, add, begin};

// What becomes of an atom of a child: the child is implied, the atom is gone, or this is its token now.
#[derive(Clone, Copy)]
struct Cut {
    implied: bool,
    gone: bool,
    token: u32,
}

// A child that is dropped, or the atoms that are left of it.
#[derive(Clone, Copy)]
struct Pruned {
    dropped: bool,
    list: Row,
}

// "if what the list says of p lies inside s, the child is dropped; else s becomes the intersection, and an empty s drops the atom."
// The child holds its sets complemented.
fn cut_atom(
    coefficient: &[i32],
    monomial: &[u64],
    terms: &[u8],
    sign: &[u8],
    masks: &[u64],
    columns: &[u64],
    falls: bool,
    variables: usize,
    state: State,
    token: u32,
) -> Cut
    requires { Hears (lent_table coefficient monomial terms variables) state sign.now masks.now columns.now falls }
    ensures { let t = lent_table coefficient.entry monomial.entry terms.entry variables in CutIs t state token result }
{
    let said = says(
        coefficient,
        monomial,
        terms,
        sign,
        masks,
        columns,
        falls,
        variables,
        state,
        slot_of(token),
    );
    let set = set_of(token).complement();
    let implied = said.inside(set);
    let cut = set.intersect(said);
    let left = with_set(token, cut.complement());
    Cut {
        implied: implied,
        gone: cut.0 == SignSet::EMPTY.0,
        token: left,
    }
}

// The atoms of a child, from one place of the row up to another.
fn prune(
    coefficient: &[i32],
    monomial: &[u64],
    terms: &[u8],
    sign: &[u8],
    masks: &[u64],
    columns: &[u64],
    falls: bool,
    variables: usize,
    state: State,
    row: &[u32],
    from: usize,
    to: usize,
) -> Pruned
    requires { Hears (lent_table coefficient monomial terms variables) state sign.now masks.now columns.now falls
        × ((from ≤ to) × ((to ≤ length row.now) × (to ≤ 256))) }
    ensures { let t = lent_table coefficient.entry monomial.entry terms.entry variables in (result.list.count + from ≤ to) × ((k : ℕ) (l : List ℕ) → Lists (row_of row.now k) l → to ≤ length l → PruneIs t state (take (to - from) (drop from l)) result) }
{
    let mut left = [0u32; 256];
    let mut count = 0;
    for &token in &row[from..to] {
        let cut = cut_atom(
            coefficient,
            monomial,
            terms,
            sign,
            masks,
            columns,
            falls,
            variables,
            state,
            token,
        );
        if cut.implied {
            return Pruned {
                dropped: true,
                list: Row {
                    token: left,
                    count: count,
                },
            };
        }
        if !cut.gone {
            left[count] = cut.token;
            count += 1;
        }
    }
    Pruned {
        dropped: false,
        list: Row {
            token: left,
            count: count,
        },
    }
}

// The child whose head stands at this place, with so many atoms and so many tokens of own children.
fn enter_pruned(
    coefficient: &[i32],
    monomial: &[u64],
    terms: &[u8],
    sign: &[u8],
    masks: &[u64],
    columns: &[u64],
    falls: bool,
    variables: usize,
    state: State,
    walked: Walked,
    row: &[u32],
    place: usize,
    atoms: usize,
    tokens: usize,
) -> Walked
    requires { Hears (lent_table coefficient monomial terms variables) state sign.now masks.now columns.now falls
        × ((length row.now ≡ 256)
        × ((place + atoms + tokens + 1 ≤ 256) × (walked.new.count + walked.ors.count + atoms + tokens + 1 ≤ 256))) }
    ensures { let t = lent_table coefficient.entry monomial.entry terms.entry variables in ((k : ℕ) (walk : Walk) (all l : List ℕ) (own : Children) (rest : List ℕ) → Stands t walked walk → Lists (row_of row.now k) all → ChildAt all place atoms tokens l own rest → EntersPruned t state walked walk l own result) }
{
    let inner = place + 1 + atoms;
    let pruned = prune(
        coefficient,
        monomial,
        terms,
        sign,
        masks,
        columns,
        falls,
        variables,
        state,
        row,
        place + 1,
        inner,
    );
    if pruned.dropped {
        return walked;
    }
    let ors = part(row, inner, inner + tokens);
    let list = pruned.list;
    add(
        walked,
        Level {
            atoms: list,
            ors: ors,
        },
    )
}

// All children in the first n tokens of a list, with the signs of the table's monomials and the words of the state's atoms worked out.
fn walk_over(
    coefficient: &[i32],
    monomial: &[u64],
    terms: &[u8],
    sign: &[u8],
    masks: &[u64],
    columns: &[u64],
    falls: bool,
    variables: usize,
    state: State,
    ors: &[u32],
    n: usize,
) -> Walked
    requires { Hears (lent_table coefficient monomial terms variables) state sign.now masks.now columns.now falls
        × ((length ors.now ≡ 256) × ((n ≤ 256) × ((children : Children) × Lists (row_of ors.now n) (laid children)))) }
    ensures { let t = lent_table coefficient.entry monomial.entry terms.entry variables in ((children : Children) → Lists (row_of ors.now n) (laid children) → SweepIs t state children result) }
{
    let mut walked = begin();
    let mut place = 0;
    // kept: a step of this walk goes past a whole child
    while place < n {
        let head = ors[place];
        let atoms = atoms_of(head);
        let tokens = tokens_of(head);
        walked = enter_pruned(
            coefficient,
            monomial,
            terms,
            sign,
            masks,
            columns,
            falls,
            variables,
            state,
            walked,
            ors,
            place,
            atoms,
            tokens,
        );
        place = place + 1 + atoms + tokens;
    }
    walked
}

// The signs are worked out once for the state's board, and so are the words of its atoms; they serve each atom of each child.
pub fn sweep(
    coefficient: &[i32],
    monomial: &[u64],
    terms: &[u8],
    variables: usize,
    state: State,
    ors: &[u32],
    n: usize,
) -> Walked
    requires { let t = lent_table coefficient monomial terms variables in
        Forms t × (((state.board.variables ≡ variables) × Settled variables (state_of t state))
        × ((length ors.now ≡ 256) × ((n ≤ 256) × ((children : Children) × Lists (row_of ors.now n) (laid children))))) }
    ensures { let t = lent_table coefficient.entry monomial.entry terms.entry variables in ((children : Children) → Lists (row_of ors.now n) (laid children) → SweepIs t state children result) }
{
    let mut sign = [0u8; 1280];
    let board = state.board;
    let atoms = state.atoms;
    sign_table(board, monomial, terms, &mut sign);
    let mut masks = [0u64; 128];
    let mut columns = [0u64; 130];
    let falls = words_of(
        coefficient,
        monomial,
        terms,
        &sign,
        atoms,
        &mut masks,
        &mut columns,
    );
    walk_over(
        coefficient,
        monomial,
        terms,
        &sign,
        &masks,
        &columns,
        falls,
        variables,
        state,
        ors,
        n,
    )
}
