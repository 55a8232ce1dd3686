// 01, "A level", steps 2 to 6 in a row. "If any did, go to 2": the way back is a loop, and each turn of it takes a token off the two lists.
// A node's atoms lie in one list and its OR children in another; both are lent to each step and changed where they lie.
ghost use Rattle.std.specs.Prelude.{List, ℕ, ◌+◌, ◌<◌, length};
ghost use Rattle.rules.specs.Level.{Walk};
ghost use Rattle.table.specs.Table.{Forms};
ghost use Rattle.tape.specs.Row.{row_of, Lists};
ghost use Rattle.round.specs.Views.{lent_table};
ghost use Rattle.tape.specs.Tape.{Children, laid};
ghost use Rattle.tape.specs.Walked.{Stands, room};
ghost use Rattle.level.specs.Settled.{NodeIsFalse, StageIs, Ready, level_of, SettleIs, Gathered, FinishIs};

use steps::carrying::{carry, without_implied};
use steps::sweeping::sweep;
use steps::tidying::tidy;
use tape::rows::{Row, lay};
use tape::walks::{Level, Walked};

// How many atoms a node has and how many tokens of OR children, in two lists that are lent, between two turns or when the last turn is over;
// and the largest number of rounds so far.
#[derive(Clone, Copy)]
pub struct Stage {
    pub atoms: usize,
    pub ors: usize,
    pub over: bool,
    pub rounds: usize,
}

// What steps 2 to 6 make of a node, and the largest number of rounds so far, its runs counted.
#[derive(Clone, Copy)]
pub struct Finished {
    pub level: Level,
    pub rounds: usize,
}

// "the node is false": its one part is an OR with no parts, whose head counts nothing.
fn never(ors: &mut [u32], rounds: usize) -> Stage
    requires { 0 < length ors.old }
    ensures { (list : List ℕ) → NodeIsFalse (row_of list result.atoms) (row_of ors.new result.ors) rounds result }
{
    ors[0] = 0;
    Stage {
        atoms: 0,
        ors: 1,
        over: true,
        rounds: rounds,
    }
}

// One turn: steps 2 to 4, and step 5 if no child joined or was spliced. Where there is no child step 4 has nothing to do.
fn turn(
    coefficient: &[i32],
    monomial: &[u64],
    terms: &[u8],
    variables: usize,
    list: &mut [u32],
    n: usize,
    ors: &mut [u32],
    m: usize,
    largest: usize,
) -> Stage
    requires { Forms (lent_table coefficient monomial terms variables) × Ready list.old n ors.old m }
    ensures { let t = lent_table coefficient.entry monomial.entry terms.entry variables in
        ((l : List ℕ) (children : Children) → Lists (row_of list.old n) l → Lists (row_of ors.old m) (laid children)
        → StageIs t l children largest 1 list.new ors.new result) }
{
    let kept = tidy(coefficient, monomial, terms, variables, list, n);
    if kept.broken {
        return never(ors, largest);
    }
    let count = kept.count;
    let carrying = carry(
        coefficient,
        monomial,
        terms,
        variables,
        list,
        count,
        largest,
    );
    if carrying.contradiction {
        return never(ors, carrying.rounds);
    }
    let state = carrying.state;
    if m == 0 {
        let alone = without_implied(
            coefficient,
            monomial,
            terms,
            variables,
            list,
            count,
            state,
            carrying.rounds,
        );
        return Stage {
            atoms: alone.count,
            ors: 0,
            over: true,
            rounds: alone.rounds,
        };
    }
    let walked = sweep(coefficient, monomial, terms, variables, state, ors, m);
    if walked.falls {
        return never(ors, carrying.rounds);
    }
    let stay = walked.ors;
    let left = stay.token;
    let rest = stay.count;
    lay(ors, 0, &left, 0, rest);
    if walked.moved {
        let join = walked.new;
        let new = join.token;
        let more = join.count;
        lay(list, count, &new, 0, more);
        return Stage {
            atoms: count + more,
            ors: rest,
            over: false,
            rounds: carrying.rounds,
        };
    }
    let remaining = without_implied(
        coefficient,
        monomial,
        terms,
        variables,
        list,
        count,
        state,
        carrying.rounds,
    );
    Stage {
        atoms: remaining.count,
        ors: rest,
        over: true,
        rounds: remaining.rounds,
    }
}

// Steps 2 to 6.
fn settle(
    coefficient: &[i32],
    monomial: &[u64],
    terms: &[u8],
    variables: usize,
    list: &mut [u32],
    n: usize,
    ors: &mut [u32],
    m: usize,
    largest: usize,
) -> Stage
    requires { Forms (lent_table coefficient monomial terms variables) × Ready list.old n ors.old m }
    ensures { let t = lent_table coefficient.entry monomial.entry terms.entry variables in
        ((l : List ℕ) (children : Children) → Lists (row_of list.old n) l → Lists (row_of ors.old m) (laid children)
        → SettleIs t l children largest (level_of list.new ors.new result) result.rounds) }
{
    let mut stage = Stage {
        atoms: n,
        ors: m,
        over: false, // no turn is taken yet
        rounds: largest,
    };
    while !stage.over {
        stage = turn(
            coefficient,
            monomial,
            terms,
            variables,
            list,
            stage.atoms,
            ors,
            stage.ors,
            stage.rounds,
        );
    }
    stage
}

// What step 1 has gathered, through steps 2 to 6: the node's direct atoms, and the walk over its OR children.
pub fn finish(
    coefficient: &[i32],
    monomial: &[u64],
    terms: &[u8],
    variables: usize,
    atoms: Row,
    walked: Walked,
    largest: usize,
) -> Finished
    requires { Forms (lent_table coefficient monomial terms variables) × Gathered atoms walked }
    ensures { let t = lent_table coefficient.entry monomial.entry terms.entry variables in ((l : List ℕ) (walk : Walk) → Lists atoms l → Stands t walked walk → FinishIs t l walk (atoms.count + room walked) largest result.level result.rounds) }
{
    let mut list = atoms.token;
    let n = atoms.count;
    let stay = walked.ors;
    let mut ors = stay.token;
    let stage = if walked.falls {
        never(&mut ors, largest)
    } else {
        let join = walked.new;
        let new = join.token;
        let more = join.count;
        lay(&mut list, n, &new, 0, more);
        settle(
            coefficient,
            monomial,
            terms,
            variables,
            &mut list,
            n + more,
            &mut ors,
            stay.count,
            largest,
        )
    };
    Finished {
        level: Level {
            atoms: Row {
                token: list,
                count: stage.atoms,
            },
            ors: Row {
                token: ors,
                count: stage.ors,
            },
        },
        rounds: stage.rounds,
    }
}
