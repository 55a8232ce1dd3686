// 02, #106: what becomes of the atoms of an AND: the whole is false by some of them, or step 5 keeps each or removes it on account of others.

#![tactic(auto)]

ghost use Rattle.std.specs.Prelude.{List, ℕ, ◌≤◌};
ghost use Rattle.table.specs.Table.{Forms};
ghost use Rattle.round.specs.Views.{lent_table};
ghost use Rattle.tape.specs.Row.{Lists};
ghost use Rattle.fates.specs.Fated.{Given, FatesOf};

use leaving::{Question, leave_out};
use merging::{behind_empty, join_all, not_full};
use round::State;
use steps::carrying::{carry, without_implied};
use tape::rows::{Row, append, empty, part};

// No run takes more rounds (`laws/Rounds: few-rounds`): where this is the largest number so far, none is counted. Nobody asks for the number here.
const MOST_ROUNDS: usize = 161;

// The merged atoms, full ones among them; those that carry their sets, and the state that they carry them from; those of them that stay.
// If the whole is false, `carried` has the atoms by which it is.
// kept: a flag beside values, no enum: the public contracts (specs/Fated, and those of reasons) name its fields, and stay as they are.
#[derive(Clone, Copy)]
pub struct Fates {
    pub joined: Row,
    pub carried: Row,
    pub left: Row,
    pub state: State,
    pub excluded: bool,
}

// What becomes of the atoms of an AND.
pub fn fate_of_all(
    coefficient: &[i32],
    monomial: &[u64],
    terms: &[u8],
    variables: usize,
    given: Row,
) -> Fates
    requires { let t = lent_table coefficient monomial terms variables in
        Forms t × Given given }
    ensures { let t = lent_table coefficient.entry monomial.entry terms.entry variables in
        ((l : List ℕ) → Lists given l → FatesOf t l result) }
{
    let joined = join_all(coefficient, monomial, terms, variables, given);
    let merged = not_full(joined);
    let behind = behind_empty(merged);
    let tokens = merged.token;
    let later = part(&tokens, behind, merged.count);
    let n = later.count;
    let mut list = later.token;
    let ran = carry(
        coefficient,
        monomial,
        terms,
        variables,
        &mut list,
        n,
        MOST_ROUNDS,
    );
    let state = ran.state;
    if ran.contradiction {
        let question = Question {
            state,
            token: 0,
            contradiction: true,
        };
        let named = leave_out(coefficient, monomial, terms, variables, question, later);
        return Fates {
            joined,
            carried: named,
            left: named,
            state,
            excluded: true,
        };
    }
    if 0 < behind {
        let named = append(empty(), merged, behind - 1, behind);
        return Fates {
            joined,
            carried: named,
            left: named,
            state,
            excluded: true,
        };
    }
    let carried = Row {
        token: list,
        count: n,
    };
    let remaining = without_implied(
        coefficient,
        monomial,
        terms,
        variables,
        &mut list,
        n,
        state,
        MOST_ROUNDS,
    );
    let left = Row {
        token: list,
        count: remaining.count,
    };
    Fates {
        joined,
        carried,
        left,
        state,
        excluded: false,
    }
}
