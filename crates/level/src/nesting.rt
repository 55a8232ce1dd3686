// 01, "A level", step 1 and the OR rule: "The AND rule and the OR rule call one another, each time one nesting lower."
// The tree is a tape of tokens, parent before children. A node's kind is not stored: it is the one that its parent's is not.
// kept: two functions in a cycle, and no rule with a parameter for the kind: document 01 names this form for this place ("Where each form goes").
ghost use Rattle.std.specs.Prelude.{◌≡◌, true, false, List, ℕ, suc, ◌+◌};
ghost use Rattle.table.specs.Table.{Forms};
ghost use Rattle.round.specs.Views.{lent_table};
ghost use Rattle.level.specs.Source.{Forest, size, Holds, Stood, Done};

use crate::settling::finish;
use tape::rows::Row;
use tape::tokens::{NODE, opposite};
use tape::walks::{Level, add, begin};

// What a rule makes of the node at a place, the place after the node, and the largest number of rounds so far, its runs and those below counted.
#[derive(Clone, Copy)]
pub struct Found {
    pub at: usize,
    pub level: Level,
    pub rounds: usize,
}

// The place after the node at this place.
fn skip(token: &[u32], at: usize) -> usize
    requires { (nesting : ℕ) × Stood token.now at nesting }
    ensures { (nesting : ℕ) (kids : Forest) (rest : List ℕ) → Holds token.now at nesting kids rest → result ≡ at + suc (size kids) }
{
    let mut place = at;
    let mut due: u32 = 1;
    // kept: how many tokens the node has is known only when its last part is passed
    while due > 0 {
        let next = token[place];
        place += 1;
        due -= 1;
        if next >= NODE {
            due += next - NODE;
        }
    }
    place
}

// The AND at this place: its atoms as they stand, and each OR under it by the OR rule. A false one leaves the later ones untouched.
#[cycle(and_rule_or_rule)]
pub fn and_rule(
    coefficient: &[i32],
    monomial: &[u64],
    terms: &[u8],
    variables: usize,
    token: &[u32],
    at: usize,
    nesting: usize,
    largest: usize,
) -> Found
    requires { Forms (lent_table coefficient monomial terms variables) × Stood token.now at nesting }
    ensures { let t = lent_table coefficient.entry monomial.entry terms.entry variables in ((kids : Forest) (rest : List ℕ) → Holds token.now at nesting kids rest → Done t true at nesting kids largest result) }
{
    let parts = token[at] - NODE;
    let mut list = [0u32; 256];
    let mut count = 0;
    let mut walked = begin();
    let mut rounds = largest;
    let mut place = at + 1;
    for _i in 0..parts {
        let part = token[place];
        if part < NODE {
            list[count] = part;
            count += 1;
            place += 1;
        } else if walked.falls {
            place = skip(token, place);
        } else {
            let found = or_rule(
                coefficient,
                monomial,
                terms,
                variables,
                token,
                place,
                nesting - 1,
                rounds,
            );
            place = found.at;
            rounds = found.rounds;
            let level = found.level;
            walked = add(walked, level);
        }
    }
    let atoms = Row {
        token: list,
        count: count,
    };
    let finished = finish(
        coefficient,
        monomial,
        terms,
        variables,
        atoms,
        walked,
        rounds,
    );
    let level = finished.level;
    Found {
        at: place,
        level: level,
        rounds: finished.rounds,
    }
}

// The OR at this place: its atoms complemented, and each AND under it by the AND rule.
#[cycle(and_rule_or_rule)]
pub fn or_rule(
    coefficient: &[i32],
    monomial: &[u64],
    terms: &[u8],
    variables: usize,
    token: &[u32],
    at: usize,
    nesting: usize,
    largest: usize,
) -> Found
    requires { Forms (lent_table coefficient monomial terms variables) × Stood token.now at nesting }
    ensures { let t = lent_table coefficient.entry monomial.entry terms.entry variables in ((kids : Forest) (rest : List ℕ) → Holds token.now at nesting kids rest → Done t false at nesting kids largest result) }
{
    let parts = token[at] - NODE;
    let mut list = [0u32; 256];
    let mut count = 0;
    let mut walked = begin();
    let mut rounds = largest;
    let mut place = at + 1;
    for _i in 0..parts {
        let part = token[place];
        if part < NODE {
            list[count] = opposite(part);
            count += 1;
            place += 1;
        } else if walked.falls {
            place = skip(token, place);
        } else {
            let found = and_rule(
                coefficient,
                monomial,
                terms,
                variables,
                token,
                place,
                nesting - 1,
                rounds,
            );
            place = found.at;
            rounds = found.rounds;
            let level = found.level;
            walked = add(walked, level);
        }
    }
    let atoms = Row {
        token: list,
        count: count,
    };
    let finished = finish(
        coefficient,
        monomial,
        terms,
        variables,
        atoms,
        walked,
        rounds,
    );
    let level = finished.level;
    Found {
        at: place,
        level: level,
        rounds: finished.rounds,
    }
}
