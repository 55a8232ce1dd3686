// Runs the rounds over the list of each block of a stream and prints how they end.
// A block is an AND of atoms in normal form, of polynomials that all differ; so a polynomial's slot in the working table is its number.

#![tactic(auto)]

ghost use Rattle.std.specs.Prelude.{◌≡◌};
ghost use Rattle.removal_laws.specs.Settled.{Settled};
ghost use Rattle.table.specs.Table.{Forms};
ghost use Rattle.round.specs.Views.{state_of};
ghost use Rattle.forms.specs.Working.{TableRead, table_of};
ghost use Rattle.rounds.specs.Run.{NonVariable};

use block::Held;
use forms::WorkingTable;
use frames::answer_each;
use round::State;
use round::list::many;
use std::io;
use std::io::Write;
use table::Atoms;

// The list: the tokens behind the AND.
fn list_of(held: Held) -> Atoms {
    let token = held.token;
    let count = held.tokens.saturating_sub(1).min(64);
    let mut number = [0u8; 64];
    let mut set = [0u8; 64];
    for i in 0..count {
        let atom = token[i + 1];
        number[i] = (atom / 8 % 64) as u8;
        set[i] = (atom % 8) as u8;
    }
    Atoms { count, number, set }
}

// So many sets as digits, behind a space.
fn tell_sets<W: Write>(out: &mut W, sets: &[u8], count: usize) -> io::Result<()> {
    out.write_all(b" ")?;
    for set in sets.iter().take(count) {
        write!(out, "{set}")?;
    }
    Ok(())
}

// What a settled state says of the block's polynomials.
fn said(table: WorkingTable, variables: usize, state: State, polynomials: usize) -> [u8; 64]
    requires { Forms (table_of variables table) × ((state.board.variables ≡ variables) × Settled variables (state_of (table_of variables table) state)) }
{
    let coefficient = table.coefficient;
    let monomial = table.monomial;
    let terms = table.terms;
    let count = many(polynomials);
    let mut sign = [0u8; 1280];
    round::slots::sign_table(state.board, &monomial, &terms, &mut sign);
    let mut masks = [0u64; 128];
    let mut columns = [0u64; 130];
    let falls = search::words::words_of(
        &coefficient,
        &monomial,
        &terms,
        &sign,
        state.atoms,
        &mut masks,
        &mut columns,
    );
    let mut sets = [0u8; 64];
    for i in 0..count {
        let set = settled::says(
            &coefficient,
            &monomial,
            &terms,
            &sign,
            &masks,
            &columns,
            falls,
            variables,
            state,
            i,
        );
        sets[i] = set.0;
    }
    sets
}

// The sets on the board, those that the atoms of the list carry, and what the list says of the block's polynomials.
fn tell_state<W: Write>(
    out: &mut W,
    table: WorkingTable,
    variables: usize,
    list: Atoms,
    state: State,
    polynomials: usize,
) -> io::Result<()>
    requires { let t = table_of variables table in
        Forms t × ((state.board.variables ≡ variables) × (NonVariable t list state.atoms × Settled variables (state_of t state))) }
{
    let coefficient = table.coefficient;
    let monomial = table.monomial;
    let terms = table.terms;
    let board = state.board;
    let sets = board.sets;
    tell_sets(out, &sets, variables)?;
    let carried = settled::carried(&coefficient, &monomial, &terms, variables, list, state);
    let carried_sets = carried.set;
    tell_sets(out, &carried_sets, carried.count)?;
    let said_sets = said(table, variables, state, polynomials);
    tell_sets(out, &said_sets, polynomials)
}

fn tell_rounds<W: Write>(out: &mut W, held: Held) -> io::Result<()>
    requires { TableRead held.coefficient held.monomial held.terms held.polynomials held.variables }
{
    let variables = held.variables;
    let polynomials = held.polynomials;
    let list = list_of(held);
    let coefficient = held.coefficient;
    let monomial = held.monomial;
    let terms = held.terms;
    let table = forms::working(&coefficient, &monomial, &terms, polynomials, variables);
    let forms_coefficient = table.coefficient;
    let forms_monomial = table.monomial;
    let forms_terms = table.terms;
    let ran = rounds::run_counted(
        &forms_coefficient,
        &forms_monomial,
        &forms_terms,
        variables,
        list,
    );
    let state = ran.state;
    let begun = ran.begun;
    write!(out, "{begun}")?;
    if ran.contradiction {
        out.write_all(b" CONTRADICTION")?;
    } else {
        tell_state(out, table, variables, list, state, polynomials)?;
    }
    out.write_all(b"\n")
}

fn tell<W: Write>(out: &mut W, block: &[u8]) -> io::Result<()> {
    let Ok(held) = block::read(block) else {
        return out.write_all(b"REFUSED\n");
    };
    tell_rounds(out, held)
}

fn main(rt: HostRuntime) -> io::Result<()> {
    let mut space = [0u8; 65536];
    answer_each(
        &mut rt.stdin(),
        &mut rt.stdout(),
        &mut space,
        |out, block| tell(out, block),
    )
}
