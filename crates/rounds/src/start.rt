// The state that the rounds over a list start from, 01 "Rounds": "variable i starts with its variable atom's set, else full".
// The atoms that are no variable's are kept in order.
ghost use Rattle.std.specs.Prelude.{◌≡◌, ◌<◌, ◌≤◌};
ghost use Rattle.rules.specs.Rounds.{start as start_of};
ghost use Rattle.table.specs.Table.{Forms, atoms_of};
ghost use Rattle.round.specs.Views.{lent_table, variable_of, Below, state_of};
ghost use Rattle.round.specs.Listed.{Listed};
ghost use Rattle.rounds.specs.Start.{Placed};

use round::State;
use round::list::{many, push};
use round::slots::{Holds, which};
use signs::SignSet;
use table::Atoms;
use terms::Board;

// The set of a variable's atom, on the board.
fn placed(board: Board, holds: Holds, set: SignSet) -> Board
    requires { (board.variables ≤ 16) × Below board.variables holds }
    ensures { Placed (variable_of holds) set.0 board result }
{
    match holds {
        Holds::Form => board,
        Holds::Variable(i) => {
            let mut narrowed = board;
            let old = board.sets[i];
            let new = SignSet(old).intersect(set);
            narrowed.sets[i] = new.0;
            narrowed
        }
    }
}

fn unless_variable(atoms: Atoms, holds: Holds, number: u8, set: u8) -> Atoms
    requires { atoms.count < 64 }
    ensures { Listed (variable_of holds) number set atoms result }
{
    match holds {
        Holds::Form => push(atoms, number, set),
        Holds::Variable(_) => atoms,
    }
}

pub fn start(
    coefficient: &[i32],
    monomial: &[u64],
    terms: &[u8],
    variables: usize,
    list: Atoms,
) -> State
    requires { Forms (lent_table coefficient monomial terms variables) }
    ensures { let t = lent_table coefficient.entry monomial.entry terms.entry variables in
        (result.board.variables ≡ variables) × (state_of t result ≡ start_of variables (atoms_of t list)) }
{
    let end = many(list.count);
    let mut board = Board {
        variables,
        sets: [SignSet::FULL.0; 16],
    };
    let mut atoms = Atoms {
        count: 0,
        number: [0; 64],
        set: [0; 64],
    };
    for i in 0..end {
        let number = list.number[i];
        let set = list.set[i];
        let k = (number % 64) as usize;
        let holds = which(coefficient, monomial, terms, variables, k);
        board = placed(board, holds, SignSet(set));
        atoms = unless_variable(atoms, holds, number, set);
    }
    State { board, atoms }
}
