// The boards of a common run, one for each of its first forty rounds: that at the start of the round.
ghost use Rattle.std.specs.Prelude.{◌≡◌, ◌+◌, ◌*◌, ◌<◌};
ghost use Rattle.terms.specs.View.{sets_of};
ghost use Rattle.common_run.specs.Boards.{StoredAt, board_at};

use terms::Board;

// The sets of forty boards, sixteen of each.
#[derive(Clone, Copy)]
pub struct Boards {
    pub sets: [u8; 640],
}

pub fn no_boards() -> Boards {
    Boards { sets: [0; 640] }
}

// The board of one more round.
pub fn stored(boards: Boards, board: Board, round: usize) -> Boards
    requires { round < 40 }
    ensures { StoredAt boards.sets board.sets round result.sets }
{
    let mut more = boards;
    more.sets[16 * round..16 * round + 16].copy_from_slice(&board.sets);
    more
}

// A board of as many variables with the sets of that of a round.
pub fn restored(boards: Boards, board: Board, round: usize) -> Board
    requires { round < 40 }
    ensures { (result.variables ≡ board.variables) × (sets_of result ≡ board_at boards.sets round board.variables) }
{
    let mut left = board;
    left.sets
        .copy_from_slice(&boards.sets[16 * round..16 * round + 16]);
    left
}
