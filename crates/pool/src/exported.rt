// The entries for C, declared in `include/placardpan.h` and exported by crate pool_c.
// To C the pool is a pointer to words and how many there are, and each outcome is one number.
// 0 is done, any other is the number of the refusal.
ghost use Rattle.std.specs.Prelude.{◌≡◌};
ghost use Rattle.rules.specs.Block.{read_block};
ghost use Rattle.rules.specs.Pool.{add as add_book, withdraw as withdraw_book};
ghost use Rattle.pool.specs.Refusals.{told};
ghost use Rattle.pool.specs.Words.{pool_of, withdrawn_words};
ghost use Rattle.pool.specs.Entry.{Gives, entered, added_read};

use crate::{Refusal, add, withdraw};

// 0 if the call is done, else the refusal's number.
fn number_in(outcome: Result<(), Refusal>) -> u8
    ensures { result ≡ told outcome }
{
    match outcome {
        Ok(()) => 0,
        Err(refusal) => refusal.number(),
    }
}

// `add`.
pub fn placardpan_pool_add(pool: &mut [u64], number: usize, block: &[u8]) -> u8
    ensures { Gives pool.old pool.new result (entered pool.old (add_book number block.now (pool_of pool.old)))
        (added_read number (read_block block.now) pool.old) }
{
    number_in(add(pool, number, block))
}

// `withdraw`.
pub fn placardpan_pool_withdraw(pool: &mut [u64], number: usize) -> u8
    ensures { Gives pool.old pool.new result (entered pool.old (withdraw_book number (pool_of pool.old)))
        (withdrawn_words number pool.old) }
{
    number_in(withdraw(pool, number))
}
