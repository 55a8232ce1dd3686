// The entries for C to crate pool, declared in `include/placardpan.h`: the static library of them is what C links (docs/LINKING.md).
// To C the pool is a pointer to words and how many there are, and each outcome is one number: 0 is done, any other is that of the refusal.
// Each calls the function of its name in `pool::exported`, and says what that one says.

#![tactic(auto)]

ghost use Rattle.rules.specs.Block.{read_block};
ghost use Rattle.rules.specs.Pool.{add as add_book, withdraw as withdraw_book};
ghost use Rattle.pool.specs.Words.{pool_of, withdrawn_words};
ghost use Rattle.pool.specs.Entry.{Gives, entered, added_read};

use pool::exported;

// `add`.
#[unsafe(no_mangle)]
pub extern "C" fn placardpan_pool_add(pool: &mut [u64], number: usize, block: &[u8]) -> u8
    ensures { Gives pool.old pool.new result (entered pool.old (add_book number block.now (pool_of pool.old)))
        (added_read number (read_block block.now) pool.old) }
{
    exported::placardpan_pool_add(pool, number, block)
}

// `withdraw`.
#[unsafe(no_mangle)]
pub extern "C" fn placardpan_pool_withdraw(pool: &mut [u64], number: usize) -> u8
    ensures { Gives pool.old pool.new result (entered pool.old (withdraw_book number (pool_of pool.old)))
        (withdrawn_words number pool.old) }
{
    exported::placardpan_pool_withdraw(pool, number)
}
