// Tokens of a tree. An atom's token is its place times 512, the slot of its polynomial in the table times 8, and its sign set; it lies below 2 ^ 24.
// Every function carries the place along unchanged (02, #105).
ghost use Rattle.std.specs.Prelude.{◌≡◌, ◌+◌, ◌*◌, ◌/◌, ◌%◌};
ghost use Rattle.tape.specs.Token.{slot, opposite as opposite_of};

use signs::SignSet;

// A node's token is this and its number of children; an atom's token lies below.
pub const NODE: u32 = 16777216;

// The slot of the table that an atom's token names.
pub fn slot_of(token: u32) -> usize
    ensures { result ≡ slot token }
{
    (token / 8 % 64) as usize
}

pub fn set_of(token: u32) -> SignSet
    ensures { result.0 ≡ token % 8 }
{
    SignSet((token % 8) as u8)
}

// The token with another set; all else of it stays.
pub fn with_set(token: u32, set: SignSet) -> u32
    ensures { result ≡ token / 8 * 8 + set.0 % 8 }
{
    token / 8 * 8 + (set.0 % 8) as u32
}

// The token with the complemented set.
pub fn opposite(token: u32) -> u32
    ensures { result ≡ opposite_of token }
{
    with_set(token, set_of(token).complement())
}
