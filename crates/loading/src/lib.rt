// Loading that a power cut cannot hurt: the check at the start, the order of the byte writes for drivers, and a whole load.
// Crate loading_laws says what each cut leaves. Every area and every block may be lent: nothing relies on a caller having checked.

#![tactic(auto)]

ghost use Rattle.std.specs.Prelude.{◌≡◌, eqb, length, ◌+◌, ◌≤◌, ◌<◌};
ghost use Rattle.rules.specs.Block.{read_block};
ghost use Rattle.loading_laws.specs.Loading.{start_from, start_of, started_part, load_answer, first_write, image_after};
ghost use Rattle.loading_laws.specs.Loading.{place as place_of, value as value_of, step as step_of, load as load_of};
ghost use Rattle.loading.specs.Refusals.{number_of, by_number};
ghost use Rattle.loading.specs.declared.Refusal.TheVariants.{Block as BlockRefused};
ghost use Rattle.loading.specs.Started.{found, is_refusal, LentLength};

use block::read_into;

pub mod exported; // the entries for C

// Why nothing starts, or why nothing is loaded.
#[derive(Clone, Copy, Debug, PartialEq, Eq)]
pub enum Refusal {
    // 1: the area is shorter than the block
    AreaShort,
    // the block's own refusal
    Block(block::Refusal),
}

impl Refusal {
    // The number that the documents give it.
    pub fn number(self) -> u8
        ensures { result ≡ number_of self }
    {
        match self {
            Refusal::AreaShort => 1,
            Refusal::Block(refusal) => refusal.number(),
        }
    }
}

impl From<block::Refusal> for Refusal {
    ghost from_gives = { λ refusal given. given ≡ BlockRefused refusal };

    fn from(refusal: block::Refusal) -> Refusal {
        Refusal::Block(refusal)
    }
}

fn wide(byte: u8) -> usize
    ensures { (result ≡ byte) × (result < 256) }
{
    byte as usize
}

// Whether these bytes are a block: its length, or the first refusal.
fn accepted(bytes: &[u8]) -> Result<usize, Refusal>
    ensures { by_number result ≡ found (start_from bytes.now (read_block bytes.now)) }
{
    let mut coefficient = [0i32; 1024];
    let mut monomial = [0u64; 1024];
    let mut terms = [0u8; 64];
    let mut token = [0u32; 255];
    let contents = read_into(
        bytes,
        &mut coefficient,
        &mut monomial,
        &mut terms,
        &mut token,
    );
    match contents {
        Err(refusal) => Err(Refusal::Block(refusal)),
        Ok(_) => Ok(bytes.len()),
    }
}

// How many bytes of an area are read: as many as its head says; all, if it says fewer than five or more than there are.
fn lent_length(area: &[u8]) -> usize
    ensures { LentLength area.now result }
{
    let all = area.len();
    if all < 5 {
        return all;
    }
    let said = wide(area[3]) * 256 + wide(area[4]);
    if said < 5 {
        return all;
    }
    if all < said {
        return all;
    }
    said
}

// The check at the start: the length of the block that starts, or the refusal's number. It looks at every bit of the block.
pub fn start(area: &[u8]) -> Result<usize, Refusal>
    ensures { by_number result ≡ found (start_of area.now) }
{
    let size = lent_length(area);
    accepted(&area[..size])
}

// The filled part of the area itself, empty exactly on refusal.
pub fn started<'a>(area: &'a [u8]) -> &'a [u8]
    ensures { let start = start_of area.now in
        (result.now ≡ started_part start) × (result.ref_ptr ≡ area.entry.ref_ptr) × (eqb (length result.now) 0 ≡ is_refusal start) }
{
    let size = start(area).unwrap_or(0);
    &area[..size]
}

// ---- the order of the writes: 0 puts 255 into byte 3, 1 to size - 1 are those of the other bytes in their order, the last puts the block's byte 3

// Which byte write k of a load of so many bytes puts.
pub fn place(size: usize, k: usize) -> usize
    ensures { result ≡ place_of size k }
{
    if k == 0 {
        return 3;
    }
    if k == size {
        return 3;
    }
    if k <= 3 {
        return k - 1;
    }
    k
}

// What write k of a load of this block puts there.
pub fn value(block: &[u8], k: usize) -> u8
    ensures { result ≡ value_of block.now k }
{
    if k == 0 {
        return 255;
    }
    let at = place(block.len(), k);
    if at < block.len() {
        return block[at];
    }
    0
}

// The number of the first write: write 0 is left out where byte 3 is 255 already.
pub fn first_write(area: &[u8]) -> usize
    ensures { result ≡ first_write area.now }
{
    if area.len() <= 3 {
        return 0;
    }
    if area[3] == 255 {
        return 1;
    }
    0
}

// Write k of a load of this block: the area is as it was but for that one byte.
pub fn step(area: &mut [u8], block: &[u8], k: usize)
    ensures { area.new ≡ step_of block.now area.old k }
{
    let at = place(block.len(), k);
    if at < area.len() {
        area[at] = value(block, k);
    }
}

// Every write of a load, one after the other.
fn write_all(area: &mut [u8], block: &[u8])
    requires { 5 ≤ length block.now }
    ensures { area.new ≡ image_after block.now area.old (length block.now + 1) }
{
    let size = block.len();
    for k in first_write(area)..size {
        step(area, block, k);
    }
    step(area, block, size);
}

// Loads a block into an area: the block's own refusal, then 1 if the area is shorter than the block, and the area is unchanged; else the block is
// written in the order of the writes, and stands in the area's first bytes.
pub fn load(block: &[u8], area: &mut [u8]) -> Result<usize, Refusal>
    ensures { (by_number result ≡ found (load_answer block.now area.old))
        × (area.new ≡ load_of block.now area.old) }
{
    let size = accepted(block)?;
    if area.len() < size {
        return Err(Refusal::AreaShort);
    }
    write_all(area, block);
    Ok(size)
}
