// The places of atoms on a tape, 02 #105: "the number, from 0, of the input atom in reading order"; how they are given to its tokens, and told again.
// An atom's token is place * 512 + slot * 8 + set, below 2 ^ 24; any other token is that of an AND or an OR, which is not counted.

#![tactic(auto)]

ghost use Rattle.std.specs.Prelude.{◌≡◌, ◌≤◌, length, take};
ghost use Rattle.places.specs.Places.{placed_tokens, places_over};

// Gives each atom among the first tokens of a tape its place; a node's token stays.
pub fn give(token: &mut [u32], count: usize)
    requires { (count ≤ length token.old) × (count ≤ 255) }
    ensures { token.new ≡ placed_tokens count token.old }
{
    let mut place: u32 = 0;
    for t in &mut token[..count] {
        if *t < 16777216 {
            *t = place * 512 + *t % 512;
            place += 1;
        }
    }
}

// Tells the places of the atoms among the first tokens of a tape, in order: the first bytes of the lent slice. The others keep their values.
pub fn tell(token: &[u32], count: usize, places: &mut [u8])
    requires { (count ≤ length token.now) × (count ≤ length places.old) }
    ensures { places.new ≡ places_over (take count token.now) places.old }
{
    let mut told = 0;
    for &t in &token[..count] {
        if t < 16777216 {
            places[told] = (t / 512 % 256) as u8;
            told += 1;
        }
    }
}
