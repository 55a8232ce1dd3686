// Whether the monomials of the forms of a list's atoms fall, which crate sieve asks; and those of p's form too.
ghost use Rattle.std.specs.Prelude.{◌≡◌, true, ◌<◌};
ghost use Rattle.search.specs.Falling.{SlotPlaces, FallingSlot, FallingList};

use round::list::many;
use round::slots::places;
use sieve::rows::falls;
use table::Atoms;

// Of the form in slot k.
fn slot_falls(monomial: &[u64], terms: &[u8], k: usize) -> bool
    requires { SlotPlaces monomial.now terms.now × (k < 80) }
    ensures { result ≡ true → FallingSlot monomial.now terms.now k }
{
    let run = places(terms, k);
    falls(monomial, run)
}

// Of all atoms of a list.
pub fn all_fall(monomial: &[u64], terms: &[u8], atoms: Atoms) -> bool
    requires { SlotPlaces monomial.now terms.now }
    ensures { result ≡ true → FallingList monomial.now terms.now atoms }
{
    for i in 0..many(atoms.count) {
        let k = (atoms.number[i] % 64) as usize;
        if !slot_falls(monomial, terms, k) {
            return false;
        }
    }
    true
}

// Of a list, of which it is known, and of the form in slot p.
pub fn falls_with(monomial: &[u64], terms: &[u8], list: bool, p: usize) -> bool
    requires { SlotPlaces monomial.now terms.now × (p < 80) }
    ensures { result ≡ true → (list ≡ true) × FallingSlot monomial.now terms.now p }
{
    if list {
        return slot_falls(monomial, terms, p);
    }
    false
}
