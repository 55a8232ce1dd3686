// The words of the forms of a list's atoms (crate masks), once for a board, by which a pair is left out of which no try can cut.
// They are lent, as the signs are: the atom at i has its negative word at 2i and its positive one at 2i + 1.
ghost use Rattle.std.specs.Prelude.{◌≡◌, ◌+◌, ◌*◌, ◌<◌, length, set};
ghost use Rattle.round.specs.Signing.{Slots};
ghost use Rattle.search.specs.Masked.{SlotMask, mask_at as mask_at_of, MaskedAtoms};

use masks::{Mask, mask_of};
use round::list::many;
use round::slots::places;
use table::Atoms;

// The words of the form in slot k.
pub fn mask_of_slot(
    coefficient: &[i32],
    monomial: &[u64],
    terms: &[u8],
    sign: &[u8],
    k: usize,
) -> Mask
    requires { Slots monomial.now terms.now sign.now × ((length coefficient.now ≡ 1280) × (k < 80)) }
    ensures { SlotMask coefficient.now monomial.now terms.now sign.now k result }
{
    let run = places(terms, k);
    mask_of(coefficient, monomial, sign, run)
}

// The words at i.
pub fn mask_at(masks: &[u64], i: usize) -> Mask
    requires { (i < 64) × (length masks.now ≡ 128) }
    ensures { result ≡ mask_at_of masks.now i }
{
    let negative = masks[2 * i];
    let positive = masks[2 * i + 1];
    Mask { negative, positive }
}

fn put(masks: &mut [u64], i: usize, mask: Mask)
    requires { (i < 64) × (length masks.old ≡ 128) }
    ensures { masks.new ≡ set (set masks.old (2 * i) mask.negative) (2 * i + 1) mask.positive }
{
    masks[2 * i] = mask.negative;
    masks[2 * i + 1] = mask.positive;
}

// Those of all atoms of a list.
pub fn mask_list(
    coefficient: &[i32],
    monomial: &[u64],
    terms: &[u8],
    sign: &[u8],
    atoms: Atoms,
    masks: &mut [u64],
)
    requires { Slots monomial.now terms.now sign.now × ((length coefficient.now ≡ 1280) × (length masks.old ≡ 128)) }
    ensures { MaskedAtoms coefficient.now monomial.now terms.now sign.now atoms masks.new }
{
    for i in 0..many(atoms.count) {
        let k = (atoms.number[i] % 64) as usize;
        let mask = mask_of_slot(coefficient, monomial, terms, sign, k);
        put(masks, i, mask);
    }
}
