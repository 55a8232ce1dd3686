// Which tries of two atoms can pass (02, #111): a form has one word for its parts that can be negative, and one for those that can be positive.
// If a monomial has a part of the wrong sign in p, u·q1 or v·q2 and none of the three the opposite one, all tries with factors of these signs fail.

#![tactic(auto)]

ghost use Rattle.std.specs.Prelude.{◌≡◌, ◌%◌, ◌^◌};
ghost use Rattle.deduce.specs.Runs.{Within};
ghost use Rattle.masks.specs.Weights.{when};
ghost use Rattle.masks.specs.Masks.{joined as joined_of, Weighed, MaskOf};

use deduce::Run;

pub mod cutting; // whether the tries of a pair may cut a set

// The words of a form on a board. Each of its monomials has a bit for either sign that it can have.
#[derive(Clone, Copy)]
pub struct Mask {
    pub negative: u64,
    pub positive: u64,
}

// The bit at a place, counted round a word, if a sign is there.
#[tactic(auto, unfolding(crate::specs::Weights::when))]
fn bit_if(there: bool, place: u64) -> u64
    ensures { result ≡ when there (2 ^ (place % 64)) }
{
    if there { 1 << (place % 64) } else { 0 }
}

// The words of one term: a monomial has one bit for where it is positive, and another one for where it is negative.
fn mask_of_term(c: i32, m: u64, s: u8) -> Mask
    ensures { Weighed c m s result }
{
    let place = m % 125;
    let above = bit_if(s % 2 == 1, place);
    let below = bit_if(s / 4 % 2 == 1, place + 22);
    if c < 0 {
        return Mask {
            negative: above,
            positive: below,
        };
    }
    if 0 < c {
        return Mask {
            negative: below,
            positive: above,
        };
    }
    Mask {
        negative: 0,
        positive: 0,
    }
}

pub fn joined(a: Mask, b: Mask) -> Mask
    ensures { result ≡ joined_of a b }
{
    Mask {
        negative: a.negative | b.negative,
        positive: a.positive | b.positive,
    }
}

// The words of the form at a run of places, from the signs of its monomials.
pub fn mask_of(coefficient: &[i32], monomial: &[u64], sign: &[u8], run: Run) -> Mask
    requires { Within coefficient.now monomial.now sign.now run }
    ensures { MaskOf coefficient.now monomial.now sign.now run result }
{
    let mut sofar = Mask {
        negative: 0,
        positive: 0,
    };
    for i in run.from..run.to {
        let c = coefficient[i];
        sofar = joined(sofar, mask_of_term(c, monomial[i], sign[i]));
    }
    sofar
}
