// Sign sets, 01 "Signs": a part of {negative, zero, positive} in three bits, in that order.
// Each method is the function of the same name of the book, for every byte: what lies above the three bits is not read.

#![tactic(auto)]

ghost use Rattle.std.specs.Prelude.{◌≡◌};
ghost use Rattle.signs.specs.ThreeBits.{three_bits, set_with};
ghost use Rattle.rules.specs.Signs.{square, mirror, complement, sum, product, intersect, inside};

#[derive(Clone, Copy)]
pub struct SignSet(pub u8);

// What the formulas are made of: the three bits of a set, and whether any of them is there.
#[derive(Clone, Copy)]
struct ThreeBits {
    negative: bool,
    zero: bool,
    positive: bool,
    any: bool,
}

// The set with these signs.
fn set_of(negative: bool, zero: bool, positive: bool) -> SignSet
    ensures { result.0 ≡ set_with negative zero positive }
{
    SignSet((negative as u8) << 2 | (zero as u8) << 1 | positive as u8)
}

impl SignSet {
    pub const EMPTY: SignSet = SignSet(0);

    pub const FULL: SignSet = SignSet(7);

    fn bits(self) -> ThreeBits
        ensures { result ≡ three_bits self.0 }
    {
        let set = self.0 % 8;
        ThreeBits {
            negative: set / 4 == 1,
            zero: set / 2 % 2 == 1,
            positive: set % 2 == 1,
            any: set != 0,
        }
    }

    pub fn square(self) -> SignSet
        ensures { result.0 ≡ square self.0 }
    {
        let a = self.bits();
        set_of(false, a.zero, a.negative | a.positive)
    }

    // Negative and positive exchanged.
    pub fn mirror(self) -> SignSet
        ensures { result.0 ≡ mirror self.0 }
    {
        let a = self.bits();
        set_of(a.positive, a.zero, a.negative)
    }

    pub fn complement(self) -> SignSet
        ensures { result.0 ≡ complement self.0 }
    {
        SignSet(7 - self.0 % 8)
    }

    pub fn sum(self, other: SignSet) -> SignSet
        ensures { result.0 ≡ sum self.0 other.0 }
    {
        let a = self.bits();
        let b = other.bits();
        let negative = a.negative & b.any | a.any & b.negative;
        let zero = a.zero & b.zero | a.negative & b.positive | a.positive & b.negative;
        let positive = a.positive & b.any | a.any & b.positive;
        set_of(negative, zero, positive)
    }

    pub fn product(self, other: SignSet) -> SignSet
        ensures { result.0 ≡ product self.0 other.0 }
    {
        let a = self.bits();
        let b = other.bits();
        let negative = a.negative & b.positive | a.positive & b.negative;
        let zero = a.zero & b.any | a.any & b.zero;
        let positive = a.negative & b.negative | a.positive & b.positive;
        set_of(negative, zero, positive)
    }

    pub fn intersect(self, other: SignSet) -> SignSet
        ensures { result.0 ≡ intersect self.0 other.0 }
    {
        SignSet((self.0 % 8) & (other.0 % 8))
    }

    // Whether this set lies inside the other; a number above 7 is no set and lies inside none.
    pub fn inside(self, other: SignSet) -> bool
        ensures { result ≡ inside self.0 other.0 }
    {
        self.intersect(other).0 == self.0
    }
}
