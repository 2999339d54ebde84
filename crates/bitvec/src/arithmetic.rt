// The arithmetic operators: sums, differences and products wrap, and a zero divisor has SMT-LIB's answers.
ghost use Rattle.std.specs.Prelude.{◌≡◌};
ghost use Rattle.bitvec.specs.Word.{bvadd, bvneg, bvsub, bvmul, bvudiv, bvurem};

use super::BitVector;
use std::ops::{Add, Div, Mul, Neg, Rem, Sub};

impl Neg for BitVector {
    type Output = BitVector;

    ghost neg_gives = { λ a r. r.0 ≡ bvneg a.0 };

    fn neg(self) -> BitVector {
        BitVector(self.0.wrapping_neg())
    }
}

impl Add for BitVector {
    type Output = BitVector;

    ghost add_gives = { λ a b r. r.0 ≡ bvadd a.0 b.0 };

    fn add(self, b: BitVector) -> BitVector {
        BitVector(self.0.wrapping_add(b.0))
    }
}

impl Sub for BitVector {
    type Output = BitVector;

    ghost sub_gives = { λ a b r. r.0 ≡ bvsub a.0 b.0 };

    fn sub(self, b: BitVector) -> BitVector {
        BitVector(self.0.wrapping_sub(b.0))
    }
}

impl Mul for BitVector {
    type Output = BitVector;

    ghost mul_gives = { λ a b r. r.0 ≡ bvmul a.0 b.0 };

    // The product's lower word, from the halves of 32 bits. The upper halves' own product is a multiple of 2^64. (No wrapping_mul: the
    // wrong edit cross_too_low speaks of the cross products.)
    fn mul(self, b: BitVector) -> BitVector {
        let x1 = self.0 / 0x1_0000_0000;
        let x0 = self.0 % 0x1_0000_0000;
        let y1 = b.0 / 0x1_0000_0000;
        let y0 = b.0 % 0x1_0000_0000;
        let cross = (x1 * y0).wrapping_add(x0 * y1);
        BitVector((x0 * y0).wrapping_add(cross << 32))
    }
}

impl Div for BitVector {
    type Output = BitVector;

    ghost div_gives = { λ a b r. r.0 ≡ bvudiv a.0 b.0 };

    fn div(self, b: BitVector) -> BitVector {
        if b.0 == 0 {
            return BitVector(u64::MAX);
        }
        BitVector(self.0 / b.0)
    }
}

impl Rem for BitVector {
    type Output = BitVector;

    ghost rem_gives = { λ a b r. r.0 ≡ bvurem a.0 b.0 };

    fn rem(self, b: BitVector) -> BitVector {
        if b.0 == 0 {
            return self;
        }
        BitVector(self.0 % b.0)
    }
}
