// The operators on bits.
ghost use Rattle.std.specs.Prelude.{◌≡◌, ◌%◌};
ghost use Rattle.bitvec.specs.Word.{bvand, bvor, bvxor, bvnot, bvshl, bvlshr};

use super::BitVector;
use std::ops::{BitAnd, BitOr, BitXor, Not, Shl, Shr};

impl BitAnd for BitVector {
    type Output = BitVector;

    ghost bitand_gives = { λ a b r. r.0 ≡ bvand a.0 b.0 };

    fn bitand(self, b: BitVector) -> BitVector {
        BitVector(self.0 & b.0)
    }
}

impl BitOr for BitVector {
    type Output = BitVector;

    ghost bitor_gives = { λ a b r. r.0 ≡ bvor a.0 b.0 };

    fn bitor(self, b: BitVector) -> BitVector {
        BitVector(self.0 | b.0)
    }
}

impl BitXor for BitVector {
    type Output = BitVector;

    ghost bitxor_gives = { λ a b r. r.0 ≡ bvxor a.0 b.0 };

    fn bitxor(self, b: BitVector) -> BitVector {
        BitVector(self.0 ^ b.0)
    }
}

// The operator Not of the graph is `is_zero`.
impl Not for BitVector {
    type Output = BitVector;

    ghost not_gives = { λ a r. r.0 ≡ bvnot a.0 };

    fn not(self) -> BitVector {
        BitVector(!self.0)
    }
}

// "Shifts take their count modulo 64"
impl Shl<u32> for BitVector {
    type Output = BitVector;

    ghost shl_gives = { λ a k r. r.0 ≡ bvshl a.0 (k % 64) };

    fn shl(self, k: u32) -> BitVector {
        BitVector(self.0.wrapping_shl(k))
    }
}

impl Shr<u32> for BitVector {
    type Output = BitVector;

    ghost shr_gives = { λ a k r. r.0 ≡ bvlshr a.0 (k % 64) };

    fn shr(self, k: u32) -> BitVector {
        BitVector(self.0.wrapping_shr(k))
    }
}
