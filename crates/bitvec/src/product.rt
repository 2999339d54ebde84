// The upper word of a product, from the four products of half-words, as an assembler listing works it out.
ghost use Rattle.std.specs.Prelude.{◌≡◌, ◌+◌, ◌*◌, ◌^◌};
ghost use Rattle.bitvec.specs.Word.{bvmul};

use super::BitVector;

impl BitVector {
    // With a for self, upper · 2^64 + lower = a · b, where `mul` gives the lower word. In base 2^32 a has the digits a1 a0, and b has b1 b0;
    // a product of two digits has two digits, hi and lo, and each stands in its column:
    //
    //                  2^96     2^64   |    2^32      1
    //   p00 = a0·b0                    |   hi p00   lo p00
    //   p01 = a0·b1            hi p01  |   lo p01
    //   p10 = a1·b0            hi p10  |   lo p10
    //   p11 = a1·b1   hi p11   lo p11  |
    //   carry                    c   <---- middle
    //                 ---------------  |   ---------------
    //                   upper word     |     lower word
    //
    // `middle` is the sum of the column of 2^32, and c = hi middle is 0, 1 or 2. The column of 1 carries nothing. (No u128: the wrong
    // edits carry_dropped and own_halves speak of the columns.)
    pub fn mulhi(self, b: BitVector) -> BitVector
        ensures { result.0 * 2 ^ 64 + bvmul self.0 b.0 ≡ self.0 * b.0 }
    {
        let a1 = self.0 / 0x1_0000_0000;
        let a0 = self.0 % 0x1_0000_0000;
        let b1 = b.0 / 0x1_0000_0000;
        let b0 = b.0 % 0x1_0000_0000;
        let p00 = a0 * b0;
        let p01 = a0 * b1;
        let p10 = a1 * b0;
        let p11 = a1 * b1;
        let middle = p00 / 0x1_0000_0000 + p01 % 0x1_0000_0000 + p10 % 0x1_0000_0000;
        BitVector(p11 + p01 / 0x1_0000_0000 + p10 / 0x1_0000_0000 + middle / 0x1_0000_0000)
    }
}
