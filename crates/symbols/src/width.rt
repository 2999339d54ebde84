// Q-3: which values an input can hold. A width above 64, which the check refuses, bounds no value.
ghost use Rattle.std.specs.Prelude.{◌≡◌, ◌%◌};
ghost use Rattle.symbols.specs.Width.{room, fits};

use super::Port;
use bitvec::BitVector;

impl Port {
    pub fn fits(self, v: BitVector) -> bool
        ensures { result ≡ fits self v.0 }
    {
        let w = self.width;
        if w == 0 || 64 <= w {
            return true;
        }
        v.0 < 1u64 << w
    }

    // "The starting word is taken modulo 2^width."
    pub fn cut(self, v: BitVector) -> BitVector
        ensures { result.0 ≡ v.0 % room self }
    {
        let w = self.width;
        if w == 0 || 64 <= w {
            return v;
        }
        BitVector(v.0 % (1u64 << w))
    }
}
