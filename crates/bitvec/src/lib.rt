#![tactic(auto)]
// Words of 64 bits, with the operations of a bit-vector solver, each by value.
ghost use Rattle.std.specs.Prelude.{◌≡◌, ◌%◌, ◌==◌};
ghost use Rattle.bitvec.specs.Word.{M, sltu, equals, is_zero, ctz, addo, mulo};

mod arithmetic;
mod bits;
pub mod debug;
pub mod inverse;
pub mod product;

// Its order and equality are those of the numbers.
#[derive(Clone, Copy, PartialEq, Eq, PartialOrd, Ord)]
pub struct BitVector(pub u64);

impl BitVector {
    pub fn ones() -> BitVector
        ensures { result.0 ≡ M }
    {
        BitVector(u64::MAX)
    }

    pub fn sltu(self, b: BitVector) -> BitVector
        ensures { result.0 ≡ sltu self.0 b.0 }
    {
        BitVector((self < b) as u64)
    }

    pub fn equals(self, b: BitVector) -> BitVector
        ensures { result.0 ≡ equals self.0 b.0 }
    {
        BitVector((self == b) as u64)
    }

    // the operator Not: 1 for 0, else 0
    pub fn is_zero(self) -> BitVector
        ensures { result.0 ≡ is_zero self.0 }
    {
        BitVector((self.0 == 0) as u64)
    }

    pub fn odd(self) -> bool
        ensures { result ≡ (self.0 % 2 == 1) }
    {
        self.0 % 2 == 1
    }

    pub fn lsb(self) -> u64
        ensures { result ≡ self.0 % 2 }
    {
        self.0 % 2
    }

    pub fn ctz(self) -> u32
        ensures { result ≡ ctz self.0 }
    {
        self.0.trailing_zeros()
    }

    pub fn addo(self, b: BitVector) -> bool
        ensures { result ≡ addo self.0 b.0 }
    {
        self.0.checked_add(b.0).is_none()
    }

    pub fn mulo(self, b: BitVector) -> bool
        ensures { result ≡ mulo self.0 b.0 }
    {
        self.mulhi(b).0 != 0
    }
}
