// The Debug text of a word: its binary digits between `<` and `>`.
ghost use Rattle.std.specs.Prelude.{◌≡◌, length};
ghost use Rattle.bitvec.specs.Debug.{debug_text, held};

use super::BitVector;

// The first `len` of `bytes` are the text, and the others are 0. (A vector of fixed capacity would not say what stands behind its
// text, which `debug`'s clause `bytes` does.)
#[derive(Clone, Copy)]
pub struct Text {
    pub bytes: [u8; 66],
    pub len: usize,
}

impl BitVector {
    // As many digits as the word has without its leading zeros, the last one first.
    pub fn debug(self) -> Text
        ensures len { result.len ≡ length (debug_text self.0) }
        ensures bytes { result.bytes ≡ held (debug_text self.0) }
    {
        let digits = (64 - self.0.leading_zeros()) as usize;
        let mut x = self.0;
        let mut bytes = [0u8; 66];
        bytes[0] = b'<';
        bytes[digits + 1] = b'>';
        for i in (1..=digits).rev() {
            bytes[i] = b'0' + (x % 2) as u8;
            x /= 2;
        }
        Text {
            bytes,
            len: digits + 2,
        }
    }
}
