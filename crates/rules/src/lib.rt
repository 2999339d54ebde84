#![tactic(auto)]
// What the value rules answer; specs/ says what they are, for any edition and for edition one.
ghost use Rattle.std.specs.Prelude.{◌≡◌};

use bitvec::BitVector;
use words::WordSource;

// A word that was drawn is the value, with the source after it: of a draw, `.map(as_value)`.
pub fn as_value(drawn: (u64, WordSource)) -> (BitVector, WordSource)
    ensures value { result.0.0 ≡ drawn.0 }
    ensures source { result.1 ≡ drawn.1 }
{
    let (x, next) = drawn;
    (BitVector(x), next)
}
