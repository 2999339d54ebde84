// The inverse value of Remu, with the divisor draw.
ghost use Rattle.std.specs.Prelude.{◌≡◌};
ghost use Rattle.rules.specs.Rules.{draw_of};
ghost use Rattle.rules.specs.One.{divisor_of, inverse_at};

use bitvec::BitVector;
use symbols::OperandSide::*;
use symbols::{BVOperator, OperandSide};
use words::{Drawn, WordSource};

// "k = 1 + w mod 4096, D = s − t; D/k if k divides D and D/k > t, else D": the source's get_divisors tries up to 2^32 divisions
#[tactic(auto, unfolding(rules::specs::One::divisor_of))]
fn divisor(s: BitVector, t: BitVector, w: u64) -> BitVector
    ensures { result.0 ≡ divisor_of s.0 t.0 w }
{
    let k = 1 + w % 4096;
    let diff = s - t;
    let quotient = BitVector(diff.0 / k);
    if diff.0 % k == 0 && quotient > t {
        quotient
    } else {
        diff
    }
}

#[tactic(auto, unfolding(rules::specs::One::inverse_at))]
pub fn inverse_remu(
    s: BitVector,
    t: BitVector,
    d: OperandSide,
    words: &[u64],
    source: WordSource,
) -> Drawn<BitVector>
    ensures { draw_of result ≡ inverse_at BVOperator.Remu d s.0 t.0 words.now source.at }
{
    match d {
        // "y·s + t, y from 1..(M−t)/s; if that is empty, t, no word"
        Lhs => {
            let most = (BitVector::ones() - t) / s;
            if most.0 < 1 {
                return Some((t, source));
            }
            let (y, next) = source.range(words, 1, most.0)?;
            Some((BitVector(y) * s + t, next))
        }
        // "s = t: from t..M, t read as 0; else divisor draw"
        Rhs if s == t => {
            let (x, next) = source.range(words, t.0, u64::MAX)?;
            let read = if x == t.0 { 0 } else { x };
            Some((BitVector(read), next))
        }
        Rhs => {
            let (w, next) = source.draw(words)?;
            Some((divisor(s, t, w), next))
        }
    }
}
