// The consistent value of Divu.
ghost use Rattle.std.specs.Prelude.{◌≡◌};
ghost use Rattle.rules.specs.Rules.{draw_of};
ghost use Rattle.rules.specs.One.{consistent_at};

use bitvec::BitVector;
use rules::as_value;
use symbols::OperandSide::*;
use symbols::{BVOperator, OperandSide};
use words::{Drawn, WordSource};

#[tactic(auto, unfolding(rules::specs::One::consistent_at))]
pub fn consistent_divu(
    t: BitVector,
    d: OperandSide,
    words: &[u64],
    source: WordSource,
) -> Drawn<BitVector>
    ensures { draw_of result ≡ consistent_at BVOperator.Divu d t.0 words.now source.at }
{
    match d {
        // "t = 0 or M: 0..M−1; else y·t wrapped, y one word redrawn while 0."
        Lhs if t.0 == 0 || t.0 == u64::MAX => source.range(words, 0, u64::MAX - 1).map(as_value),
        Lhs => {
            let (y, next) = source.nonzero(words)?;
            Some((BitVector(y) * t, next))
        }
        // "t = M: 0..1; t = 0: 1..M (the source panics); else 0..M/t."
        Rhs if t.0 == u64::MAX => source.range(words, 0, 1).map(as_value),
        Rhs if t.0 == 0 => source.range(words, 1, u64::MAX).map(as_value),
        Rhs => source.range(words, 0, u64::MAX / t.0).map(as_value),
    }
}
