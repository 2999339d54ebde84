// The consistent value of Sltu.
ghost use Rattle.std.specs.Prelude.{◌≡◌};
ghost use Rattle.rules.specs.Rules.{draw_of};
ghost use Rattle.rules.specs.One.{consistent_at};

use bitvec::BitVector;
use rules::as_value;
use symbols::OperandSide::*;
use symbols::{BVOperator, OperandSide};
use words::{Drawn, WordSource};

#[tactic(auto, unfolding(rules::specs::One::consistent_at))]
pub fn consistent_sltu(
    t: BitVector,
    d: OperandSide,
    words: &[u64],
    source: WordSource,
) -> Drawn<BitVector>
    ensures { draw_of result ≡ consistent_at BVOperator.Sltu d t.0 words.now source.at }
{
    match d {
        // "t = 0: 0..M; else 0..M−1."
        Lhs if t.0 == 0 => source.range(words, 0, u64::MAX).map(as_value),
        Lhs => source.range(words, 0, u64::MAX - 1).map(as_value),
        // "t = 0: 0..M; else 1..M−1."
        Rhs if t.0 == 0 => source.range(words, 0, u64::MAX).map(as_value),
        Rhs => source.range(words, 1, u64::MAX - 1).map(as_value),
    }
}
