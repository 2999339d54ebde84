// The consistent value of Remu.
ghost use Rattle.std.specs.Prelude.{◌≡◌};
ghost use Rattle.rules.specs.Rules.{draw_of};
ghost use Rattle.rules.specs.One.{consistent_at};

use bitvec::BitVector;
use rules::as_value;
use symbols::OperandSide::*;
use symbols::{BVOperator, OperandSide};
use words::{Drawn, WordSource};

#[tactic(auto, unfolding(rules::specs::One::consistent_at))]
pub fn consistent_remu(
    t: BitVector,
    d: OperandSide,
    words: &[u64],
    source: WordSource,
) -> Drawn<BitVector>
    ensures { draw_of result ≡ consistent_at BVOperator.Remu d t.0 words.now source.at }
{
    match d {
        // "t = M: M; else t..M."
        Lhs if t.0 == u64::MAX => Some((BitVector(u64::MAX), source)),
        Lhs => source.range(words, t.0, u64::MAX).map(as_value),
        // "t = M: 0; else t+1..M."
        Rhs if t.0 == u64::MAX => Some((BitVector(0), source)),
        Rhs => source.range(words, t.0 + 1, u64::MAX).map(as_value),
    }
}
