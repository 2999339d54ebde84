// The inverse value of Sltu.
ghost use Rattle.std.specs.Prelude.{◌≡◌};
ghost use Rattle.rules.specs.Rules.{draw_of};
ghost use Rattle.rules.specs.One.{inverse_at};

use bitvec::BitVector;
use rules::as_value;
use symbols::OperandSide::*;
use symbols::{BVOperator, OperandSide};
use words::{Drawn, WordSource};

#[tactic(auto, unfolding(rules::specs::One::inverse_at))]
pub fn inverse_sltu(
    s: BitVector,
    t: BitVector,
    d: OperandSide,
    words: &[u64],
    source: WordSource,
) -> Drawn<BitVector>
    ensures { draw_of result ≡ inverse_at BVOperator.Sltu d s.0 t.0 words.now source.at }
{
    match d {
        // "t = 0: s..M; else 0..s−1"
        Lhs if t.0 == 0 => source.range(words, s.0, u64::MAX).map(as_value),
        Lhs => source.range(words, 0, (s - BitVector(1)).0).map(as_value),
        // "t = 0: 0..s; else s+1..M"
        Rhs if t.0 == 0 => source.range(words, 0, s.0).map(as_value),
        Rhs => source
            .range(words, (s + BitVector(1)).0, u64::MAX)
            .map(as_value),
    }
}
