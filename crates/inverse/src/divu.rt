// The inverse value of Divu.
ghost use Rattle.std.specs.Prelude.{◌≡◌};
ghost use Rattle.rules.specs.Rules.{draw_of};
ghost use Rattle.rules.specs.One.{inverse_at};

use bitvec::BitVector;
use rules::as_value;
use symbols::OperandSide::*;
use symbols::{BVOperator, OperandSide};
use words::{Drawn, WordSource};

#[tactic(auto, unfolding(rules::specs::One::inverse_at))]
pub fn inverse_divu(
    s: BitVector,
    t: BitVector,
    d: OperandSide,
    words: &[u64],
    source: WordSource,
) -> Drawn<BitVector>
    ensures { draw_of result ≡ inverse_at BVOperator.Divu d s.0 t.0 words.now source.at }
{
    match d {
        // "s = 0: 0..M; t = M, s = 1: M, no word; else t·s..min(M, t·s + s − 1)"
        Lhs if s.0 == 0 => source.range(words, 0, u64::MAX).map(as_value),
        Lhs if t.0 == u64::MAX && s.0 == 1 => Some((BitVector(u64::MAX), source)),
        Lhs => {
            let first = (t * s).0;
            let last = first.saturating_add(s.0 - 1);
            source.range(words, first, last).map(as_value)
        }
        // "t = s = M: 0..1; else t = M: 0; else s/t by the operator"
        Rhs if t.0 == u64::MAX && s.0 == u64::MAX => source.range(words, 0, 1).map(as_value),
        Rhs if t.0 == u64::MAX => Some((BitVector(0), source)),
        Rhs => Some((s / t, source)),
    }
}
