// The consistent value of Mul: "t = 0 gives 0; else two words, low first, as r, redrawn while r = 0; if r has more trailing zeros than
// t, shift right to t's number; low 64 bits".
ghost use Rattle.std.specs.Prelude.{◌≡◌};
ghost use Rattle.rules.specs.Rules.{draw_of};
ghost use Rattle.rules.specs.One.{mul_consistent, consistent_at};

use bitvec::BitVector;
use symbols::{BVOperator, OperandSide};
use words::{Drawn, WordSource};

#[tactic(auto, unfolding(rules::specs::One::mul_consistent))]
fn mul_consistent(t: BitVector, low: u64, high: u64) -> BitVector
    requires { low ≡ 0 → high ≡ 0 → ⊥ }
    ensures { result.0 ≡ mul_consistent t.0 low high }
{
    let r = low as u128 + ((high as u128) << 64);
    let more = r.trailing_zeros().saturating_sub(t.ctz());
    BitVector(((r >> more) % (1 << 64)) as u64)
}

// On either side.
#[tactic(auto, unfolding(rules::specs::One::consistent_at))]
pub fn consistent_mul(t: BitVector, words: &[u64], source: WordSource) -> Drawn<BitVector>
    ensures { (d : OperandSide) → draw_of result ≡ consistent_at BVOperator.Mul d t.0 words.now source.at }
{
    if t.0 == 0 {
        return Some((BitVector(0), source));
    }
    let ((low, high), next) = source.two(words)?;
    Some((mul_consistent(t, low, high), next))
}
