// The inverse value of Mul: "c is the number of trailing zeros of s; (t>>c) times the inverse of s>>c, or-ed with one word's top c
// bits (a word is drawn for c = 0 too). s = t = 0: one word".
ghost use Rattle.std.specs.Prelude.{◌≡◌};
ghost use Rattle.rules.specs.Rules.{draw_of};
ghost use Rattle.rules.specs.One.{mul_value, inverse_at};

use bitvec::BitVector;
use symbols::{BVOperator, OperandSide};
use words::{Drawn, WordSource};

fn mul_value(s: BitVector, t: BitVector, w: BitVector) -> BitVector
    ensures { result.0 ≡ mul_value s.0 t.0 w.0 }
{
    let c = s.ctz();
    // 0 alone has no odd part, and so no inverse.
    let Some(i) = (s >> c).modinverse() else {
        return w;
    };
    (t >> c) * i | w & !(BitVector::ones() >> c)
}

// The word is drawn for c = 0 too.
#[tactic(auto, unfolding(rules::specs::One::inverse_at))]
pub fn inverse_mul(
    s: BitVector,
    t: BitVector,
    words: &[u64],
    source: WordSource,
) -> Drawn<BitVector>
    ensures { (d : OperandSide) → draw_of result ≡ inverse_at BVOperator.Mul d s.0 t.0 words.now source.at }
{
    let (w, next) = source.draw(words)?;
    Some((mul_value(s, t, BitVector(w)), next))
}
