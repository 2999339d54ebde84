#![tactic(auto)]
// The inverse value, raw: it is drawn by the row of the operator and side, whatever the table says. monster.rs's
// compute_inverse_value, which `values` has with its refusals, by operator and side. s is the other operand's value, t the target;
// Lhs: the operand sought is left.
ghost use Rattle.std.specs.Prelude.{◌≡◌};
ghost use Rattle.rules.specs.Rules.{draw_of};
ghost use Rattle.rules.specs.One.{inverse_at};

use bitvec::BitVector;
use rules::as_value;
use symbols::BVOperator::*;
use symbols::OperandSide::*;
use symbols::{BVOperator, OperandSide};
use words::{Drawn, WordSource};

pub mod divu;
pub mod mul;
pub mod remu;
pub mod sltu;

#[tactic(auto, unfolding(rules::specs::One::inverse_at))]
pub fn draw_inverse(
    op: BVOperator,
    s: BitVector,
    t: BitVector,
    d: OperandSide,
    words: &[u64],
    source: WordSource,
) -> Drawn<BitVector>
    ensures { draw_of result ≡ inverse_at op d s.0 t.0 words.now source.at }
{
    match (op, d) {
        // "t − s"
        (Add, _) => Some((t - s, source)),
        // "Lhs t + s; Rhs s − t"
        (Sub, Lhs) => Some((t + s, source)),
        (Sub, Rhs) => Some((s - t, source)),
        (Mul, _) => mul::inverse_mul(s, t, words, source),
        (Divu, _) => divu::inverse_divu(s, t, d, words, source),
        (Sltu, _) => sltu::inverse_sltu(s, t, d, words, source),
        (Remu, _) => remu::inverse_remu(s, t, d, words, source),
        // No row.
        (Not, _) => None,
        // "t = 0: words until one ≠ s; else s"
        (Equals, _) if t.0 == 0 => source.until_not(words, s.0).map(as_value),
        (Equals, _) => Some((s, source)),
        // "(word and not s) or t"
        (BitwiseAnd, _) => {
            let (w, next) = source.draw(words)?;
            Some((BitVector(w) & !s | t, next))
        }
    }
}
