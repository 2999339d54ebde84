#![tactic(auto)]
// The consistent value: monster.rs's compute_consistent_value, which `values` has with its refusals, by operator and side. t is the
// target; Lhs: the operand sought is left.
ghost use Rattle.std.specs.Prelude.{◌≡◌};
ghost use Rattle.rules.specs.Rules.{draw_of};
ghost use Rattle.rules.specs.One.{consistent_at};

use bitvec::BitVector;
use rules::as_value;
use symbols::BVOperator::*;
use symbols::{BVOperator, OperandSide};
use words::{Drawn, WordSource};

pub mod divu;
pub mod mul;
pub mod remu;
pub mod sltu;

#[tactic(auto, unfolding(rules::specs::One::consistent_at))]
pub fn draw_consistent(
    op: BVOperator,
    t: BitVector,
    d: OperandSide,
    words: &[u64],
    source: WordSource,
) -> Drawn<BitVector>
    ensures { draw_of result ≡ consistent_at op d t.0 words.now source.at }
{
    match op {
        // "Add, Sub, Equals one word."
        Add | Sub | Equals => source.draw(words).map(as_value),
        // "BitwiseAnd word or t."
        BitwiseAnd => {
            let (w, next) = source.draw(words)?;
            Some((BitVector(w) | t, next))
        }
        Mul => mul::consistent_mul(t, words, source),
        Divu => divu::consistent_divu(t, d, words, source),
        Sltu => sltu::consistent_sltu(t, d, words, source),
        Remu => remu::consistent_remu(t, d, words, source),
        // No row.
        Not => None,
    }
}
