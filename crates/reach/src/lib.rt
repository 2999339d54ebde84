#![tactic(auto)]
// Reachability: monster.rs's is_invertible.
ghost use Rattle.std.specs.Prelude.{◌≡◌};
ghost use Rattle.reach.specs.Table.{table_says};

use bitvec::BitVector;
use symbols::BVOperator::*;
use symbols::OperandSide::*;
use symbols::{BVOperator, OperandSide};

// Whether the table says that some x on side d of op gives t with s, row by row. Where the table is wrong: crate existence.
#[tactic(auto, unfolding(crate::specs::Table::table_says))]
pub fn is_invertible(op: BVOperator, s: BitVector, t: BitVector, d: OperandSide) -> bool
    ensures { result ≡ table_says op d s.0 t.0 }
{
    match (op, d) {
        // "always"; "reachability of Not is yes"
        (Add | Sub | Equals | Not, _) => true,
        // "(−s or s) and t = t, by bits"
        (Mul, _) => (-s | s) & t == t,
        // "s = 0: t = M; else t·s ≤ M"
        (Divu, Lhs) if s.0 == 0 => t.0 == u64::MAX,
        (Divu, Lhs) => !t.mulo(s),
        // "t = 0: s ≠ M; else t = M or s ≥ t"
        (Divu, Rhs) if t.0 == 0 => s.0 != u64::MAX,
        (Divu, Rhs) => t.0 == u64::MAX || s >= t,
        // "t = 0 or s ≠ 0"
        (Sltu, Lhs) => t.0 == 0 || s.0 != 0,
        // "t = 0 or s ≠ M"
        (Sltu, Rhs) => t.0 == 0 || s.0 != u64::MAX,
        // "s > t"
        (Remu, Lhs) => s > t,
        // "s = t, or s > t and s − t > t": where s > t the difference does not wrap.
        (Remu, Rhs) => s == t || s > t && s - t > t,
        // "t and s = t"
        (BitwiseAnd, _) => t & s == t,
    }
}
