// What the sixteen bytes of a record say.
ghost use Rattle.std.specs.Prelude.{◌≡◌};
ghost use Rattle.formula.specs.File.{le32, le64};
ghost use Rattle.formula.specs.Graph.{kind_no, kind_of, port_of, node_by, node_is};

use super::bytes::{byte_at, u32_at, u64_at};
use super::{Kind, Node};
use bitvec::BitVector;
use symbols::{BVOperator, Port, SymbolId};

// Byte 0 of a record, by its number: the whole table as the paper has it, of which `BVOperator::from_number` has the operators.
const KINDS: [Kind; 11] = [
    Kind::Constant,
    Kind::Input,
    Kind::Binary(BVOperator::Add),
    Kind::Binary(BVOperator::Sub),
    Kind::Binary(BVOperator::Mul),
    Kind::Binary(BVOperator::Divu),
    Kind::Binary(BVOperator::Sltu),
    Kind::Binary(BVOperator::Remu),
    Kind::Unary,
    Kind::Binary(BVOperator::Equals),
    Kind::Binary(BVOperator::BitwiseAnd),
];

#[tactic(auto, unfolding(crate::specs::Graph::kind_no))]
pub fn record_kind(r: &[u8]) -> Option<Kind>
    ensures { result ≡ kind_of r.now }
{
    KINDS.get(byte_at(r, 0) as usize).copied()
}

pub fn left(r: &[u8]) -> SymbolId
    ensures { result.0 ≡ le32 r.now 4 }
{
    SymbolId(u32_at(r, 4))
}

pub fn right(r: &[u8]) -> SymbolId
    ensures { result.0 ≡ le32 r.now 8 }
{
    SymbolId(u32_at(r, 8))
}

// A constant's value, an input's label.
pub fn value(r: &[u8]) -> u64
    ensures { result ≡ le64 r.now 8 }
{
    u64_at(r, 8)
}

fn port(r: &[u8]) -> Port
    ensures { result ≡ port_of r.now }
{
    Port {
        label: value(r),
        width: byte_at(r, 4),
    }
}

// What a record of this kind holds. (Inlined: the check of a file asks a node for its width and its operands alone, and there the reading
// of values and labels falls away.)
#[inline(always)]
pub fn decode(k: Option<Kind>, r: &[u8]) -> Node
    ensures { node_is result ≡ node_by k r.now }
{
    match k {
        Some(Kind::Constant) => Node::Constant(BitVector(value(r))),
        Some(Kind::Input) => Node::Input(port(r)),
        Some(Kind::Unary) => Node::Unary(left(r)),
        Some(Kind::Binary(op)) => Node::Binary(op, left(r), right(r)),
        None => Node::Constant(BitVector(0)),
    }
}
