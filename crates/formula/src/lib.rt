#![tactic(auto)]
// The graph file: where its formula stands, the record of a node, the node. No function of this crate has a `requires`, and the
// crates above it read the file's bytes by its functions alone.
ghost use Rattle.std.specs.Prelude.{◌≡◌};
ghost use Rattle.formula.specs.Graph.{node_is};
ghost use Rattle.formula.specs.View.{symbol_of, operand_of, operands_of, is_leaf};

use bitvec::BitVector;
use symbols::{BVOperator, Port, Symbol, SymbolId};
pub use view::FormulaView;
use view::OperandIds;

pub mod bytes;
pub mod record;
pub mod view;

// Where a file's formula stands: the place of record 0, the number of nodes, the root.
#[derive(Clone, Copy)]
pub struct Formula {
    pub first: usize,
    pub count: u32,
    pub root: SymbolId,
}

// What byte 0 of a record says.
#[derive(Clone, Copy)]
pub enum Kind {
    Constant,
    Input,
    Unary,
    Binary(BVOperator),
}

// A node: a constant and its value, an input with its label and width, Not and its operand, any other operator and its two.
#[derive(Clone, Copy)]
pub enum Node {
    Constant(BitVector),
    Input(Port),
    Unary(SymbolId),
    Binary(BVOperator, SymbolId, SymbolId),
}

impl Node {
    pub fn symbol(self) -> Symbol
        ensures { result ≡ symbol_of (node_is self) }
    {
        match self {
            Node::Constant(v) => Symbol::Constant(v),
            Node::Input(p) => Symbol::Input(p.label),
            Node::Unary(_) => Symbol::Operator(BVOperator::Not),
            Node::Binary(op, _, _) => Symbol::Operator(op),
        }
    }

    // The left or only operand. A leaf has none, and answers the id that it is asked with: its own.
    pub fn operand(self, id: SymbolId) -> SymbolId
        ensures { result.0 ≡ operand_of id.0 (node_is self) }
    {
        match self {
            Node::Constant(_) | Node::Input(_) => id,
            Node::Unary(a) | Node::Binary(_, a, _) => a,
        }
    }

    pub fn operands(self) -> OperandIds
        ensures { result ≡ operands_of (node_is self) }
    {
        match self {
            Node::Constant(_) | Node::Input(_) => OperandIds::None,
            Node::Unary(a) => OperandIds::One(a),
            Node::Binary(_, a, b) => OperandIds::Two(a, b),
        }
    }

    // Whether it is no operator, as in the source.
    pub fn is_operand(self) -> bool
        ensures { result ≡ is_leaf (node_is self) }
    {
        matches!(self, Node::Constant(_) | Node::Input(_))
    }
}
