#![tactic(auto)]
// mod.rs of the source: the sides, the nine operators, symbols and their ids; and the refusals of document 01 and of Q-1.
ghost use Rattle.std.specs.Prelude.{◌≡◌, not};
ghost use Rattle.symbols.specs.Operators.{other_side, is_unary, operator_of};
ghost use Rattle.symbols.specs.Refusals.{number_of, values_of, named_of};

use bitvec::BitVector;

pub mod width;

// A node's id: never a value, as a `BitVector` is never an id.
#[derive(Clone, Copy, PartialEq, Eq)]
pub struct SymbolId(pub u32);

#[derive(Clone, Copy, PartialEq, Eq)]
pub enum OperandSide {
    Lhs,
    Rhs,
}

impl OperandSide {
    pub fn other(self) -> OperandSide
        ensures { result ≡ other_side self }
    {
        match self {
            OperandSide::Lhs => OperandSide::Rhs,
            OperandSide::Rhs => OperandSide::Lhs,
        }
    }
}

#[derive(Clone, Copy, PartialEq, Eq)]
pub enum BVOperator {
    Add,
    Sub,
    Mul,
    Divu,
    Sltu,
    Remu,
    Not,
    Equals,
    BitwiseAnd,
}

impl BVOperator {
    // The operator of a kind's number. (No TryFrom: nobody would read its error.)
    #[tactic(auto, unfolding(crate::specs::Operators::operator_of, laws::specs::Rows::first))]
    pub fn from_number(n: u64) -> Option<BVOperator>
        ensures { result ≡ operator_of n }
    {
        match n {
            2 => Some(BVOperator::Add),
            3 => Some(BVOperator::Sub),
            4 => Some(BVOperator::Mul),
            5 => Some(BVOperator::Divu),
            6 => Some(BVOperator::Sltu),
            7 => Some(BVOperator::Remu),
            8 => Some(BVOperator::Not),
            9 => Some(BVOperator::Equals),
            10 => Some(BVOperator::BitwiseAnd),
            _ => None,
        }
    }

    pub fn is_unary(self) -> bool
        ensures { result ≡ is_unary self }
    {
        matches!(self, BVOperator::Not)
    }

    pub fn is_binary(self) -> bool
        ensures { result ≡ not (is_unary self) }
    {
        !self.is_unary()
    }
}

// An input: its label, and byte 4 of its record as it stands (specs/Width.antt reads it).
#[derive(Clone, Copy)]
pub struct Port {
    pub label: u64,
    pub width: u8,
}

// An input holds its label.
#[derive(Clone, Copy)]
pub enum Symbol {
    Constant(BitVector),
    Input(u64),
    Operator(BVOperator),
}

// "Numbers of refusal": specs/Refusals.antt gives each case its number and values.
#[derive(Clone, Copy, PartialEq, Eq)]
pub enum Refusal {
    Size,
    Trailer,
    Span,
    Record(SymbolId),
    Order(SymbolId),
    Root,
    FixedRoot,
    Room,
    Words,
    Arity,
    NoInverse,
    Dry,
    Cycle(SymbolId),
    Short,
}

impl Refusal {
    // What programs print and C reads. (No From: `u64::from(r)` would not say which number.)
    pub fn number(self) -> u64
        ensures { result ≡ number_of self }
    {
        match self {
            Refusal::Size => 1,
            Refusal::Trailer => 2,
            Refusal::Span => 3,
            Refusal::Record(_) => 4,
            Refusal::Order(_) => 5,
            Refusal::Root => 6,
            Refusal::FixedRoot => 7,
            Refusal::Room => 8,
            Refusal::Words => 9,
            Refusal::Arity => 10,
            Refusal::NoInverse => 11,
            Refusal::Dry => 12,
            Refusal::Cycle(_) => 13,
            Refusal::Short => 14,
        }
    }

    // The id that it names, if any.
    pub fn named(self) -> Option<SymbolId>
        ensures { named_of result ≡ values_of self }
    {
        match self {
            Refusal::Record(i) => Some(i),
            Refusal::Order(i) => Some(i),
            Refusal::Cycle(i) => Some(i),
            _ => None,
        }
    }
}
