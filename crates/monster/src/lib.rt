#![tactic(auto)]
// One step of the search: which operand is sought, and the value that is passed to it. No function here has a `requires`.
// (An operator, its operands and its target are parameters, in the order of `way_at`: a node's `Node` and `Walk` are taken apart once, in
// `step`.)
ghost use Rattle.std.specs.Prelude.{◌≡◌};
ghost use Rattle.formula.specs.Graph.{node_is};
ghost use Rattle.formula.specs.View.{graph};
ghost use Rattle.rules.specs.One.{hinders_one, one};
ghost use Rattle.values.specs.Answers.{got_of};
ghost use Rattle.monster.specs.Step.{is_constant, essential, way_at, toward, along_way, step_from, here_of, way_of, step_of};

use bitvec::BitVector;
use formula::{FormulaView, Node};
use symbols::{BVOperator, OperandSide, SymbolId};
use values::{Chosen, RanDry, Rule};
use words::WordSource;

// A node, its target and the source of the next word.
#[derive(Clone, Copy)]
pub struct Walk {
    pub node: SymbolId,
    pub target: BitVector,
    pub source: WordSource,
}

// What a step chose: Not has one value; at a binary operator the operand on a side gets the inverse or the consistent value.
#[derive(Clone, Copy)]
pub enum Choice {
    Not,
    Inverse(OperandSide),
    Consistent(OperandSide),
}

fn is_constant(n: Node) -> bool
    ensures { result ≡ is_constant (node_is n) }
{
    matches!(n, Node::Constant(_))
}

// Whether the sibling makes an operand with value s essential: d is the sibling's side, own the operator above both.
#[tactic(auto, unfolding(rules::specs::One::hinders_one))]
fn hinders(own: BVOperator, sibling: Node, d: OperandSide, s: BitVector, t: BitVector) -> bool
    ensures { result ≡ hinders_one own (node_is sibling) d s.0 t.0 }
{
    match sibling {
        Node::Constant(_) | Node::Input(_) => false,
        Node::Unary(_) => !reach::is_invertible(BVOperator::Not, s, t, d),
        Node::Binary(op, _, _) => !reach::is_invertible(op, s, t, d),
    }
}

#[tactic(auto, unfolding(crate::specs::Step::essential))]
fn is_essential(
    formula: &FormulaView,
    values: &[u64],
    own: BVOperator,
    this: SymbolId,
    side: OperandSide,
    other: SymbolId,
    t: BitVector,
) -> bool
    ensures { result ≡ essential (here_of one (graph formula.now) values.now) own side this.0 other.0 t.0 }
{
    let s = assign::value_at(values, this);
    hinders(own, formula.node(other), side.other(), s, t)
}

// Which operand of a binary operator is sought, with the source after the coin; nothing where the coin's word is missing.
#[tactic(auto, unfolding(crate::specs::Step::way_at, crate::specs::Step::sides, laws::specs::Rows::first))]
pub fn select(
    formula: &FormulaView,
    values: &[u64],
    words: &[u64],
    op: BVOperator,
    lhs: SymbolId,
    rhs: SymbolId,
    t: BitVector,
    source: WordSource,
) -> Option<(OperandSide, WordSource)>
    ensures { way_of result ≡ way_at (here_of one (graph formula.now) values.now) op lhs.0 rhs.0 t.0 words.now source.at }
{
    if is_constant(formula.node(lhs)) {
        return Some((OperandSide::Rhs, source));
    }
    if is_constant(formula.node(rhs)) {
        return Some((OperandSide::Lhs, source));
    }
    if is_essential(formula, values, op, lhs, OperandSide::Lhs, rhs, t) {
        return Some((OperandSide::Lhs, source));
    }
    if is_essential(formula, values, op, rhs, OperandSide::Rhs, lhs, t) {
        return Some((OperandSide::Rhs, source));
    }
    let (right, next) = source.coin(words)?;
    let side = if right {
        OperandSide::Rhs
    } else {
        OperandSide::Lhs
    };
    Some((side, next))
}

// The value chosen for the operand on side d goes to that operand.
fn pass_to(d: OperandSide, x: SymbolId, chosen: Chosen) -> (Walk, Choice)
    ensures { step_of (Ok result) ≡ toward d x.0 (got_of (Ok chosen)) }
{
    let walk = Walk {
        node: x,
        target: chosen.value,
        source: chosen.source,
    };
    match chosen.rule {
        Rule::Inverse => (walk, Choice::Inverse(d)),
        Rule::Consistent => (walk, Choice::Consistent(d)),
    }
}

#[tactic(auto, unfolding(crate::specs::Step::along_way))]
fn step_binary(
    formula: &FormulaView,
    values: &[u64],
    words: &[u64],
    op: BVOperator,
    lhs: SymbolId,
    rhs: SymbolId,
    t: BitVector,
    source: WordSource,
) -> Result<(Walk, Choice), RanDry>
    ensures { step_of result ≡ along_way (here_of one (graph formula.now) values.now) op lhs.0 rhs.0 t.0 words.now source.at (way_at (here_of one (graph formula.now) values.now) op lhs.0 rhs.0 t.0 words.now source.at) }
{
    let way = select(formula, values, words, op, lhs, rhs, t, source);
    let (d, next) = way.ok_or(RanDry { source })?;
    let (sought, other) = match d {
        OperandSide::Lhs => (lhs, rhs),
        OperandSide::Rhs => (rhs, lhs),
    };
    let s = assign::value_at(values, other);
    let chosen = values::value(op, s, t, d, words, next)?;
    Ok(pass_to(d, sought, chosen))
}

// One step. A leaf has none: it runs dry, with the source as it was.
#[tactic(auto, unfolding(crate::specs::Step::step_from))]
pub fn step(
    formula: &FormulaView,
    values: &[u64],
    words: &[u64],
    walk: Walk,
) -> Result<(Walk, Choice), RanDry>
    ensures { step_of result ≡ step_from (here_of one (graph formula.now) values.now) words.now walk.node.0 walk.target.0 walk.source.at }
{
    match formula.node(walk.node) {
        Node::Constant(_) | Node::Input(_) => Err(RanDry {
            source: walk.source,
        }),
        Node::Unary(a) => {
            let next = Walk {
                node: a,
                target: walk.target.is_zero(),
                ..walk
            };
            Ok((next, Choice::Not))
        }
        Node::Binary(op, a, b) => {
            step_binary(formula, values, words, op, a, b, walk.target, walk.source)
        }
    }
}
