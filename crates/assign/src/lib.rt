#![tactic(auto)]
// The values of all nodes: the start, and the pass that works every operator out, along a lent order in which operands come
// first. No function here has a `requires`.
// (The formula, the order, the words and the values stay apart, here and in the crates above: in a struct of loans each clause would
// read `graph s.now.formula.now` and `s.now.order.now` for `graph formula.now` and `order.now`.)
ghost use Rattle.std.specs.Prelude.{◌≡◌, ◌≤◌, get_or, set};
ghost use Rattle.symbols.specs.Operators.{apply};
ghost use Rattle.formula.specs.Graph.{node_is};
ghost use Rattle.formula.specs.View.{graph};
ghost use Rattle.search.specs.Machine.{value_of};
ghost use Rattle.assign.specs.Settle.{worked, along};
ghost use Rattle.assign.specs.Start.{first_by, given_up_to, start_along};
ghost use Rattle.assign.specs.Start as start;

use bitvec::BitVector;
use formula::{FormulaView, Node};
use places::put;
use symbols::{BVOperator, SymbolId};

// A node's value; of an id that has none, 0.
pub fn value_at(values: &[u64], id: SymbolId) -> BitVector
    ensures { result.0 ≡ get_or values.now id.0 0 }
{
    BitVector(values.get(id.0 as usize).copied().unwrap_or(0))
}

// Stores a node's value; of an id that has none, nothing.
pub fn store(values: &mut [u64], id: SymbolId, v: BitVector)
    ensures { values.new ≡ set values.old id.0 v.0 }
{
    put(values, id.0 as usize, v.0);
}

pub fn evaluate(op: BVOperator, x: BitVector, y: BitVector) -> BitVector
    ensures { result.0 ≡ apply op x.0 y.0 }
{
    match op {
        BVOperator::Add => x + y,
        BVOperator::Sub => x - y,
        BVOperator::Mul => x * y,
        BVOperator::Divu => x / y,
        BVOperator::Sltu => x.sltu(y),
        BVOperator::Remu => x % y,
        BVOperator::Not => x.is_zero(),
        BVOperator::Equals => x.equals(y),
        BVOperator::BitwiseAnd => x & y,
    }
}

// A node's value from those of its operands; a leaf's is the one it has.
pub fn work_out(n: Node, id: SymbolId, values: &[u64]) -> BitVector
    ensures { result.0 ≡ worked (node_is n) (get_or values.now id.0 0) (value_of values.now) }
{
    match n {
        Node::Constant(_) | Node::Input(_) => value_at(values, id),
        Node::Unary(a) => value_at(values, a).is_zero(),
        Node::Binary(op, a, b) => evaluate(op, value_at(values, a), value_at(values, b)),
    }
}

// Every operator, in one pass along the order: the source follows the dependents of each changed node, to the same end state. Past
// the end of an order that is too short stands node 0.
pub fn propagate_assignment(formula: &FormulaView, order: &[u32], values: &mut [u64])
    ensures { values.new ≡ along (graph formula.now) order.now values.old }
{
    for k in 0..formula.count() {
        let id = SymbolId(order.get(k as usize).copied().unwrap_or(0));
        let v = work_out(formula.node(id), id, values);
        store(values, id, v);
    }
}

// Stores an input's value and works every operator out again.
pub fn update_assignment(
    formula: &FormulaView,
    order: &[u32],
    values: &mut [u64],
    n: SymbolId,
    v: BitVector,
)
    ensures { values.new ≡ along (graph formula.now) order.now (set values.old n.0 v.0) }
{
    store(values, n, v);
    propagate_assignment(formula, order, values);
}

// The words that a node takes at the start.
fn takes(n: Node) -> u32
    ensures taken { result ≡ start.takes (node_is n) }
    ensures at_most_one { result ≤ 1 }
{
    match n {
        Node::Constant(_) => 0,
        Node::Input(_) | Node::Unary(_) | Node::Binary(..) => 1,
    }
}

// The words that the start takes: one for each node that is no constant.
pub fn wanted(formula: &FormulaView) -> u32
    ensures { result ≡ start.wanted (graph formula.now) }
{
    // A `for`, since of an iterator's `count` no bound is known that fits a u32.
    let mut count: u32 = 0;
    for i in 0..formula.count() {
        count += takes(formula.node(SymbolId(i)));
    }
    count
}

// A node's first value, with its word at a place; past the end, 0.
fn first_value(n: Node, words: &[u64], at: u32) -> BitVector
    ensures { result.0 ≡ first_by (node_is n) words.now at }
{
    let word = BitVector(words.get(at as usize).copied().unwrap_or(0));
    match n {
        Node::Constant(v) => v,
        Node::Input(p) => p.cut(word),
        Node::Unary(_) | Node::Binary(..) => word,
    }
}

// The first values: constants have their own, every other node takes a word, an input modulo 2^width.
fn give(formula: &FormulaView, words: &[u64], values: &mut [u64])
    ensures { values.new ≡ given_up_to (graph formula.now) words.now formula.now.layout.count values.old }
{
    let mut at: u32 = 0;
    for i in 0..formula.count() {
        let id = SymbolId(i);
        let node = formula.node(id);
        store(values, id, first_value(node, words, at));
        at += takes(node);
    }
}

// The start. It takes `wanted` words; where there are fewer, 0 stands for each that is missing.
pub fn initialize_ab(formula: &FormulaView, order: &[u32], words: &[u64], values: &mut [u64])
    ensures { values.new ≡ start_along (graph formula.now) order.now words.now values.old }
{
    give(formula, words, values);
    propagate_assignment(formula, order, values);
}
