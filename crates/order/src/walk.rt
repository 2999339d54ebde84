// The walk that arranges a graph: depth first, with a stack of its own. `place` says 0 of a node not met yet, 1 of an open one,
// which is on the stack, and r + 2 of one that is done and has place r. (Numbers and no enum: callers lend plain numbers to `arrange`,
// and the clauses of `step` speak of them.)
ghost use Rattle.std.specs.Prelude.{◌≡◌, ◌+◌, ◌-◌, ◌≤◌, ◌<◌, set};
ghost use Rattle.formula.specs.View.{graph};
ghost use Rattle.order.specs.Finishing.{ahead, Steady};
ghost use Rattle.order.specs.Walking.{look_by, move_of, Small, Walking, spent, Turned};

use super::marks::number_at;
use formula::{FormulaView, Node};
use places::put;
use symbols::SymbolId;

// The next id to begin at, how many nodes are open, and how many are done.
#[derive(Clone, Copy)]
pub struct Walk {
    pub next: u32,
    pub depth: u32,
    pub done: u32,
}

// Nothing is met yet.
pub const START: Walk = Walk {
    next: 0,
    depth: 0,
    done: 0,
};

// What is to be done at an open node: an operand not met yet is next, an operand is open, or the node is done.
#[derive(Clone, Copy)]
pub enum Move {
    Push(SymbolId),
    Open(SymbolId),
    Pop,
}

// What an operand with this mark asks for; `rest` where it is done.
fn look(mark: u32, id: SymbolId, rest: Move) -> Move
    ensures { result ≡ look_by mark id rest }
{
    match mark {
        0 => Move::Push(id),
        1 => Move::Open(id),
        _ => rest,
    }
}

fn next_move(n: Node, place: &[u32]) -> Move
    ensures { result ≡ move_of n place.now }
{
    match n {
        Node::Constant(_) | Node::Input(_) => Move::Pop,
        Node::Unary(a) => look(number_at(place, a.0), a, Move::Pop),
        Node::Binary(_, a, b) => {
            let rest = look(number_at(place, b.0), b, Move::Pop);
            look(number_at(place, a.0), a, rest)
        }
    }
}

// The next node is met already. (`Small` is asked, and no part of `Walk`, whose fields are anyone's to write.)
fn skip(w: Walk) -> Walk
    requires { Small w }
    ensures next { result.next ≡ w.next + 1 }
    ensures depth { result.depth ≡ w.depth }
    ensures done { result.done ≡ w.done }
{
    Walk {
        next: w.next + 1,
        ..w
    }
}

// A node not met yet is opened.
pub fn push(place: &mut [u32], stack: &mut [u32], w: Walk, id: SymbolId) -> Walk
    requires { Small w }
    ensures marked { place.new ≡ set place.old id.0 1 }
    ensures stacked { stack.new ≡ set stack.old w.depth id.0 }

    ensures next { result.next ≡ w.next }
    ensures depth { result.depth ≡ w.depth + 1 }
    ensures done { result.done ≡ w.done }
{
    put(place, id.0 as usize, 1);
    put(stack, w.depth as usize, id.0);
    Walk {
        depth: w.depth + 1,
        ..w
    }
}

// The open node u gets the next place.
fn pop(place: &mut [u32], order: &mut [u32], w: Walk, u: u32) -> Walk
    requires small { Small w }
    requires open { 0 < w.depth }
    ensures placed { place.new ≡ set place.old u (w.done + 2) }
    ensures ordered { order.new ≡ set order.old w.done u }

    ensures next { result.next ≡ w.next }
    ensures depth { result.depth ≡ w.depth - 1 }
    ensures done { result.done ≡ w.done + 1 }
{
    put(place, u as usize, w.done + 2);
    put(order, w.done as usize, u);
    Walk {
        depth: w.depth - 1,
        done: w.done + 1,
        ..w
    }
}

// One turn at the top of the stack, or nothing where some node reaches itself. What it leaves to list is what it found to list:
// `gather` rests on that.
pub fn advance(
    formula: &FormulaView,
    place: &mut [u32],
    order: &mut [u32],
    stack: &mut [u32],
    w: Walk,
) -> Option<Walk>
    requires walking { Walking (graph formula.now) place.old order.old stack.old w }
    requires few { formula.now.layout.count ≤ 4000 }
    requires open { 0 < w.depth }
    ensures turned { Turned (graph formula.now) place.new order.new stack.new (spent w + 1) result }
    ensures steady { Steady (graph formula.now) (ahead (graph formula.now) order.old stack.old w) order.new stack.new result }
{
    let u = number_at(stack, w.depth - 1);
    match next_move(formula.node(SymbolId(u)), place) {
        Move::Push(id) => Some(push(place, stack, w, id)),
        Move::Open(_) => None,
        Move::Pop => Some(pop(place, order, w, u)),
    }
}

// One turn of a walk that is not over, or nothing where some node reaches itself.
pub fn step(
    formula: &FormulaView,
    place: &mut [u32],
    order: &mut [u32],
    stack: &mut [u32],
    w: Walk,
) -> Option<Walk>
    requires walking { Walking (graph formula.now) place.old order.old stack.old w }
    requires few { formula.now.layout.count ≤ 4000 }
    requires left { w.done < formula.now.layout.count }
    ensures { Turned (graph formula.now) place.new order.new stack.new (spent w + 1) result }
{
    if 0 < w.depth {
        return advance(formula, place, order, stack, w);
    }
    if number_at(place, w.next) == 0 {
        return Some(push(place, stack, w, SymbolId(w.next)));
    }
    Some(skip(w))
}
