// Q-2: the nodes below a node, in the order of the source's `traverse`.
ghost use Rattle.std.specs.Prelude.{◌≡◌, [], ◌≤◌, ◌<◌, length, take};
ghost use Rattle.symbols.specs.Order.{Acyclic};
ghost use Rattle.visits.specs.Walk.{visit};
ghost use Rattle.formula.specs.View.{graph};
ghost use Rattle.order.specs.Walking.{Walking};
ghost use Rattle.order.specs.Finishing.{ahead};

use super::marks::clear;
use super::walk::{START, Walk, advance, push};
use formula::FormulaView;
use symbols::SymbolId;

// Turns until nothing is open: what was ahead is then at the front of the order. The answer is how many nodes that are.
fn finish_all(
    formula: &FormulaView,
    place: &mut [u32],
    order: &mut [u32],
    stack: &mut [u32],
    first: Walk,
) -> u32
    requires acyclic { Acyclic (graph formula.now) }
    requires walking { Walking (graph formula.now) place.old order.old stack.old first }
    requires few { formula.now.layout.count ≤ 4000 }
    ensures gathered { take result order.new ≡ ahead (graph formula.now) order.old stack.old first }
    ensures within { result ≤ formula.now.layout.count }
{
    let mut w = first;
    // Each turn opens a node or closes one, so this is no counted loop.
    while 0 < w.depth {
        // There always is a next turn: no node reaches itself.
        let Some(next) = advance(formula, place, order, stack, w) else {
            return 0;
        };
        w = next;
    }
    w.done
}

// The nodes below this one stand at the front of the order; the answer is how many they are.
pub fn gather(
    formula: &FormulaView,
    id: SymbolId,
    place: &mut [u32],
    order: &mut [u32],
    stack: &mut [u32],
) -> u32
    requires acyclic { Acyclic (graph formula.now) }
    requires few { formula.now.layout.count ≤ 4000 }
    requires placed { formula.now.layout.count ≤ length place.old }
    requires ordered { formula.now.layout.count ≤ length order.old }
    requires stacked { formula.now.layout.count ≤ length stack.old }
    requires inside { id.0 < formula.now.layout.count }
    ensures gathered { take result order.new ≡ visit (graph formula.now) id.0 [] }
    ensures within { result ≤ formula.now.layout.count }
{
    clear(place, formula.count());
    let w = push(place, stack, START, id);
    finish_all(formula, place, order, stack, w)
}
