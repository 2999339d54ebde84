#![tactic(auto)]
// Q-1: nodes in any order. An order of a graph's nodes in which operands come first, and whether a node reaches itself.
ghost use Rattle.std.specs.Prelude.{◌≡◌, ◌↔◌, ◌≤◌, ◌<◌, IsTrue, IsFalse, length};
ghost use Rattle.symbols.specs.Graph.{Inside, Depends};
ghost use Rattle.symbols.specs.Order.{Arranged, Looped};
ghost use Rattle.formula.specs.View.{graph};

use formula::FormulaView;
use marks::{clear, number_at};
use spread::meet_operands;
use symbols::SymbolId;
use walk::{START, step};

pub mod gather;
pub mod marks;
pub mod spread;
pub mod walk;

// Every node once, each behind its operands; or false, where some node reaches itself. (Three buffers and no struct: each is lent
// by itself, of any length that suffices, and the caller goes on with `order` alone. And no view with `inside` and `few` in its type,
// which would take fewer views than these clauses do.)
pub fn arrange(
    formula: &FormulaView,
    place: &mut [u32],
    order: &mut [u32],
    stack: &mut [u32],
) -> bool
    requires inside { Inside (graph formula.now) }
    requires few { formula.now.layout.count ≤ 4000 }
    requires placed { formula.now.layout.count ≤ length place.old }
    requires ordered { formula.now.layout.count ≤ length order.old }
    requires stacked { formula.now.layout.count ≤ length stack.old }
    ensures arranged { IsTrue result → Arranged (graph formula.now) order.new }
    ensures looped { IsFalse result → Looped (graph formula.now) }

    ensures place_kept { length place.new ≡ length place.old }
    ensures order_kept { length order.new ≡ length order.old }
    ensures stack_kept { length stack.new ≡ length stack.old }
{
    let count = formula.count();
    clear(place, count);
    let mut w = START;
    // A turn need not finish a node, so this is no counted loop.
    while w.done < count {
        let Some(next) = step(formula, place, order, stack, w) else {
            return false;
        };
        w = next;
    }
    true
}

// Whether a node reaches itself through operands.
pub fn reaches_itself(
    formula: &FormulaView,
    seen: &mut [u32],
    todo: &mut [u32],
    id: SymbolId,
) -> bool
    requires inside { Inside (graph formula.now) }
    requires few { formula.now.layout.count ≤ 4000 }
    requires marks { formula.now.layout.count ≤ length seen.old }
    requires room { formula.now.layout.count ≤ length todo.old }
    requires node { id.0 < formula.now.layout.count }
    ensures reaches { IsTrue result ↔ Depends (graph formula.now) id.0 id.0 }
    ensures seen_kept { length seen.new ≡ length seen.old }
    ensures todo_kept { length todo.new ≡ length todo.old }
{
    clear(seen, formula.count());
    let mut tail = meet_operands(formula.node(id), seen, todo, 0);
    let mut head: u32 = 0;
    // A work list, whose end moves while it is gone through.
    while head < tail {
        let u = number_at(todo, head);
        tail = meet_operands(formula.node(SymbolId(u)), seen, todo, tail);
        head += 1;
    }
    0 < number_at(seen, id.0)
}
