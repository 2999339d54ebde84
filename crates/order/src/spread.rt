// The nodes that a node reaches: `todo` lists them, each once, and `seen` marks those that it lists.
ghost use Rattle.std.specs.Prelude.{◌≡◌, ◌+◌, ◌≤◌};
ghost use Rattle.order.specs.Spreading.{listing, meet_one, meet_all};

use super::marks::number_at;
use formula::Node;
use places::put;
use symbols::SymbolId;

// Lists a node that is not listed yet. The answer is how many are listed then. (4,001: the second operand comes after the first.)
#[tactic(auto, using(crate::proofs::Reaching::meet_new, crate::proofs::Reaching::meet_old))]
fn meet(seen: &mut [u32], todo: &mut [u32], tail: u32, id: SymbolId) -> u32
    requires { tail ≤ 4001 }
    ensures met { listing seen.new todo.new result ≡ meet_one (listing seen.old todo.old tail) id.0 }
    ensures one_more { result ≤ tail + 1 }
{
    if number_at(seen, id.0) == 0 {
        put(seen, id.0 as usize, 1);
        put(todo, tail as usize, id.0);
        return tail + 1;
    }
    tail
}

// Lists a node's operands.
pub fn meet_operands(n: Node, seen: &mut [u32], todo: &mut [u32], tail: u32) -> u32
    requires { tail ≤ 4000 }
    ensures { listing seen.new todo.new result ≡ meet_all n (listing seen.old todo.old tail) }
{
    match n {
        Node::Constant(_) | Node::Input(_) => tail,
        Node::Unary(a) => meet(seen, todo, tail, a),
        Node::Binary(_, a, b) => {
            let more = meet(seen, todo, tail, a);
            meet(seen, todo, more, b)
        }
    }
}
