// One line of the listing, at the front of a lent buffer. No function here has a `requires`.
ghost use Rattle.std.specs.Prelude.{◌≡◌, [], ◌∷◌, ◌++◌, ◌≤◌, length};
ghost use Rattle.text.specs.Text.{Wrote, WroteUpTo};
ghost use Rattle.formula.specs.Graph.{node_is};
ghost use Rattle.symbols.specs.Graph.{binary};
ghost use Rattle.listing.specs.Listing.{sign, name, quoted, meaning, line_of};

use formula::Node;
use symbols::{BVOperator, SymbolId};
use text::{put_byte, put_decimal, put_field, put_text};

fn sign_of(op: BVOperator) -> u8
    ensures { (result ∷ []) ≡ sign op }
{
    match op {
        BVOperator::Add => b'+',
        BVOperator::Sub => b'-',
        BVOperator::Mul => b'*',
        BVOperator::Divu => b'/',
        BVOperator::Sltu => b'<',
        BVOperator::Remu => b'%',
        BVOperator::Not => b'!',
        BVOperator::Equals => b'=',
        BVOperator::BitwiseAnd => b'&',
    }
}

fn put_input(out: &mut [u8], at: usize, label: u64) -> usize
    ensures { Wrote (quoted label) at out.old out.new result }
{
    let a = put_field(out, at, b"\"", label);
    put_text(out, a, b"\"")
}

fn put_binary(out: &mut [u8], at: usize, op: BVOperator, a: SymbolId, b: SymbolId) -> usize
    ensures { Wrote (meaning (binary op a.0 b.0)) at out.old out.new result }
{
    let n = put_field(out, at, b"x", a.0 as u64);
    let k = put_text(out, n, b" ");
    let l = put_byte(out, k, sign_of(op));
    put_field(out, l, b" x", b.0 as u64)
}

fn put_meaning(out: &mut [u8], at: usize, n: Node) -> usize
    ensures { WroteUpTo 25 (meaning (node_is n)) at out.old out.new result }
{
    match n {
        Node::Constant(v) => put_decimal(out, at, v.0),
        Node::Input(p) => put_input(out, at, p.label),
        Node::Unary(a) => put_field(out, at, b"!x", a.0 as u64),
        Node::Binary(op, a, b) => put_binary(out, at, op, a, b),
    }
}

// A line is at most 41 bytes long; 32 where the ids in it are below 10,000.
pub fn put_line(out: &mut [u8], id: SymbolId, n: Node) -> usize
    ensures { WroteUpTo 41 (line_of id.0 (node_is n)) 0 out.old out.new result }
{
    let a = put_field(out, 0, b"x", id.0 as u64);
    let b = put_text(out, a, b" := ");
    let c = put_meaning(out, b, n);
    put_text(out, c, b"\n")
}

// How long it is: what a writer answers on an empty buffer.
pub fn line_length(id: SymbolId, n: Node) -> usize
    ensures length { result ≡ length (line_of id.0 (node_is n)) }
    ensures most { result ≤ 41 }
{
    put_line(&mut [], id, n)
}
