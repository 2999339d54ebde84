#![tactic(auto)]
// "Numbers of refusal" 1 to 7 and 13: the checks of a graph file, in the papers' order.
ghost use Rattle.std.specs.Prelude.{◌≤◌, ◌≡◌, length, OnOk, IfOk};
ghost use Rattle.laws.specs.Rows.{first};
ghost use Rattle.symbols.specs.Graph.{Inside};
ghost use Rattle.symbols.specs.Order.{Arranged};
ghost use Rattle.formula.specs.File.{trailer_of, formula_of};
ghost use Rattle.formula.specs.Graph.{node_is, graph_of};
ghost use Rattle.formula.specs.View.{graph};
ghost use Rattle.checks.specs.Refusals.{clean, wide, outside, fixed, head_rows, rows_of, record_rows, cycle_rows, root_rows, answer_of, verdict};

use formula::bytes::{all_zero, u32_at};
use formula::record::{decode, record_kind};
use formula::{Formula, FormulaView, Kind, Node};
use symbols::{Refusal, SymbolId};

// The last sixteen bytes, or all where there are fewer.
#[tactic(auto, using(formula::proofs::Reading::trailer_is))]
fn trailer(file: &[u8]) -> &[u8]
    ensures { result.now ≡ trailer_of file.now }
{
    &file[file.len().saturating_sub(16)..]
}

// Where the trailer says that the formula stands.
#[tactic(auto, unfolding(formula::specs::File::formula_of))]
fn layout(file: &[u8]) -> Formula
    ensures { result ≡ formula_of file.now }
{
    let trailer = trailer(file);
    let distance = u32_at(trailer, 0);
    Formula {
        first: file
            .len()
            .saturating_sub(16)
            .saturating_sub(distance as usize),
        count: distance / 16,
        root: SymbolId(u32_at(trailer, 4)),
    }
}

// Whether a record of this kind is zero wherever it must be.
fn is_clean(kind: Option<Kind>, r: &[u8]) -> bool
    ensures { result ≡ clean kind r.now }
{
    match kind {
        Some(Kind::Constant) => all_zero(r, 1, 7),
        Some(Kind::Input) => all_zero(r, 1, 3) && all_zero(r, 5, 3),
        Some(Kind::Unary) => all_zero(r, 1, 3) && all_zero(r, 8, 8),
        Some(Kind::Binary(_)) => all_zero(r, 1, 3) && all_zero(r, 12, 4),
        None => true,
    }
}

// Whether it is an input of more than 64 bits.
fn is_wide(n: Node) -> bool
    ensures { result ≡ wide (node_is n) }
{
    matches!(n, Node::Input(p) if 64 < p.width)
}

// Whether an operand is none of the n nodes.
fn is_outside(n: u32, node: Node) -> bool
    ensures { result ≡ outside n (node_is node) }
{
    match node {
        Node::Constant(_) | Node::Input(_) => false,
        Node::Unary(a) => n <= a.0,
        Node::Binary(_, a, b) => n <= a.0 || n <= b.0,
    }
}

// Whether it is a constant other than 1.
fn is_fixed(n: Node) -> bool
    ensures { result ≡ fixed (node_is n) }
{
    matches!(n, Node::Constant(v) if v.0 != 1)
}

#[tactic(auto, unfolding(crate::specs::Refusals::head_rows, laws::specs::Rows::first))]
fn check_head(file: &[u8]) -> Result<(), Refusal>
    ensures { result ≡ first (head_rows file.now) (Ok tt) }
{
    let length = file.len();
    if !(16..=65536).contains(&length) {
        return Err(Refusal::Size);
    }
    let trailer = trailer(file);
    if u32_at(trailer, 8) != 1 || u32_at(trailer, 12) != 0 {
        return Err(Refusal::Trailer);
    }
    let distance = u32_at(trailer, 0);
    if distance == 0
        || distance % 16 != 0
        || 64000 < distance
        || length.saturating_sub(16) < distance as usize
    {
        return Err(Refusal::Span);
    }
    Ok(())
}

#[tactic(auto, using(crate::proofs::Scanning::record_bad, crate::proofs::Scanning::record_order, crate::proofs::Scanning::record_clear))]
fn check_record(r: &[u8], n: u32, id: SymbolId) -> Result<(), Refusal>
    ensures { result ≡ first (rows_of r.now n id.0) (Ok tt) }
{
    let kind = record_kind(r);
    let node = decode(kind, r);
    if kind.is_none() || !is_clean(kind, r) || is_wide(node) {
        return Err(Refusal::Record(id));
    }
    if is_outside(n, node) {
        return Err(Refusal::Order(id));
    }
    Ok(())
}

fn check_records(formula: &FormulaView) -> Result<(), Refusal>
    ensures { result ≡ first (record_rows formula.now.file.now formula.now.layout formula.now.layout.count 0) (Ok tt) }
{
    for i in 0..formula.count() {
        let id = SymbolId(i);
        check_record(formula.lookup(id), formula.count(), id)?;
    }
    Ok(())
}

// The lowest id that reaches itself. (What it and `check_cycles` require is what `order`'s functions do, which take any view and any
// buffers that suffice.)
fn first_cycle(formula: &FormulaView, seen: &mut [u32], todo: &mut [u32]) -> Result<(), Refusal>
    requires inside { Inside (graph formula.now) }
    requires few { formula.now.layout.count ≤ 4000 }
    requires marks { formula.now.layout.count ≤ length seen.old }
    requires room { formula.now.layout.count ≤ length todo.old }
    ensures { result ≡ first (cycle_rows (graph formula.now) formula.now.layout.count 0) (Ok tt) }
{
    for i in 0..formula.count() {
        let id = SymbolId(i);
        if order::reaches_itself(formula, seen, todo, id) {
            return Err(Refusal::Cycle(id));
        }
    }
    Ok(())
}

// The nodes in an order in which operands come first, where they have one.
#[tactic(auto, using(crate::proofs::Cycles::arranged_clear, crate::proofs::Cycles::looped_found))]
fn check_cycles(
    formula: &FormulaView,
    place: &mut [u32],
    order: &mut [u32],
    stack: &mut [u32],
) -> Result<(), Refusal>
    requires inside { Inside (graph formula.now) }
    requires few { formula.now.layout.count ≤ 4000 }
    requires placed { 4000 ≤ length place.old }
    requires ordered { 4000 ≤ length order.old }
    requires stacked { 4000 ≤ length stack.old }
    ensures found { result ≡ first (cycle_rows (graph formula.now) formula.now.layout.count 0) (Ok tt) }
    ensures arranged { OnOk result (Arranged (graph formula.now) order.new) }
    ensures kept { length order.new ≡ length order.old }
{
    if order::arrange(formula, place, order, stack) {
        return Ok(());
    }
    first_cycle(formula, place, stack)
}

#[tactic(auto, unfolding(crate::specs::Refusals::root_rows, laws::specs::Rows::first))]
fn check_root(formula: &FormulaView) -> Result<(), Refusal>
    ensures { result ≡ first (root_rows formula.now.file.now formula.now.layout) (Ok tt) }
{
    let root = formula.root();
    if formula.count() <= root.0 {
        return Err(Refusal::Root);
    }
    if is_fixed(formula.node(root)) {
        return Err(Refusal::FixedRoot);
    }
    Ok(())
}

// Accepts a graph file, or says the first thing wrong with it. Of an accepted file, `order` begins with its nodes, each after its
// operands.
#[tactic(auto, using(crate::proofs::Joining::parts))]
pub fn check_order(file: &[u8], order: &mut [u32]) -> Result<Formula, Refusal>
    requires { 4000 ≤ length order.old }
    ensures answered { answer_of result ≡ verdict file.now }
    ensures arranged { IfOk result (λ m. Arranged (graph_of file.now m) order.new) }
    ensures kept { length order.new ≡ length order.old }
{
    // A place for each node of an accepted file.
    let mut place = [0; 4000];
    let mut stack = [0; 4000];
    let formula = FormulaView {
        file,
        layout: layout(file),
    };
    check_head(file)?;
    check_records(&formula)?;
    check_cycles(&formula, &mut place, order, &mut stack)?;
    check_root(&formula)?;
    Ok(formula.layout)
}

// The same, without the order.
pub fn check(file: &[u8]) -> Result<Formula, Refusal>
    ensures { answer_of result ≡ verdict file.now }
{
    check_order(file, &mut [0; 4000])
}
