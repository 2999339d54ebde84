#![tactic(auto)]
// What the program prints of a search, into a lent buffer. No function here has a `requires`.
ghost use Rattle.std.specs.Prelude.{◌+◌, ◌*◌, []};
ghost use Rattle.text.specs.Text.{Wrote, WroteUpTo};
ghost use Rattle.formula.specs.Graph.{node_is};
ghost use Rattle.formula.specs.View.{graph};
ghost use Rattle.turns.specs.Turn.{end_of, out_of};
ghost use Rattle.report.specs.Report.{end_word, counts, first_line, input_line, line_of, lines_below, result_text};

use formula::{FormulaView, Node};
use symbols::SymbolId;
use text::{put_field, put_text};
use turns::{End, Outcome};

fn put_end(out: &mut [u8], at: usize, e: End) -> usize
    ensures { Wrote (end_word (end_of e)) at out.old out.new result }
{
    match e {
        End::Solved => put_text(out, at, b"solved"),
        End::Spent => put_text(out, at, b"spent"),
        End::Dry => put_text(out, at, b"dry"),
    }
}

fn put_counts(out: &mut [u8], at: usize, o: Outcome) -> usize
    ensures { Wrote (counts (out_of o [])) at out.old out.new result }
{
    let a = put_field(out, at, b" rounds=", o.rounds as u64);
    let b = put_field(out, a, b" lost=", o.lost as u64);
    let c = put_field(out, b, b" steps=", o.steps as u64);
    put_field(out, c, b" words=", o.words as u64)
}

fn put_first(out: &mut [u8], at: usize, o: Outcome) -> usize
    ensures { WroteUpTo 85 (first_line (out_of o [])) at out.old out.new result }
{
    let a = put_end(out, at, o.end);
    let b = put_counts(out, a, o);
    put_text(out, b, b"\n")
}

fn put_input(out: &mut [u8], at: usize, id: u32, label: u64, v: u64) -> usize
    ensures { WroteUpTo 54 (input_line id label v) at out.old out.new result }
{
    let a = put_field(out, at, b"x", id as u64);
    let b = put_field(out, a, b" ", label);
    let c = put_field(out, b, b" ", v);
    put_text(out, c, b"\n")
}

#[tactic(auto, using(text::proofs::Writing::wrote_nothing), unfolding(crate::specs::Report::line_of))]
fn put_line(out: &mut [u8], at: usize, id: u32, n: Node, v: u64) -> usize
    ensures { WroteUpTo 54 (line_of id (node_is n) v) at out.old out.new result }
{
    match n {
        Node::Input(p) => put_input(out, at, id, p.label, v),
        Node::Constant(_) | Node::Unary(_) | Node::Binary(..) => at,
    }
}

fn put_lines(out: &mut [u8], at: usize, formula: &FormulaView, values: &[u64]) -> usize
    ensures { WroteUpTo (54 * formula.now.layout.count) (lines_below (graph formula.now) values.now formula.now.layout.count) at out.old out.new result }
{
    let mut n = at;
    for i in 0..formula.count() {
        let id = SymbolId(i);
        n = put_line(out, n, i, formula.node(id), assign::value_at(values, id).0);
    }
    n
}

pub fn result(formula: &FormulaView, o: Outcome, values: &[u64], out: &mut [u8]) -> usize
    ensures { WroteUpTo (85 + 54 * formula.now.layout.count) (result_text (graph formula.now) (out_of o values.now)) 0 out.old out.new result }
{
    let n = put_first(out, 0, o);
    put_lines(out, n, formula, values)
}
