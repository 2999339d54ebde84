#![tactic(auto)]
// The line that a program prints of a refusal, into a lent buffer. No function here has a `requires`.
ghost use Rattle.text.specs.Text.{WroteUpTo};
ghost use Rattle.symbols.specs.Refusals.{number_of, values_of, named_of};
ghost use Rattle.refusals.specs.Line.{spaced, refusal_text};

use symbols::{Refusal, SymbolId};
use text::{put_field, put_text};

fn put_named(out: &mut [u8], at: usize, named: Option<SymbolId>) -> usize
    ensures { WroteUpTo 21 (spaced (named_of named)) at out.old out.new result }
{
    match named {
        Some(id) => put_field(out, at, b" ", id.0 as u64),
        None => at,
    }
}

pub fn refusal(r: Refusal, out: &mut [u8]) -> usize
    ensures { WroteUpTo 50 (refusal_text (number_of r) (values_of r)) 0 out.old out.new result }
{
    let a = put_field(out, 0, b"refused ", r.number());
    let b = put_named(out, a, r.named());
    put_text(out, b, b"\n")
}
