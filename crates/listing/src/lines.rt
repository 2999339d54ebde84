// The lines of some ids, in that order.
ghost use Rattle.std.specs.Prelude.{◌≤◌, length};

use crate::line::{line_length, put_line};
use formula::FormulaView;
use symbols::{Refusal, SymbolId};

#[derive(Clone, Copy)]
pub(super) struct Lines<'a> {
    pub(super) formula: &'a FormulaView<'a>,
    pub(super) order: &'a [u32],
    ghost few: { length order.now ≤ 4000 },
}

impl<'a> Lines<'a> {
    ghost use Rattle.std.specs.Prelude.{◌≡◌};
    ghost use Rattle.text.specs.Text.{Wrote};
    ghost use Rattle.formula.specs.View.{graph};
    ghost use Rattle.listing.specs.Listing.{lines};
    ghost use Rattle.listing.specs.Answer.{fitted, result_of};

    // How long the lines of these ids are.
    fn measure(&self) -> usize
        ensures length { result ≡ length (lines (graph self.now.formula.now) self.now.order.now) }
        ensures most { result ≤ 164000 }
    {
        // A `for`, since of an iterator's `sum` no bound of so many bytes a line is known.
        let mut n = 0;
        for &i in self.order {
            let id = SymbolId(i);
            n += line_length(id, self.formula.node(id));
        }
        n
    }

    // "each line is written where the line before it ended"
    fn write(&self, out: &mut [u8]) -> usize
        requires { length (lines (graph self.now.formula.now) self.now.order.now) ≤ length out.old }
        ensures { Wrote (lines (graph self.now.formula.now) self.now.order.now) 0 out.old out.new result }
    {
        let mut at = 0;
        for &i in self.order {
            let id = SymbolId(i);
            at += put_line(&mut out[at..], id, self.formula.node(id));
        }
        at
    }

    // The lines of these ids, where the buffer holds them.
    #[tactic(auto, using(crate::proofs::Fitting::fit_placed, crate::proofs::Fitting::fit_short))]
    pub(super) fn fit(&self, out: &mut [u8]) -> Result<usize, Refusal>
        ensures written { result_of result out.new ≡ fitted (lines (graph self.now.formula.now) self.now.order.now) out.old }
        ensures most { length (lines (graph self.now.formula.now) self.now.order.now) ≤ 164000 }
    {
        if self.measure() <= out.len() {
            Ok(self.write(out))
        } else {
            Err(Refusal::Short)
        }
    }
}
