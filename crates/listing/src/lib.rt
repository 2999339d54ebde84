#![tactic(auto)]
// Q-2: the listing of a graph, written into a lent buffer.
ghost use Rattle.std.specs.Prelude.{◌≡◌, ◌≤◌, length};
ghost use Rattle.formula.specs.View.{graph};
ghost use Rattle.checks.specs.Refusals.{accepted, verdict};
ghost use Rattle.listing.specs.Listing.{listing};
ghost use Rattle.listing.specs.Answer.{fitted, result_of, answer, Bounded};

use formula::FormulaView;
use lines::Lines;
use order::gather::gather;
use symbols::Refusal;

pub mod line;
mod lines;

// The listing of an accepted file.
#[tactic(auto, using(filelaws::proofs::Accepted::accepted_known, filelaws::proofs::Accepted::accepted_acyclic))]
fn list_accepted(formula: &FormulaView, out: &mut [u8]) -> Result<usize, Refusal>
    requires { verdict formula.now.file.now ≡ accepted formula.now.layout }
    ensures written { result_of result out.new ≡ fitted (listing (graph formula.now)) out.old }
    ensures most { length (listing (graph formula.now)) ≤ 164000 }
{
    let mut place = [0; 4000];
    let mut order = [0; 4000];
    let mut stack = [0; 4000];
    let n = gather(formula, formula.root(), &mut place, &mut order, &mut stack) as usize;
    Lines {
        formula,
        order: &order[..n],
    }
    .fit(out)
}

// Writes the listing of a graph file's nodes at the front of the buffer, and answers its length. No listing has more than 164,000
// bytes.
#[tactic(auto, unfolding(crate::specs::Answer::answer))]
pub fn list(file: &[u8], out: &mut [u8]) -> Result<usize, Refusal>
    ensures written { result_of result out.new ≡ answer file.now out.old }
    ensures bounded { Bounded file.now }
{
    let layout = checks::check(file)?;
    list_accepted(&FormulaView { file, layout }, out)
}
