#![tactic(auto)]
// The library's entry. It demands nothing of its caller.
ghost use Rattle.std.specs.Prelude.{◌≡◌};
ghost use Rattle.symbols.specs.Graph.{Inside};
ghost use Rattle.symbols.specs.Order.{Arranged};
ghost use Rattle.formula.specs.View.{graph};
ghost use Rattle.rules.specs.One.{one};
ghost use Rattle.solve.specs.Solve.{on_graph, answer, result_of};

use formula::FormulaView;
use symbols::Refusal;
use turns::Outcome;
use words::WordSource;

// The start and the search, in a buffer of one value for each node. The order was found by the checks, once for the whole run.
#[tactic(auto, using(crate::proofs::Laws::searched), unfolding(crate::specs::Solve::on_graph, crate::specs::Solve::lent_rows, laws::specs::Rows::first, formula::specs::Graph::graph_of))]
fn run(
    formula: &FormulaView,
    order: &[u32],
    words: &[u64],
    budget: u32,
    values: &mut [u64],
) -> Result<Outcome, Refusal>
    requires inside { Inside (graph formula.now) }
    requires arranged { Arranged (graph formula.now) order.now }
    ensures { result_of result values.new ≡ on_graph one (graph formula.now) words.now budget values.old }
{
    if values.len() != formula.count() as usize {
        return Err(Refusal::Room);
    }
    let taken = assign::wanted(formula) as usize;
    if words.len() < taken {
        return Err(Refusal::Words);
    }
    assign::initialize_ab(formula, order, words, values);
    let source = WordSource { at: taken };
    Ok(turns::sat(formula, order, words, values, source, budget))
}

// Solves a graph file with the lent words, in at most `budget` steps. After Ok the values are those of the search; a refusal
// leaves them.
#[tactic(auto, unfolding(crate::specs::Solve::answer))]
pub fn solve(
    file: &[u8],
    words: &[u64],
    budget: u32,
    values: &mut [u64],
) -> Result<Outcome, Refusal>
    ensures { result_of result values.new ≡ answer one file.now words.now budget values.old }
{
    // A place for each node of an accepted file.
    let mut order = [0; 4000];
    let layout = checks::check_order(file, &mut order)?;
    run(&FormulaView { file, layout }, &order, words, budget, values)
}
