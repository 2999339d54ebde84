#![tactic(auto)]
// The search: turns while steps are left. A turn is a step and, where it comes to a leaf, the end of the round.
ghost use Rattle.std.specs.Prelude.{◌≡◌, [], ◌-◌, ◌<◌};
ghost use Rattle.formula.specs.View.{graph};
ghost use Rattle.search.specs.Machine.{round, missed, landing_at, reached, turn_of, run_from, search_of};
ghost use Rattle.rules.specs.One.{one};
ghost use Rattle.monster.specs.Step.{play_along};
ghost use Rattle.turns.specs.Turn.{st_of, out_of, next_of};

use bitvec::BitVector;
use formula::{FormulaView, Node};
use monster::Walk;
use state::State;
use std::ops::ControlFlow;
use symbols::SymbolId;
use words::WordSource;

mod state;

#[derive(Clone, Copy)]
pub enum End {
    Solved,
    Spent,
    Dry,
}

#[derive(Clone, Copy)]
pub struct Outcome {
    pub end: End,
    pub rounds: u32,
    pub lost: u32,
    pub steps: u32,
    pub words: usize,
}

// "Rounds start while the root is not 1", and each "starts at the root with target 1".
#[tactic(auto, unfolding(search::specs::Machine::round))]
fn next_round(values: &[u64], root: SymbolId, s: State) -> ControlFlow<Outcome, State>
    ensures { next_of result values.now ≡ round root.0 (st_of s values.now) }
{
    if assign::value_at(values, root).0 == 1 {
        return ControlFlow::Break(s.ended(End::Solved));
    }
    let walk = Walk {
        node: root,
        target: BitVector(1),
        ..s.walk
    };
    ControlFlow::Continue(State {
        walk,
        rounds: s.rounds,
        lost: s.lost,
        steps: s.steps,
    })
}

// "a lost round: nothing changes, the search goes on"
fn lose(values: &[u64], root: SymbolId, s: State) -> ControlFlow<Outcome, State>
    requires { s.rounds < s.steps }
    ensures { next_of result values.now ≡ round root.0 (missed (st_of s values.now)) }
{
    let after = State {
        walk: s.walk,
        rounds: s.rounds + 1,
        lost: s.lost + 1,
        steps: s.steps,
    };
    next_round(values, root, after)
}

// What reaching a node means. No words are taken, so those of the play do not matter.
#[tactic(auto, unfolding(search::specs::Machine::reached, formula::specs::Graph::graph_of))]
fn land(
    formula: &FormulaView,
    order: &[u32],
    values: &mut [u64],
    s: State,
) -> ControlFlow<Outcome, State>
    requires { s.rounds < s.steps }
    ensures { next_of result values.new ≡ reached (play_along one (graph formula.now) order.now []) (landing_at (graph formula.now) (st_of s values.old)) (st_of s values.old) }
{
    let root = formula.root();
    let id = s.walk.node;
    match formula.node(id) {
        Node::Constant(_) => lose(values, root, s),
        Node::Input(p) => {
            let t = s.walk.target;
            // No guard of the arm: two edits speak of this test and of its other branch.
            if p.fits(t) {
                assign::update_assignment(formula, order, values, id, t);
                let after = State {
                    walk: s.walk,
                    rounds: s.rounds + 1,
                    lost: s.lost,
                    steps: s.steps,
                };
                next_round(values, root, after)
            } else {
                lose(values, root, s)
            }
        }
        Node::Unary(_) | Node::Binary(..) => ControlFlow::Continue(s),
    }
}

#[tactic(auto, unfolding(search::specs::Machine::turn_of, search::specs::Machine::stepped, search::specs::Machine::reached))]
fn take_turn(
    formula: &FormulaView,
    order: &[u32],
    words: &[u64],
    values: &mut [u64],
    s: State,
) -> ControlFlow<Outcome, State>
    requires { s.steps < u32.MAX }
    ensures { next_of result values.new ≡ turn_of (play_along one (graph formula.now) order.now words.now) (st_of s values.old) }
{
    match monster::step(formula, values, words, s.walk) {
        Ok((walk, _)) => {
            let after = State {
                walk,
                rounds: s.rounds,
                lost: s.lost,
                steps: s.steps + 1,
            };
            land(formula, order, values, after)
        }
        Err(dry) => ControlFlow::Break(Outcome {
            words: dry.source.at,
            ..s.ended(End::Dry)
        }),
    }
}

// Turns from where the search stands, while steps are left.
fn turns(
    formula: &FormulaView,
    order: &[u32],
    words: &[u64],
    values: &mut [u64],
    mut s: State,
    budget: u32,
) -> Outcome
    ensures { out_of result values.new ≡ run_from (play_along one (graph formula.now) order.now words.now) (budget - s.steps) (st_of s values.old) }
{
    // The paper's sentence, and so no `for`: "Before each step, used steps = budget ends it as Spent." The edits budget_once_a_round and
    // one_step_too_many speak of it.
    while s.steps < budget {
        match take_turn(formula, order, words, values, s) {
            ControlFlow::Break(outcome) => return outcome,
            ControlFlow::Continue(next) => s = next,
        }
    }
    s.ended(End::Spent)
}

// The search from given values, with the source of the next word. The order is the one along which the operators are worked out.
#[tactic(auto, using(symbols::proofs::Fitting::one_fits), unfolding(search::specs::Machine::search_of, search::specs::Machine::from_root, formula::specs::Graph::graph_of))]
pub fn sat(
    formula: &FormulaView,
    order: &[u32],
    words: &[u64],
    values: &mut [u64],
    source: WordSource,
    budget: u32,
) -> Outcome
    ensures { out_of result values.new ≡ search_of (play_along one (graph formula.now) order.now words.now) budget values.old source.at }
{
    let root = formula.root();
    let start = State {
        walk: Walk {
            node: root,
            target: BitVector(1),
            source,
        },
        rounds: 0,
        lost: 0,
        steps: 0,
    };
    if assign::value_at(values, root).0 == 1 {
        return start.ended(End::Solved);
    }
    match formula.node(root) {
        Node::Constant(_) => start.ended(End::Spent),
        Node::Input(_) => {
            assign::update_assignment(formula, order, values, root, BitVector(1));
            // "A root input not yet 1 needs one round and no step", and no state has more rounds than steps: the outcome alone tells it.
            Outcome {
                rounds: 1,
                ..start.ended(End::Solved)
            }
        }
        Node::Unary(_) | Node::Binary(..) => turns(formula, order, words, values, start, budget),
    }
}
