// The search, and one step of it, in numbers, since C reads them.
ghost use Rattle.std.specs.Prelude.{◌≡◌};
ghost use Rattle.checks.specs.Refusals.{verdict};
ghost use Rattle.monster.specs.Step.{choice_of, step_of};
ghost use Rattle.rules.specs.One.{one};
ghost use Rattle.solve.specs.Solve.{answer};
ghost use Rattle.ffi.specs.Search.{solved, values_after, choice_no, choice_side, stepped, stepped_on};

use super::files::id_of;
use super::out::put_fields;
use bitvec::BitVector;
use formula::FormulaView;
use monster::{Choice, Walk};
use symbols::{Refusal, SymbolId};
use values::RanDry;
use words::WordSource;

// 0, how it ended (0 solved, 1 spent, 2 dry), rounds, lost rounds, steps and words; or the refusal's number and the id that it names.
pub fn solve_file(file: &[u8], words: &[u64], budget: u32, values: &mut [u64], out: &mut [u64])
    ensures { (out.new ≡ solved (answer one file.now words.now budget values.old) out.old) × (values.new ≡ values_after (answer one file.now words.now budget values.old)) }
{
    match solve::solve(file, words, budget, values) {
        Ok(o) => put_fields(
            out,
            &[
                0,
                o.end as u64,
                o.rounds as u64,
                o.lost as u64,
                o.steps as u64,
                o.words as u64,
            ],
        ),
        Err(r) => put_fields(out, &[r.number(), id_of(r), 0, 0, 0, 0]),
    }
}

fn choice_no(c: Choice) -> u64
    ensures { result ≡ choice_no (choice_of c) }
{
    match c {
        Choice::Not => 0,
        Choice::Inverse(_) => 1,
        Choice::Consistent(_) => 2,
    }
}

fn choice_side(c: Choice) -> u64
    ensures { result ≡ choice_side (choice_of c) }
{
    match c {
        Choice::Not => 0,
        Choice::Inverse(d) | Choice::Consistent(d) => d as u64,
    }
}

fn write_step(step: Result<(Walk, Choice), RanDry>, out: &mut [u64])
    ensures { out.new ≡ stepped (step_of step) out.old }
{
    match step {
        Ok((walk, choice)) => put_fields(
            out,
            &[
                0,
                walk.node.0 as u64,
                walk.target.0,
                walk.source.at as u64,
                choice_no(choice),
                choice_side(choice),
            ],
        ),
        Err(dry) => put_fields(
            out,
            &[Refusal::Dry.number(), dry.source.at as u64, 0, 0, 0, 0],
        ),
    }
}

// Where one step leads from a node with its target and the place of the next word: 0, the node, its target, the place after, what was
// chosen (0 Not, 1 the inverse, 2 the consistent value) and the side (0 Lhs, 1 Rhs); 12 and the place where the words ran out; or the
// file's refusal.
pub fn step_op(
    file: &[u8],
    words: &[u64],
    values: &[u64],
    node: u32,
    target: u64,
    at: usize,
    out: &mut [u64],
)
    ensures { out.new ≡ stepped_on (verdict file.now) file.now words.now values.now node target at out.old }
{
    match checks::check(file) {
        Ok(layout) => {
            let walk = Walk {
                node: SymbolId(node),
                target: BitVector(target),
                source: WordSource { at },
            };
            write_step(
                monster::step(&FormulaView { file, layout }, values, words, walk),
                out,
            );
        }
        Err(r) => put_fields(out, &[r.number(), id_of(r), 0, 0, 0, 0]),
    }
}
