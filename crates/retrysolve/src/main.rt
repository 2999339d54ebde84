#![tactic(auto)]
// The program: reads the file `graph` and the words on standard input, and prints the answer. All but the reading and writing is
// `respond`, whose contract says what is printed.
ghost use Rattle.std.specs.Prelude.{◌≡◌, ◌+◌, ◌*◌, length};
ghost use Rattle.text.specs.Text.{WroteUpTo};
ghost use Rattle.formula.specs.View.{graph};
ghost use Rattle.rules.specs.One.{one};
ghost use Rattle.solve.specs.Solve.{answer};
ghost use Rattle.intake.specs.Words.{up_to, words_of};
ghost use Rattle.retrysolve.specs.Printed.{budget, text_of, printed_with, printed};

use formula::FormulaView;
use graphfile::{file_room, read_full, read_graph};
use std::io;

// Room for 4,096 words.
fn input_room() -> [u8; 32768]
    ensures { 32768 ≡ length result }
{
    [0; 32768]
}

// The answer to an accepted file, found in the lent values.
fn answer_to(formula: &FormulaView, words: &[u64], values: &mut [u64], out: &mut [u8]) -> usize
    ensures { WroteUpTo (85 + 54 * formula.now.layout.count) (text_of (graph formula.now) (answer one formula.now.file.now words.now budget values.old)) 0 out.old out.new result }
{
    match solve::solve(formula.file, words, 100000, values) {
        Ok(o) => report::result(formula, o, values, out),
        Err(r) => refusals::refusal(r, out),
    }
}

// The same with values of its own, as many as there are nodes; no accepted file has more than 4,000.
fn solve_it(formula: &FormulaView, input: &[u8], out: &mut [u8]) -> usize
    ensures { WroteUpTo (85 + 54 * formula.now.layout.count) (printed_with (graph formula.now) formula.now.file.now (words_of 4096 input.now) (up_to 4000 formula.now.layout.count)) 0 out.old out.new result }
{
    let mut words = [0; 4096];
    let mut values = [0; 4000];
    let k = intake::words_from(input, &mut words);
    let n = (formula.count() as usize).min(4000);
    answer_to(formula, &words[..k], &mut values[..n], out)
}

// Everything that is printed.
#[tactic(auto, using(filelaws::proofs::Accepted::accepted_known), unfolding(crate::specs::Printed::printed))]
fn respond(file: &[u8], input: &[u8], out: &mut [u8]) -> usize
    ensures { WroteUpTo 216085 (printed file.now input.now) 0 out.old out.new result }
{
    match checks::check(file) {
        Ok(layout) => solve_it(&FormulaView { file, layout }, input, out),
        Err(r) => refusals::refusal(r, out),
    }
}

fn main(rt: HostRuntime) -> io::Result<()> {
    let mut file = file_room();
    let mut input = input_room();
    // A first line, and a line for each of 4,000 inputs.
    let mut out = [0; 216085];
    let n = read_graph(&rt, &mut file);
    let k = read_full(&mut rt.stdin(), &mut input);
    let r = respond(&file[..n], &input[..k], &mut out);
    rt.write_all(&out[..r])
}
