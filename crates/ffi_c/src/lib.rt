#![tactic(auto)]
// The functions of ffi for a caller in Rust or C: a slice is its pointer and then its length.
ghost use Rattle.std.specs.Prelude.{◌≡◌};
ghost use Rattle.checks.specs.Refusals.{verdict};
ghost use Rattle.listing.specs.Answer.{answer as listing_answer};
ghost use Rattle.numbered.specs.Bitvec.{bitvec_op};
ghost use Rattle.rules.specs.One.{one};
ghost use Rattle.solve.specs.Solve.{answer};
ghost use Rattle.ffi.specs.Files.{checked};
ghost use Rattle.ffi.specs.Lists.{listed_as, text_after};
ghost use Rattle.ffi.specs.Out.{written};
ghost use Rattle.ffi.specs.Rules.{ruled, wrote};
ghost use Rattle.ffi.specs.Search.{solved, values_after, stepped_on};

// An operation of BitVector by its number (numbered/specs/Bitvec.antt): 1 and its value, or 0 and 0.
#[unsafe(no_mangle)]
pub extern "C" fn bitvec_op(op: u64, a: u64, b: u64, out: &mut [u64])
    ensures { out.new ≡ written (bitvec_op op a b) out.old }
{
    ffi::bitvec_op(op, a, b, out);
}

// 0, n and the root of an accepted file; else the refusal's number and the id that it names.
#[unsafe(no_mangle)]
pub extern "C" fn check_file(file: &[u8], out: &mut [u64])
    ensures { out.new ≡ checked (verdict file.now) out.old }
{
    ffi::files::check_file(file, out);
}

// A rule (0 the table, 1 inverse, 2 consistent, 3 unary) of an operator, by its kind's number, and a side (0 Lhs, 1 Rhs): 1 and
// what the table says; 0, the value and the place after its words; or the refusal's number. 99 for another number.
#[unsafe(no_mangle)]
pub extern "C" fn rule_op(
    number: u64,
    op: u64,
    side: u64,
    s: u64,
    t: u64,
    words: &[u64],
    at: usize,
    out: &mut [u64],
)
    ensures { out.new ≡ wrote (ruled number op side s t words.now at) out.old }
{
    ffi::single::rule_op(number, op, side, s, t, words, at, out);
}

// Where one step leads from a node with its target and the place of the next word: 0, the node, its target, the place after, what was
// chosen (0 Not, 1 the inverse, 2 the consistent value) and the side (0 Lhs, 1 Rhs); 12 and the place where the words ran out; or the
// file's refusal.
#[unsafe(no_mangle)]
pub extern "C" fn step_op(
    file: &[u8],
    words: &[u64],
    values: &[u64],
    node: u32,
    target: u64,
    at: usize,
    out: &mut [u64],
)
    ensures { out.new ≡ stepped_on (verdict file.now) file.now words.now values.now node target at out.old }
{
    ffi::searching::step_op(file, words, values, node, target, at, out);
}

// 0, how it ended (0 solved, 1 spent, 2 dry), rounds, lost rounds, steps and words; or the refusal's number and the id that it names.
#[unsafe(no_mangle)]
pub extern "C" fn solve_file(
    file: &[u8],
    words: &[u64],
    budget: u32,
    values: &mut [u64],
    out: &mut [u64],
)
    ensures { (out.new ≡ solved (answer one file.now words.now budget values.old) out.old) × (values.new ≡ values_after (answer one file.now words.now budget values.old)) }
{
    ffi::searching::solve_file(file, words, budget, values, out);
}

// 0 and the length of the listing, which `text` begins with; or the refusal's number and the id that it names.
#[unsafe(no_mangle)]
pub extern "C" fn list_file(file: &[u8], text: &mut [u8], out: &mut [u64])
    ensures { (out.new ≡ listed_as (listing_answer file.now text.old) out.old) × (text.new ≡ text_after (listing_answer file.now text.old)) }
{
    ffi::lists::list_file(file, text, out);
}
