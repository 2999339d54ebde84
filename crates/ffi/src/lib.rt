#![tactic(auto)]
// What `ffi_c` hands to Rust, for the comparison and the benchmark: few adapters, an operation's number and its arguments in, the
// answer's number and fields into a lent buffer.
ghost use Rattle.std.specs.Prelude.{◌≡◌};
ghost use Rattle.numbered.specs.Bitvec.{bitvec_op};
ghost use Rattle.ffi.specs.Out.{written};

pub mod files;
pub mod lists;
pub mod out;
pub mod searching;
pub mod single;

use places::put;

// An operation of BitVector by its number (numbered/specs/Bitvec.antt): 1 and its value, or 0 and 0.
pub fn bitvec_op(op: u64, a: u64, b: u64, out: &mut [u64])
    ensures { out.new ≡ written (bitvec_op op a b) out.old }
{
    let found = numbered::operation(op, a, b);
    put(out, 0, found.is_some() as u64);
    put(out, 1, found.unwrap_or(0));
}
