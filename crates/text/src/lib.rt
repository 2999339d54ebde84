#![tactic(auto)]
// Text into a lent buffer. A writer stores its text from a place on and answers the place after it; of a text that does not fit
// the front is stored, and the answer is the same: so a writer on an empty buffer measures. No function here has a `requires`.
// (No `write!` and Display, here and in the writers above: they say of no byte where it stands, as each clause does,
// `Wrote t at out.old out.new result`. And no cursor that holds the buffer: each line's writer is lent the rest of the buffer from its
// cursor.)
ghost use Rattle.std.specs.Prelude.{[], ◌∷◌, ◌++◌};
ghost use Rattle.text.specs.Text.{Wrote, decimal};

use places::put;

#[tactic(auto, using(crate::proofs::Writing::byte_put))]
pub fn put_byte(out: &mut [u8], at: usize, b: u8) -> usize
    ensures { Wrote (b ∷ []) at out.old out.new result }
{
    put(out, at, b);
    at.saturating_add(1)
}

pub fn put_text(out: &mut [u8], at: usize, text: &[u8]) -> usize
    ensures { Wrote text.now at out.old out.new result }
{
    let mut n = at;
    for &b in text {
        n = put_byte(out, n, b);
    }
    n
}

// A number in decimal, without leading zeros.
pub fn put_decimal(out: &mut [u8], at: usize, v: u64) -> usize
    ensures { Wrote (decimal v) at out.old out.new result }
{
    // The edit leading_zero speaks of this test.
    let one_digit = v < 10;
    if one_digit {
        put_byte(out, at, b'0' + v as u8)
    } else {
        let n = put_decimal(out, at, v / 10);
        put_byte(out, n, b'0' + (v % 10) as u8)
    }
}

// A text and then a number.
pub fn put_field(out: &mut [u8], at: usize, text: &[u8], v: u64) -> usize
    ensures { Wrote (text.now ++ decimal v) at out.old out.new result }
{
    let n = put_text(out, at, text);
    put_decimal(out, n, v)
}
