// The rules of edition one for a single value. Rules, operators and sides are numbers here, since C asks by them.
ghost use Rattle.std.specs.Prelude.{◌≡◌};
ghost use Rattle.values.specs.Answers.{answer_of};
ghost use Rattle.ffi.specs.Rules.{side_no, valued, asked, ruled, wrote};

use super::out::put_fields;
use bitvec::BitVector;
use reach::is_invertible;
use symbols::{BVOperator, OperandSide, Refusal};
use words::WordSource;

// The number, the value and the place that are left in the buffer.
#[derive(Clone, Copy)]
pub struct Fields(pub u64, pub u64, pub u64);

#[tactic(auto, unfolding(crate::specs::Rules::side_no, laws::specs::Rows::first))]
fn side_no(side: u64) -> Option<OperandSide>
    ensures { result ≡ side_no side }
{
    match side {
        0 => Some(OperandSide::Lhs),
        1 => Some(OperandSide::Rhs),
        _ => None,
    }
}

fn of_valued(v: Result<(BitVector, WordSource), Refusal>, at: usize) -> Fields
    ensures { result ≡ valued (answer_of v) at }
{
    match v {
        Ok((x, next)) => Fields(0, x.0, next.at as u64),
        Err(r) => Fields(r.number(), 0, at as u64),
    }
}

#[tactic(auto, unfolding(crate::specs::Rules::asked, laws::specs::Rows::first))]
fn ask(
    number: u64,
    op: BVOperator,
    d: OperandSide,
    s: BitVector,
    t: BitVector,
    words: &[u64],
    at: usize,
) -> Fields
    ensures { result ≡ asked number op d s.0 t.0 words.now at }
{
    let source = WordSource { at };
    match number {
        0 => Fields(1, is_invertible(op, s, t, d) as u64, at as u64),
        1 => of_valued(
            values::compute_inverse_value(op, s, t, d, words, source),
            at,
        ),
        2 => of_valued(
            values::compute_consistent_value(op, t, d, words, source),
            at,
        ),
        3 => {
            let value = values::compute_inverse_value_for_unary_op(op, t);
            of_valued(value.map(|x| (x, source)), at)
        }
        _ => Fields(99, 0, at as u64),
    }
}

#[tactic(auto, unfolding(crate::specs::Rules::ruled))]
fn rule(
    number: u64,
    op: u64,
    side: u64,
    s: BitVector,
    t: BitVector,
    words: &[u64],
    at: usize,
) -> Fields
    ensures { result ≡ ruled number op side s.0 t.0 words.now at }
{
    let (Some(op), Some(d)) = (BVOperator::from_number(op), side_no(side)) else {
        return Fields(99, 0, at as u64);
    };
    ask(number, op, d, s, t, words, at)
}

// A rule (0 the table, 1 inverse, 2 consistent, 3 unary) of an operator, by its kind's number, and a side (0 Lhs, 1 Rhs): 1 and
// what the table says; 0, the value and the place after its words; or the refusal's number. 99 for another number.
pub fn rule_op(
    number: u64,
    op: u64,
    side: u64,
    s: u64,
    t: u64,
    words: &[u64],
    at: usize,
    out: &mut [u64],
)
    ensures { out.new ≡ wrote (ruled number op side s t words.now at) out.old }
{
    let f = rule(number, op, side, BitVector(s), BitVector(t), words, at);
    put_fields(out, &[f.0, f.1, f.2]);
}
