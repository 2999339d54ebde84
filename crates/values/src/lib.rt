#![tactic(auto)]
// monster.rs's compute_inverse_value, compute_consistent_value and compute_inverse_value_for_unary_op, with refusals where the source
// panics, and the choice of `value`. Arguments as in the source (so they are no struct), then the lent words and the source of words.
ghost use Rattle.std.specs.Prelude.{◌≡◌};
ghost use Rattle.rules.specs.Rules.{invert_at, value_at};
ghost use Rattle.rules.specs.One.{one};
ghost use Rattle.values.specs.Answers.{answer_of, unary_of, got_of, inverse_answer, consistent_answer, unary_answer};

use bitvec::BitVector;
use consistent::draw_consistent;
use inverse::draw_inverse;
use reach::is_invertible;
use symbols::{BVOperator, OperandSide, Refusal};
use words::WordSource;

// Which of the two values a step passes on.
#[derive(Clone, Copy, PartialEq, Eq)]
pub enum Rule {
    Inverse,
    Consistent,
}

// The value that a step passes on, the rule that it is of, and the source after its words.
#[derive(Clone, Copy)]
pub struct Chosen {
    pub rule: Rule,
    pub value: BitVector,
    pub source: WordSource,
}

// The words ran out; the source before what could not be drawn.
#[derive(Clone, Copy)]
pub struct RanDry {
    pub source: WordSource,
}

// The value and the source after its words, or the refusal: 10 Arity, 11 NoInverse or 12 Dry.
#[tactic(auto, unfolding(crate::specs::Answers::inverse_answer, laws::specs::Rows::first))]
pub fn compute_inverse_value(
    op: BVOperator,
    s: BitVector,
    t: BitVector,
    d: OperandSide,
    words: &[u64],
    source: WordSource,
) -> Result<(BitVector, WordSource), Refusal>
    ensures { answer_of result ≡ inverse_answer one op d s.0 t.0 words.now source.at }
{
    if op.is_unary() {
        return Err(Refusal::Arity);
    }
    if !is_invertible(op, s, t, d) {
        return Err(Refusal::NoInverse);
    }
    draw_inverse(op, s, t, d, words, source).ok_or(Refusal::Dry)
}

// The value and the source after its words, or the refusal: 10 Arity or 12 Dry.
#[tactic(auto, unfolding(crate::specs::Answers::consistent_answer, laws::specs::Rows::first))]
pub fn compute_consistent_value(
    op: BVOperator,
    t: BitVector,
    d: OperandSide,
    words: &[u64],
    source: WordSource,
) -> Result<(BitVector, WordSource), Refusal>
    ensures { answer_of result ≡ consistent_answer one op d t.0 words.now source.at }
{
    if op.is_unary() {
        return Err(Refusal::Arity);
    }
    draw_consistent(op, t, d, words, source).ok_or(Refusal::Dry)
}

// The value, which needs no word, or the refusal: 10 Arity.
#[tactic(auto, unfolding(crate::specs::Answers::unary_answer, laws::specs::Rows::first))]
pub fn compute_inverse_value_for_unary_op(
    op: BVOperator,
    t: BitVector,
) -> Result<BitVector, Refusal>
    ensures { unary_of result ≡ unary_answer op t.0 }
{
    if !op.is_unary() {
        return Err(Refusal::Arity);
    }
    Ok(t.is_zero())
}

// The inverse, then the choosing word; c is the consistent value.
#[tactic(auto, unfolding(rules::specs::Rules::invert_at))]
fn invert(
    op: BVOperator,
    s: BitVector,
    t: BitVector,
    d: OperandSide,
    words: &[u64],
    c: BitVector,
    source: WordSource,
) -> Result<Chosen, RanDry>
    ensures { got_of result ≡ invert_at one op d s.0 t.0 words.now c.0 source.at }
{
    let (v, next) = draw_inverse(op, s, t, d, words, source).ok_or(RanDry { source })?;
    let (chosen, source) = next.choosing(words).ok_or(RanDry { source: next })?;
    let (rule, value) = if chosen {
        (Rule::Inverse, v)
    } else {
        (Rule::Consistent, c)
    };
    Ok(Chosen {
        rule,
        value,
        source,
    })
}

// "Then the consistent value is drawn; if the table says yes, the inverse, then the choosing word."
#[tactic(auto, unfolding(rules::specs::Rules::value_at))]
pub fn value(
    op: BVOperator,
    s: BitVector,
    t: BitVector,
    d: OperandSide,
    words: &[u64],
    source: WordSource,
) -> Result<Chosen, RanDry>
    ensures { got_of result ≡ value_at one op d s.0 t.0 words.now source.at }
{
    let (c, next) = draw_consistent(op, t, d, words, source).ok_or(RanDry { source })?;
    if is_invertible(op, s, t, d) {
        return invert(op, s, t, d, words, c, next);
    }
    Ok(Chosen {
        rule: Rule::Consistent,
        value: c,
        source: next,
    })
}
