#![tactic(auto)]
// The operations of BitVector by their numbers, as C asks for them (so they are no enum).
ghost use Rattle.std.specs.Prelude.{◌≡◌};
ghost use Rattle.numbered.specs.Bitvec.{bitvec_op, text_byte};

use bitvec::BitVector;

// Byte i of the Debug text.
#[tactic(auto, using(bitvec::proofs::Text::text_short, crate::proofs::Texts::byte_found, crate::proofs::Texts::byte_none))]
fn text_byte(a: BitVector, i: u64) -> Option<u64>
    ensures { result ≡ text_byte a.0 i }
{
    let text = a.debug();
    let byte = text.bytes[..text.len].get(i as usize)?;
    Some(*byte as u64)
}

#[tactic(auto, using(crate::proofs::Inverses::inverse_value_lem, crate::proofs::Inverses::inverse_nothing), unfolding(crate::specs::Bitvec::bitvec_op, laws::specs::Rows::first))]
pub fn operation(op: u64, a: u64, b: u64) -> Option<u64>
    ensures { result ≡ bitvec_op op a b }
{
    let (a, b) = (BitVector(a), BitVector(b));
    match op {
        0 => Some(BitVector::ones().0),
        1 => Some(a.ctz() as u64),
        2 => Some(a.odd() as u64),
        3 => Some(a.lsb()),
        4 => a.modinverse().map(|x| x.0),
        5 => Some(a.addo(b) as u64),
        6 => Some(a.mulo(b) as u64),
        7 => Some((-a).0),
        8 => Some((a + b).0),
        9 => Some((a - b).0),
        10 => Some((a * b).0),
        11 => Some((a / b).0),
        12 => Some((a % b).0),
        13 => Some((a | b).0),
        14 => Some((a & b).0),
        15 => Some((a ^ b).0),
        // a shift's count is the lower half of b
        16 => Some((a << (b.0 % 0x1_0000_0000) as u32).0),
        17 => Some((a >> (b.0 % 0x1_0000_0000) as u32).0),
        18 => Some((!a).0),
        19 => Some((a < b) as u64),
        20 => Some((a <= b) as u64),
        21 => Some((a == b) as u64),
        22 => Some(a.sltu(b).0),
        23 => Some(a.equals(b).0),
        24 => Some(a.is_zero().0),
        25 => Some(a.debug().len as u64),
        26 => text_byte(a, b.0),
        _ => None,
    }
}
