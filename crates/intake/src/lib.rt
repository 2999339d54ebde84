#![tactic(auto)]
// The words that a program takes from its standard input.
ghost use Rattle.std.specs.Prelude.{◌≡◌, ◌++◌, ◌/◌, length, drop};
ghost use Rattle.intake.specs.Words.{up_to, words_below};

use formula::bytes::u64_at;

// As many words as there are and the buffer holds, and how many they are.
pub fn words_from(bytes: &[u8], out: &mut [u64]) -> usize
    ensures value { result ≡ up_to (length out.old) (length bytes.now / 8) }
    ensures out_after { out.new ≡ words_below bytes.now result ++ drop result out.old }
{
    let n = (bytes.len() / 8).min(out.len());
    for (i, word) in out[..n].iter_mut().enumerate() {
        *word = u64_at(&bytes[8 * i..], 0);
    }
    n
}
