#![tactic(auto)]
// The word source, which replaces thread_rng: a place in a lent list of words. "a word source that has given a word is a new word
// source, and a draw answers either the words and the source after them, or Dry". Dry is None: the caller still has its own
// source, unmoved.
ghost use Rattle.std.specs.Prelude.{◌≡◌, ℕ, ◌+◌, ◌<◌, Bool};
ghost use Rattle.words.specs.Words.{draw_at, multiple, even_at, range_at, coin_at, choosing_at, two_at, not_at, redraw_at, KeepsRest};

// The place alone, and the list beside it in each call: a draw that is answered is the same value on every longer list
// (`range_longer` and its kin in proofs/Draws.antt), which it would not be with the list in it. So words and source stay two parameters.
#[derive(Clone, Copy)]
pub struct WordSource {
    pub at: usize,
}

// What was drawn and the source after its words, or nothing where the words run out.
pub type Drawn<T> = Option<(T, WordSource)>;

// The word below the largest multiple of m that is at most 2^64: the last one where m divides 2^64.
#[tactic(auto, using(crate::proofs::Laws::last_is))]
fn last_accepted(m: u64) -> u64
    requires { 0 < m }
    ensures { result + 1 ≡ multiple m }
{
    u64::MAX - (u64::MAX % m + 1) % m
}

impl WordSource {
    pub fn new() -> Self
        ensures { result.at ≡ 0 }
    {
        WordSource { at: 0 }
    }

    #[tactic(auto, unfolding(crate::specs::Words::draw_at), using(crate::proofs::Laws::draw_dry, crate::proofs::Laws::draw_word))]
    pub fn draw(self, words: &[u64]) -> Drawn<u64>
        ensures { result ≡ draw_at words.now self.at }
    {
        let w = *words.get(self.at)?;
        Some((w, WordSource { at: self.at + 1 }))
    }

    // The first word that is kept; those passed over are among its words.
    fn first_kept<F: Fn(u64) -> bool>(self, words: &[u64], kept: F) -> Drawn<u64>
        requires { F.IsAlwaysCallable kept }
        ensures { (drop : ℕ → Bool) → KeepsRest (F.post kept) drop → result ≡ redraw_at drop words.now self.at }
    {
        // A loop, as in `two`: by `position`, or by a `for` over the places, a word that is passed over takes twice the time.
        let mut source = self;
        loop {
            let (w, next) = source.draw(words)?;
            if kept(w) {
                return Some((w, next));
            }
            source = next;
        }
    }

    // The first word that a range of size m accepts.
    fn even(self, words: &[u64], m: u64) -> Drawn<u64>
        requires { 0 < m }
        ensures { result ≡ even_at words.now self.at m }
    {
        let last = last_accepted(m);
        self.first_kept(words, |w| w <= last)
    }

    // a..b, both included
    #[tactic(auto, using(crate::proofs::Laws::range_over, crate::proofs::Laws::range_all, crate::proofs::Laws::range_dry, crate::proofs::Laws::range_part))]
    pub fn range(self, words: &[u64], a: u64, b: u64) -> Drawn<u64>
        ensures { result ≡ range_at words.now self.at a b }
    {
        let most = b.checked_sub(a)?;
        // A range of all words discards none.
        let Some(m) = most.checked_add(1) else {
            return self.draw(words);
        };
        let (w, next) = self.even(words, m)?;
        Some((a + w % m, next))
    }

    #[tactic(auto, unfolding(crate::specs::Words::coin_at))]
    pub fn coin(self, words: &[u64]) -> Drawn<bool>
        ensures { result ≡ coin_at words.now self.at }
    {
        self.draw(words).map(|(w, next)| (w >= 1 << 63, next))
    }

    // Whether the inverse is chosen.
    #[tactic(auto, unfolding(crate::specs::Words::choosing_at))]
    pub fn choosing(self, words: &[u64]) -> Drawn<bool>
        ensures { result ≡ choosing_at words.now self.at }
    {
        self.draw(words)
            .map(|(w, next)| (w / 2048 < 8106479329266893, next))
    }

    // Redrawn while both are 0; one value, so that Dry takes none of its words.
    #[tactic(auto, using(crate::proofs::Draws::pair_within, crate::proofs::Draws::two_over))]
    pub fn two(self, words: &[u64]) -> Drawn<(u64, u64)>
        ensures { result ≡ two_at words.now self.at }
    {
        if words.len() < self.at {
            return None;
        }
        let mut source = self;
        loop {
            // The second word is there only where the first is: one test of the length for both.
            let second = WordSource { at: source.at + 1 };
            let (high, next) = second.draw(words)?;
            let low = words[source.at];
            if low != 0 || high != 0 {
                return Some(((low, high), next));
            }
            source = next;
        }
    }

    // Words until one is not s.
    #[tactic(auto, unfolding(crate::specs::Words::not_at))]
    pub fn until_not(self, words: &[u64], s: u64) -> Drawn<u64>
        ensures { result ≡ not_at words.now self.at s }
    {
        self.first_kept(words, |w| w != s)
    }

    // A word, redrawn while 0.
    pub fn nonzero(self, words: &[u64]) -> Drawn<u64>
        ensures { result ≡ not_at words.now self.at 0 }
    {
        self.until_not(words, 0)
    }
}
