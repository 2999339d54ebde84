// Numbers by id, in a lent buffer.
ghost use Rattle.std.specs.Prelude.{◌≡◌, ℕ, ◌<◌, length, get_or};

// The number at a place; past the end, 0.
pub fn number_at(s: &[u32], at: u32) -> u32
    ensures { result ≡ get_or s.now at 0 }
{
    s.get(at as usize).copied().unwrap_or(0)
}

// Zeros at the first n places.
pub fn clear(s: &mut [u32], n: u32)
    ensures kept { length s.new ≡ length s.old }
    ensures cleared { (k : ℕ) → k < n → get_or s.new k 0 ≡ 0 }
{
    let end = s.len().min(n as usize);
    s[..end].fill(0);
}
