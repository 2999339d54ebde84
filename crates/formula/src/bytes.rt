// Bytes of a slice, read little endian. A byte past the end is 0.
ghost use Rattle.std.specs.Prelude.{◌≡◌, get_or};
ghost use Rattle.formula.specs.File.{le32, le64, zeros};

// (The library's form for any slice; `number_at` of `order` is the same of ids.)
pub fn byte_at(s: &[u8], at: usize) -> u8
    ensures { result ≡ get_or s.now at 0 }
{
    s.get(at).copied().unwrap_or(0)
}

#[tactic(auto, unfolding(crate::specs::File::le32))]
pub fn u32_at(s: &[u8], at: u32) -> u32
    ensures { result ≡ le32 s.now at }
{
    let a = at as usize;
    u32::from_le_bytes([
        byte_at(s, a),
        byte_at(s, a + 1),
        byte_at(s, a + 2),
        byte_at(s, a + 3),
    ])
}

#[tactic(auto, unfolding(crate::specs::File::le64, crate::specs::File::le32))]
pub fn u64_at(s: &[u8], at: u32) -> u64
    ensures { result ≡ le64 s.now at }
{
    let a = at as usize;
    u64::from_le_bytes([
        byte_at(s, a),
        byte_at(s, a + 1),
        byte_at(s, a + 2),
        byte_at(s, a + 3),
        byte_at(s, a + 4),
        byte_at(s, a + 5),
        byte_at(s, a + 6),
        byte_at(s, a + 7),
    ])
}

// Whether the k bytes from a are zero.
pub fn all_zero(s: &[u8], a: u32, k: u32) -> bool
    ensures { result ≡ zeros s.now a k }
{
    // Each byte is looked at, also after one that is not zero: with no branch on what a byte is, a whole file is checked faster.
    let mut clear = true;
    for i in 0..k {
        clear &= byte_at(s, a as usize + i as usize) == 0;
    }
    clear
}
