#![tactic(auto)]
// Writing at a place of a lent buffer, for all that write where a buffer may be too short.
ghost use Rattle.std.specs.Prelude.{◌≡◌, set};

// Stores a value at a place; past the end, nothing. (By index: of a `get_mut` that answers None it is not known that nothing changes.)
pub fn put<T: Copy>(s: &mut [T], at: usize, v: T)
    ensures { s.new ≡ set s.old at v }
{
    if at < s.len() {
        s[at] = v;
    }
}
