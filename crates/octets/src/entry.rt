// One entry of a slice.
ghost use Rattle.std.specs.Prelude.{◌≡◌, get_or, set};

// The entry at a place, and `none` past the end.
pub fn entry_or<T: Copy>(s: &[T], at: usize, none: T) -> T
    ensures { result ≡ get_or s.now at none }
{
    if at < s.len() { s[at] } else { none }
}

// The byte at a place becomes b; past the end nothing changes.
pub fn put(s: &mut [u8], at: usize, b: u8)
    ensures { s.new ≡ set s.old at b }
{
    if at < s.len() {
        s[at] = b;
    }
}
