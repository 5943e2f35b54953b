// Numbers of two and of four bytes, lowest byte first.
ghost use Rattle.std.specs.Prelude.{◌≡◌, ◌+◌, ◌*◌, ◌%◌, ◌≤◌, length};
ghost use Rattle.octets.specs.Numbers.{half, word, with_half, with_word};

use crate::entry::{entry_or, put};

pub fn low(n: u32) -> u8
    ensures { result ≡ n % 256 }
{
    let [low, ..] = n.to_le_bytes();
    low
}

#[tactic(auto, unfolding(crate::specs::Numbers::half))]
pub fn get_half(s: &[u8], at: u16) -> u16
    ensures { result ≡ half s.now at }
{
    let i = usize::from(at);
    u16::from_le_bytes([entry_or(s, i, 0), entry_or(s, i + 1, 0)])
}

// A word is named by its register, of four bytes each from 0 on. It is known to be there, so no byte is tested for.
#[tactic(auto, unfolding(crate::specs::Numbers::word))]
pub fn get_word_in(s: &[u8], r: u32) -> u32
    requires { 4 * r + 4 ≤ length s.now }
    ensures { result ≡ word s.now (4 * r) }
{
    let i = 4 * (r as usize);
    u32::from_le_bytes([s[i], s[i + 1], s[i + 2], s[i + 3]])
}

// A word at any place.
#[tactic(auto, unfolding(crate::specs::Numbers::word))]
pub fn word_at(s: &[u8], at: u32) -> u32
    ensures { result ≡ word s.now at }
{
    let i = at as usize;
    u32::from_le_bytes([
        entry_or(s, i, 0),
        entry_or(s, i + 1, 0),
        entry_or(s, i + 2, 0),
        entry_or(s, i + 3, 0),
    ])
}

// A u32, so that no caller has to bound the number: it is kept modulo 65,536.
#[tactic(auto, unfolding(crate::specs::Numbers::with_half))]
pub fn put_half(s: &mut [u8], at: u16, n: u32)
    ensures { s.new ≡ with_half s.old at n }
{
    let i = usize::from(at);
    let [a, b, ..] = n.to_le_bytes();
    put(s, i, a);
    put(s, i + 1, b);
}

// Up to the highest place that a register's number gives, 4 * 4,294,967,295, so that no sum wraps.
#[tactic(auto, unfolding(crate::specs::Numbers::with_word))]
fn put_word_from(s: &mut [u8], i: usize, n: u32)
    requires { i ≤ 17179869180 }
    ensures { s.new ≡ with_word s.old i n }
{
    let [a, b, c, d] = n.to_le_bytes();
    put(s, i, a);
    put(s, i + 1, b);
    put(s, i + 2, c);
    put(s, i + 3, d);
}

pub fn put_word(s: &mut [u8], r: u32, n: u32)
    ensures { s.new ≡ with_word s.old (4 * r) n }
{
    put_word_from(s, 4 * (r as usize), n);
}

// Known to be there too.
#[tactic(auto, unfolding(crate::specs::Numbers::with_word))]
pub fn put_word_in(s: &mut [u8], r: u32, n: u32)
    requires { 4 * r + 4 ≤ length s.old }
    ensures { s.new ≡ with_word s.old (4 * r) n }
{
    let i = 4 * (r as usize);
    [s[i], s[i + 1], s[i + 2], s[i + 3]] = n.to_le_bytes();
}

pub fn put_word_at(s: &mut [u8], at: u32, n: u32)
    ensures { s.new ≡ with_word s.old at n }
{
    put_word_from(s, at as usize, n);
}
