// Masks as sets of numbers, for any number: one of 64 or more is in no mask.
ghost use Rattle.std.specs.Prelude.{◌≤◌, ◌≡◌, true, eqb};
ghost use Rattle.std.specs.Int.Bits.{bit_and};
ghost use Rattle.bits.specs.Masks.{has, mask_of};

use crate::bit::{has_bit, worth};

pub fn bit_at(mask: u64, s: u8) -> bool
    ensures { result ≡ has mask s }
{
    s < 64 && has_bit(mask, s as u32)
}

// The mask of s alone.
pub fn bit_of(s: u8) -> u64
    ensures { result ≡ mask_of 64 (λ u. eqb u s) }
{
    1u64.checked_shl(s as u32).unwrap_or(0)
}

// The mask of the numbers below n.
pub fn bits_below(n: u8) -> u64
    requires { n ≤ 64 }
    ensures { result ≡ mask_of n (λ s. true) }
{
    if n < 64 {
        worth(n as u32) - 1
    } else {
        u64::MAX
    }
}

// Whether each bit of a mask is one of those allowed.
pub fn within(mask: u64, allowed: u64) -> bool
    ensures { result ≡ eqb (bit_and mask allowed) mask }
{
    (mask & allowed) == mask
}
