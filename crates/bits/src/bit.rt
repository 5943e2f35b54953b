// One bit of a mask.
ghost use Rattle.std.specs.Prelude.{◌^◌, ◌<◌, ◌≡◌};
ghost use Rattle.bits.specs.Masks.{has, with_bit};

// The mask of one bit. `bit_of` is it for any number, and would test here that the bit is one of 64 (d).
pub fn worth(s: u32) -> u64
    requires { s < 64 }
    ensures { result ≡ 2 ^ s }
{
    1u64 << s
}

pub fn has_bit(mask: u64, s: u32) -> bool
    requires { s < 64 }
    ensures { result ≡ has mask s }
{
    (mask >> s) % 2 == 1
}

// A mask of 32 bits with one bit more: the record's masks alone grow. Over every width it would be a trait with laws, for one line.
pub fn with_low_bit(mask: u32, s: u32) -> u32
    requires { s < 32 }
    ensures { result ≡ with_bit mask s }
{
    mask | (1u32 << s)
}
