// Masks of 32 bits as masks of 64: the same numbers.
ghost use Rattle.std.specs.Prelude.{◌≡◌, length};
ghost use Rattle.bits.specs.Masks.{AllUnder};

pub fn widen(from: &[u32], to: &mut [u64])
    requires { length from.now ≡ length to.old }
    ensures same { to.new ≡ from.now }
    ensures narrow { AllUnder 32 from.now }
{
    for (i, mask) in from.iter().enumerate() {
        to[i] = u64::from(*mask);
    }
}

// Not by the array's own `map`, which asks that the result fits into memory: nobody knows that of any N.
pub fn widened<const N: usize>(masks: &[u32; N]) -> [u64; N]
    ensures same { result ≡ masks.now }
    ensures narrow { AllUnder 32 masks.now }
{
    let mut wide = [0; N];
    widen(masks, &mut wide);
    wide
}
