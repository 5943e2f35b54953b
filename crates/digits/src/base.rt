// The two ways to write a number, as a loop over digits needs them.
ghost use Rattle.std.specs.Prelude.{◌≡◌, ℕ, refl};
ghost use Rattle.text.specs.Digits.{digit_worth};
ghost use Rattle.text.specs.Number.{Notation, ten, sixteen};

pub(crate) trait Base {
    ghost form: { Notation };

    ghost BASE: { ℕ };

    const BASE: u32;

    // How many digits there may be.
    ghost MOST: { ℕ };

    const MOST: usize;

    // What a byte is worth, if it is a digit.
    fn worth(b: u8) -> Option<u32>
        ensures { result ≡ digit_worth form b };

    ghost is_base: { form.base ≡ BASE };

    ghost is_most: { form.most ≡ MOST };
}

pub(crate) struct Ten;

impl Base for Ten {
    ghost form = { ten };

    ghost BASE = { 10 };

    const BASE: u32 = 10;

    ghost MOST = { 5 };

    const MOST: usize = 5;

    // The difference wraps around below "0", so that one test tells a digit.
    fn worth(b: u8) -> Option<u32> {
        let d = (b as u32).wrapping_sub(48);
        if d < 10 { Some(d) } else { None }
    }

    ghost is_base = { refl };

    ghost is_most = { refl };
}

pub(crate) struct Sixteen;

impl Base for Sixteen {
    ghost form = { sixteen };

    ghost BASE = { 16 };

    const BASE: u32 = 16;

    ghost MOST = { 4 };

    const MOST: usize = 4;

    fn worth(b: u8) -> Option<u32> {
        if (b'0' <= b) & (b <= b'9') {
            return Some((b - b'0') as u32);
        }
        if (b'a' <= b) & (b <= b'f') {
            return Some(10 + (b - b'a') as u32);
        }
        None
    }

    ghost is_base = { refl };

    ghost is_most = { refl };
}
