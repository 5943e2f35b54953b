// Digits from a place on, however many: a number's are counted afterwards, so that the loop has one test for each byte.
ghost use Rattle.std.specs.Prelude.{◌≡◌};
ghost use Rattle.text.specs.Digits.{digits_read};

use crate::base::Base;
use text::Digits;

pub(crate) fn digits_from<B: Base>(text: &[u8], from: usize) -> Digits
    ensures { result ≡ digits_read B.form text.now from }
{
    let mut value: u32 = 0;
    for i in from..text.len() {
        let b = text[i];
        let Some(d) = B::worth(b) else {
            return Digits {
                value,
                end: i,
                stop: b,
            };
        };
        value = value.wrapping_mul(B::BASE).wrapping_add(d);
    }
    Digits {
        value,
        end: from.max(text.len()),
        stop: 0,
    }
}
