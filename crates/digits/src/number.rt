// The digits of the number at a place, and how many there may be.
ghost use Rattle.std.specs.Prelude.{◌≡◌, ◌≤◌, true, ◌||◌, length, ◌==◌};
ghost use Rattle.text.specs.Cut.{tab, line_end};
ghost use Rattle.text.specs.Digits.{number_digits, of_number};

use crate::base::{Base, Sixteen, Ten};
use crate::scan::digits_from;
use text::{Digits, NumberDigits};

// Digits from a place on, as those of a number.
fn of_number<B: Base>(d: Digits, from: usize) -> NumberDigits
    ensures { result ≡ of_number B.form from d }
{
    NumberDigits {
        value: d.value,
        from,
        most: B::MOST,
        end: d.end,
    }
}

// The digits of the number at a place, which this byte ends, a tab or a line end. Most numbers are decimal, and of those
// nothing more is asked than whether it stands after them.
pub fn digits_at(text: &[u8], from: usize, end: u8) -> Option<NumberDigits>
    requires { (from ≤ length text.now) × (end == tab || (end == line_end) ≡ true) }
    ensures { result ≡ number_digits end text.now from }
{
    let d = digits_from::<Ten>(text, from);
    if d.stop == end {
        return Some(of_number::<Ten>(d, from));
    }
    if !((d.stop == b'x') & (d.end == from + 1) & (d.value == 0)) {
        return None;
    }
    let digits = from + 2;
    let h = digits_from::<Sixteen>(text, digits);
    if h.stop != end {
        return None;
    }
    Some(of_number::<Sixteen>(h, digits))
}
