// The words of a line and the numbers that they write. One or more spaces part two words, so that a word is empty only where
// a line begins with a space, or where there is none.
ghost use Rattle.std.specs.Prelude.{◌≤◌, length};

use std::str;

// What stands for no number, and for each one that is larger.
pub const NONE: u32 = 4294967295;

// What stands behind the first field of a text, where one or more of a byte part the fields.
fn after_field(text: &[u8], parting: u8) -> &[u8]
    ensures { length result.now ≤ length text.now }
{
    let end = text.iter().position(|b| *b == parting);
    let (_, rest) = text.split_at(end.unwrap_or(text.len()));
    let next = rest.iter().position(|b| *b != parting);
    &rest[next.unwrap_or(rest.len())..]
}

// A text from the field of a number on, counted from 0; nothing where there is no such field.
pub fn after_fields(text: &[u8], number: u32, parting: u8) -> &[u8]
    ensures { length result.now ≤ length text.now }
{
    let mut rest = text;
    for _ in 0..number {
        if rest.is_empty() {
            break;
        }
        rest = after_field(rest, parting);
    }
    rest
}

pub fn word(line: &[u8], k: u32) -> &[u8] {
    let mut words = after_fields(line, k, b' ').split(|b| *b == b' ');
    words.next().unwrap_or_default()
}

// The number that the k-th word of a line writes in decimal.
pub fn number_in(line: &[u8], k: u32) -> u32 {
    let digits = word(line, k);
    // std takes a sign.
    if digits.starts_with(b"+") {
        return NONE;
    }
    let number = str::from_utf8(digits)
        .ok()
        .map(|digits| digits.parse().ok());
    number.flatten().unwrap_or(NONE)
}
