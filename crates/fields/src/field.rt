// One field of a line, read at a place that is lent, the field's first byte. A reader knows which byte must end its field,
// finds the end itself and moves the place past it, so that each byte is passed once. Where no such field stands, the
// place stays.
ghost use Rattle.std.specs.Prelude.{true, ◌||◌, ◌≡◌, eqb};
ghost use Rattle.text.specs.Cut.{tab, line_end};
ghost use Rattle.text.specs.Number.{number};
ghost use Rattle.text.specs.Readers.{field_read, inner_read, last_read, letters_read};

use digits::digits_at;
use text::Cursor;

// The field that this byte ends, read as a number, decimal or past 0x hexadecimal: digits to the field's end, as many as
// there may be, and a leading 0 alone.
fn number_to(text: &[u8], place: &mut Cursor, end: u8) -> Option<u32>
    requires { eqb end tab || eqb end line_end ≡ true }
    ensures { record { said = result; next = place.new } ≡ field_read number end text.now place.old }
{
    if text.len() < place.at {
        return None;
    }
    let d = digits_at(text, place.at, end)?;
    let n = d.end - d.from;
    if (n < 1) | (d.most < n) {
        return None;
    }
    if (text[d.from] == b'0') & (1 < n) {
        return None;
    }
    place.at = d.end + 1;
    Some(d.value)
}

// The letters of a right, which end their line: r is 1, w is 2, rw is 3.
pub fn read_letters(text: &[u8], place: &mut Cursor) -> Option<u32>
    ensures { record { said = result; next = place.new } ≡ letters_read text.now place.old }
{
    let rest = text.get(place.at..)?;
    if rest.starts_with(b"r\n") {
        place.at += 2;
        return Some(1);
    }
    if rest.starts_with(b"w\n") {
        place.at += 2;
        return Some(2);
    }
    if rest.starts_with(b"rw\n") {
        place.at += 3;
        return Some(3);
    }
    None
}

// A number with a field after it. This one and the next are two names, of a line each, for two definitions (d).
pub fn read_inner(text: &[u8], place: &mut Cursor) -> Option<u32>
    ensures { record { said = result; next = place.new } ≡ inner_read text.now place.old }
{
    number_to(text, place, b'\t')
}

// A number that ends its line.
pub fn read_last(text: &[u8], place: &mut Cursor) -> Option<u32>
    ensures { record { said = result; next = place.new } ≡ last_read text.now place.old }
{
    number_to(text, place, b'\n')
}
