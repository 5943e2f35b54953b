// The record word: fixed byte strings compared with the line's first bytes, the tab after the word with them.
ghost use Rattle.std.specs.Prelude.{◌≡◌};
ghost use Rattle.text.specs.Readers.{word_read};

use text::{Cursor, Kind};

// The first field of the line, read as the record word. The words that most lines have are tried first.
pub fn read_word(text: &[u8], place: &mut Cursor) -> Option<Kind>
    ensures { record { said = result; next = place.new } ≡ word_read text.now place.old }
{
    let rest = text.get(place.at..)?;
    if rest.starts_with(b"flow\t") {
        place.at += 5;
        return Some(Kind::Flow);
    }
    if rest.starts_with(b"right\t") {
        place.at += 6;
        return Some(Kind::Right);
    }
    if rest.starts_with(b"slot\t") {
        place.at += 5;
        return Some(Kind::Slot);
    }
    if rest.starts_with(b"segment\t") {
        place.at += 8;
        return Some(Kind::Segment);
    }
    if rest.starts_with(b"partition\t") {
        place.at += 10;
        return Some(Kind::Partition);
    }
    None
}
