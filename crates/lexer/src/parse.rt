// A whole line, field by field, by the fields that its record word has; it is left at the first that is malformed.
ghost use Rattle.std.specs.Prelude.{◌<◌, ◌≤◌, ◌≡◌, length};
ghost use Rattle.text.specs.Lines.{line_of, line_of_kind};
ghost use Rattle.text.specs.Number.{number};
ghost use Rattle.text.specs.Readers.{line_read};
ghost use Rattle.text.specs.Rest.{rest_read, line_taken};

use fields::{read_inner, read_last, read_letters, read_word};
use text::{Cursor, Kind, Line, LineRead};

// What the fields after a record word say. The last of them ends its line. Each kind has a number first, and reads it in its own
// arm all the same: read for all at once, before the arms, a text takes a tenth more instructions.
fn take_fields(text: &[u8], place: &mut Cursor, kind: Kind) -> Option<Line>
    ensures { line_taken result place.new.at place.old.line ≡ rest_read (line_of_kind number kind) text.now place.old }
{
    match kind {
        Kind::Segment => {
            let id = read_inner(text, place)?;
            let base = read_inner(text, place)?;
            let size = read_last(text, place)?;
            Some(Line::Segment { id, base, size })
        }
        Kind::Partition => {
            let id = read_inner(text, place)?;
            let code = read_inner(text, place)?;
            let save = read_last(text, place)?;
            Some(Line::Partition { id, code, save })
        }
        Kind::Right => {
            let partition = read_inner(text, place)?;
            let segment = read_inner(text, place)?;
            let mode = read_letters(text, place)?;
            Some(Line::Right {
                partition,
                segment,
                mode,
            })
        }
        Kind::Flow => {
            let from = read_inner(text, place)?;
            let to = read_last(text, place)?;
            Some(Line::Flow { from, to })
        }
        Kind::Slot => {
            let partition = read_inner(text, place)?;
            let ticks = read_last(text, place)?;
            Some(Line::Slot { partition, ticks })
        }
    }
}

fn take_line(text: &[u8], place: &mut Cursor) -> Option<Line>
    ensures { line_taken result place.new.at place.old.line ≡ rest_read line_of text.now place.old }
{
    let kind = read_word(text, place)?;
    take_fields(text, place, kind)
}

// The line at a place of a text: what it says, Bad also where it has no end, and the place after it.
pub fn line_from(text: &[u8], at: usize, n: u32) -> LineRead
    requires { (at ≤ length text.now) × (n < 4294967295) }
    ensures { result ≡ line_read text.now at n }
{
    let mut place = Cursor { at, line: n };
    let Some(line) = take_line(text, &mut place) else {
        return LineRead {
            line: Line::Bad,
            next: Cursor { at: 0, line: 0 },
        };
    };
    LineRead {
        line,
        next: Cursor {
            at: place.at,
            line: n + 1,
        },
    }
}
