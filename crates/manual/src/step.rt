// The lines of a block that is obeyed.
use crate::reading::Answer;
use crate::row::Change;
use machine::Place;
use script::{NONE, after_fields, number_in};

// A line that checks: what memory holds at an address, the place and the number that the last call answered, or what
// reading the accepted text answers where a line of it is changed.
#[derive(Clone, Copy)]
pub(crate) enum Check<'a> {
    Memory(usize, &'a [&'a [u8]]),
    Place(Place),
    Number(u32),
    Changed(u32, Change<'a>, Answer),
}

#[derive(Clone, Copy)]
pub(crate) enum Step<'a> {
    Start,
    Run(u32),
    Pend(u32, u32),
    From(Place),
    Put(usize, &'a [&'a [u8]]),
    Check(Check<'a>),
}

// The place that the words of a line write. The highest count is the number that stands for none.
fn place_of(line: &[u8], count: &[u8]) -> Option<Place> {
    let place = Place {
        slot: number_in(line, 1),
        used: number_in(line, 2),
        count: number_in(line, 3),
    };
    ((place.count < NONE) | (count == b"4294967295".as_slice())).then_some(place)
}

impl<'a> Check<'a> {
    // A row `line LINE NUMBER TEXT`: with TEXT for that line, a text is refused by that number, or accepted where it is 0. A
    // refusal by 2 to 5 names the bad line, and any other none. Rows `without LINE NUMBER NAMED` and `with LINE NUMBER
    // NAMED TEXT`: where a text lacks that line, or has TEXT before it, reading answers NUMBER and names the line NAMED.
    fn parse(line: &'a [u8], words: &'a [&'a [u8]]) -> Option<Check<'a>> {
        let x = number_in(line, 1);
        let number = number_in(line, 2);
        let named = number_in(line, 3);
        let answer = |line| Answer { number, line };
        match words {
            [b"is", ..] => Some(Check::Memory(x as usize, words.get(2..).unwrap_or_default())),
            [b"place", _, _, count] => Some(Check::Place(place_of(line, count)?)),
            [b"number", _] => Some(Check::Number(x)),
            [b"line", ..] => {
                let named = if matches!(number, 2..=5) { x } else { 0 };
                let change = Change::Replace(after_fields(line, 3, b' '));
                Some(Check::Changed(x, change, answer(named)))
            }
            [b"without", _, _, _] => Some(Check::Changed(x, Change::Remove, answer(named))),
            [b"with", ..] => {
                let change = Change::Insert(after_fields(line, 4, b' '));
                Some(Check::Changed(x, change, answer(named)))
            }
            _ => None,
        }
    }
}

impl<'a> Step<'a> {
    // What a line says, given with its words, where it says something.
    pub(crate) fn parse(line: &'a [u8], words: &'a [&'a [u8]]) -> Option<Step<'a>> {
        let x = number_in(line, 1);
        let y = number_in(line, 2);
        match words {
            [b"start"] => Some(Step::Start),
            [b"run", _] if x < NONE => Some(Step::Run(x)),
            [b"pend", _, _] if (x < NONE) & (y < NONE) => Some(Step::Pend(x, y)),
            [b"from", _, _, count] if (x < NONE) & (y < NONE) => {
                Some(Step::From(place_of(line, count)?))
            }
            [b"put", ..] => Some(Step::Put(x as usize, words.get(2..).unwrap_or_default())),
            _ => Some(Step::Check(Check::parse(line, words)?)),
        }
    }
}
