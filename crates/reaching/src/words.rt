// The words that a question is asked with.
ghost use Rattle.std.specs.Prelude.{◌+◌, ◌≤◌, ◌≡◌, [], ◌∷◌, ◌++◌, length};
ghost use Rattle.text.specs.Cut.{tab, line_end};
ghost use Rattle.writing.specs.Writer.{Filled};
ghost use Rattle.reaching.specs.Question.{words_of};

use fields::{read_inner, read_last};
use text::Cursor;
use writing::Writer;

// The two numbers of a question.
#[derive(Clone, Copy, PartialEq, Eq, Debug)]
pub struct Words {
    pub from: u32,
    pub to: u32,
}

// The words stand as the fields of a line: a tab behind the first, a line end behind the second.
pub fn words_in(words: &[u8]) -> Option<Words>
    ensures { result ≡ words_of words.now }
{
    let mut place = Cursor { at: 0, line: 0 };
    let from = read_inner(words, &mut place)?;
    let to = read_last(words, &mut place)?;
    if place.at != words.len() {
        return None;
    }
    Some(Words { from, to })
}

// The words of a question, as the fields of a line.
pub fn put_words(out: &mut [u8], from: &[u8], to: &[u8]) -> usize
    requires { length from.now + length to.now + 2 ≤ length out.old }
    ensures { Filled (from.now ++ tab ∷ (to.now ++ line_end ∷ [])) (length out.new) out.old out.new result }
{
    let mut writer = Writer::new(out);
    writer.put_word(from);
    writer.put_byte(b'\t');
    writer.put_word(to);
    writer.put_byte(b'\n');
    writer.len()
}
