// A block of a manual, of the kind that its first line names.
use crate::program::try_lines;
use crate::reading::{Answer, read};
use script::{after_fields, number_in, word};
use std::alloc::{AllocError, Global};
use std::convert::AsSlice;
use std::io;

// A block's number in its manual and that of the line of its first fence, that line, the text up to the next fence, and
// whether that is a bare one.
#[derive(Clone, Copy)]
pub(crate) struct Block<'a> {
    pub number: u32,
    pub line: u32,
    pub fence: &'a [u8],
    pub text: &'a [u8],
    pub is_closed: bool,
}

impl<'a> Block<'a> {
    // A block whose end is not known yet: its text is all that stands behind its first fence.
    pub(crate) fn opened(number: u32, line: u32, fence: &'a [u8], text: &'a [u8]) -> Block<'a> {
        Block {
            number,
            line,
            fence,
            text,
            is_closed: false,
        }
    }
}

// The words of a line; several spaces part them as one does.
pub(crate) fn words_of<'a>(alloc: Global, line: &'a [u8]) -> Result<Vec<&'a [u8]>, AllocError> {
    let mut words = Vec::new(alloc);
    for (k, word) in line.split(|b| *b == b' ').enumerate() {
        if (k == 0) | !word.is_empty() {
            words.push(word)?;
        }
    }
    Ok(words)
}

// Whether a text is what a report writes into a buffer.
fn is_written<B: AsSlice<u8> + Drop, F: FnOnce(&mut B) -> usize>(
    text: &[u8],
    mut out: B,
    report: F,
) -> bool
    requires { F.IsAlwaysCallable report }
{
    let n = report(&mut out);
    out.as_slice()
        .get(..n)
        .is_some_and(|written| written == text)
}

// A reach block: the report, or after two words on the block's first line the answer to what they ask.
fn is_reach(policy: &[u8], block: &Block) -> bool {
    if block.fence == b"```reach".as_slice() {
        return is_written(
            block.text,
            [0u8; 3424],
            |out| reaching::report_on(policy, out),
        );
    }
    let from = word(block.fence, 1);
    let to = word(block.fence, 2);
    if (16 < from.len()) | (16 < to.len()) | !after_fields(block.fence, 3, b' ').is_empty() {
        return false;
    }
    let mut asked = [0u8; 34];
    let n = reaching::put_words(&mut asked, from, to);
    is_written(
        block.text,
        [0u8; 3424],
        |out| reaching::answer_on(policy, &asked[..n], out),
    )
}

// Whether a block is right about a policy text, and what is shown of it where it is not.
#[derive(Clone, Copy)]
pub(crate) enum Verdict {
    Right,
    Wrong(u32),
    TooLong,
}

impl Verdict {
    pub(crate) fn of(is_right: bool, line: u32) -> Verdict {
        if is_right {
            Verdict::Right
        } else {
            Verdict::Wrong(line)
        }
    }
}

// A text as often as that, as far as it matters: what is longer than the longest text is read alike, however long it is.
fn repeated(alloc: Global, text: &[u8], times: u32) -> Result<Vec<u8>, AllocError> {
    let most = 20000usize
        .checked_div(text.len())
        .map_or(0, |n| n.saturating_add(1));
    text.repeat(alloc, most.min(times as usize))
}

// A policy block: its first line has the number and the line that reading its text must answer, after `cut` where the text's
// last line end is left off, and after `times` and a count where it is repeated. Answers whether the text is accepted.
fn check_policy<R: Print + AllocGlobal>(rt: &R, block: &Block) -> io::Result<(Verdict, bool)> {
    let cut = block.text.split_last().map(|(_, text)| text);
    let fence = block.fence;
    let (text, times, k) = match word(fence, 1) {
        b"cut" => (cut.unwrap_or_default(), 1, 2),
        b"times" => (block.text, number_in(fence, 2), 3),
        _ => (block.text, 1, 1),
    };
    let found = read(&repeated(rt.alloc(), text, times)?);
    let expected = Answer {
        number: number_in(fence, k),
        line: number_in(fence, k + 1),
    };
    print!(rt;
        "expected {} {}, found {} {}, ",
        expected.number, expected.line, found.number, found.line
    )?;
    let is_right = (found == expected) & after_fields(fence, k + 2, b' ').is_empty();
    Ok((Verdict::of(is_right, block.line), found.number == 0))
}

// Whether a block of another kind is right about the last accepted text.
fn verdict_on<R: Print + AllocGlobal>(rt: &R, block: &Block, policy: &[u8]) -> io::Result<Verdict> {
    let text = block.text;
    let is_right = match block.fence {
        b"```report" => is_written(text, [0u8; 640], |out| checking::report_on(policy, out)),
        b"```sheet" => is_written(text, [0u8; 204], |out| sheeting::sheet_on(policy, out)),
        b"```lines" | b"```program" => return try_lines(rt, policy, block),
        _ => (word(block.fence, 0) == b"```reach".as_slice()) & is_reach(policy, block),
    };
    Ok(Verdict::of(is_right, block.line))
}

// Checks a block, and answers what the blocks after it are about: the text of the last policy block that is accepted.
pub(crate) fn check_block<'a, R: Print + AllocGlobal>(
    rt: &R,
    block: &Block<'a>,
    base: &'a [u8],
) -> io::Result<&'a [u8]> {
    let kind = word(block.fence, 0);
    let mut next = base;
    rt.write_all(kind.get(3..).unwrap_or_default())?;
    print!(rt; " {}: ", block.number)?;
    let verdict = if !block.is_closed {
        Verdict::Wrong(block.line)
    } else if kind == b"```policy".as_slice() {
        let (verdict, is_accepted) = check_policy(rt, block)?;
        if is_accepted {
            next = block.text;
        }
        verdict
    } else {
        verdict_on(rt, block, base)?
    };
    match verdict {
        Verdict::Right => println!(rt; "ok")?,
        Verdict::Wrong(line) => println!(rt; "WRONG at line {line}")?,
        Verdict::TooLong => println!(rt; "too long: WRONG")?,
    }
    Ok(next)
}
