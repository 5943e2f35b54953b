// A text in which one line is changed.
use script::after_fields;
use std::alloc::{AllocError, Global};

// The line is another, is left out, or has another before it.
#[derive(Clone, Copy)]
pub(crate) enum Change<'a> {
    Replace(&'a [u8]),
    Remove,
    Insert(&'a [u8]),
}

// A text in which the line of a number, counted from 1, is changed. None where there is no line to leave out or to put
// another before; another in place of one past the end stands at the end.
pub(crate) fn changed(
    alloc: Global,
    text: &[u8],
    number: u32,
    change: Change,
) -> Result<Option<Vec<u8>>, AllocError> {
    let Some(index) = number.checked_sub(1) else {
        return Ok(None);
    };
    let rest = after_fields(text, index, b'\n');
    let before = text.get(..text.len().saturating_sub(rest.len()));
    let end = rest.iter().position(|b| *b == b'\n').unwrap_or(rest.len());
    let past = rest.get(end.saturating_add(1)..).unwrap_or_default();
    let before = before.unwrap_or_default();
    let changed = match change {
        Change::Replace(line) => [before, line, &rest[end..]].concat(alloc)?,
        _ if rest.is_empty() => return Ok(None),
        Change::Remove => [before, past].concat(alloc)?,
        Change::Insert(line) => [before, line, b"\n", rest].concat(alloc)?,
    };
    Ok(Some(changed))
}
