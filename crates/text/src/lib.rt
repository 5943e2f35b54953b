// The policy text: the forms of its lines and fields, and in specs/ what a text says and what a reader finds at a
// place. No code that runs. Nothing here knows the rules of a policy; a line is read into one of a few cases, and
// refusal 2 of document 01 is decided here alone.
#![tactic(auto)]

mod line;
mod read;

pub use line::{Cursor, Kind, Line};
pub use read::{Digits, LineRead, NumberDigits};
