// Reads the lines of a policy text, field by field. The reader's place is lent to one small reader for each field.
#![tactic(auto)]

mod parse;

pub use parse::line_from;
