// One field of a policy text's line, read at a place that is lent.
#![tactic(auto)]

mod field;
mod word;

pub use field::{read_inner, read_last, read_letters};
pub use word::read_word;
