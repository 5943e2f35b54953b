// What the test programs share: a file read as far as there is room, its lines and, between them, texts of any bytes, and
// the words and numbers of a line. They take any bytes: a place past the end is taken for the end.
#![tactic(auto)]

mod lines;
mod loading;
mod words;

pub use lines::Lines;
pub use loading::load;
pub use words::{NONE, after_fields, number_in, word};

// More bytes than the longest file has.
pub const FILE: usize = 655360;
