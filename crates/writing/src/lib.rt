// Bytes, words, numbers and rows of numbers into a lent buffer, for every report.
#![tactic(auto)]

mod writer;

pub use writer::Writer;
