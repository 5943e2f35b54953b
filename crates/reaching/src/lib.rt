// What policyreach writes: the report on a text, and the answer to a question about it.
#![tactic(auto)]

mod answer;
mod lines;
mod words;

pub use answer::answer_on;
pub use lines::report_on;
pub use words::{put_words, words_in};
