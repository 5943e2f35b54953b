// What is lent as a slice: an entry, or another value past the end, and numbers of two and of four bytes, lowest byte first.
// Every function is total but two, whose words must be there. Words are named by register or by byte, as far as each can name
// one without a sum that wraps (a).
#![tactic(auto)]

mod entry;
mod number;

pub use entry::{entry_or, put};
pub use number::{
    get_half, get_word_in, low, put_half, put_word, put_word_at, put_word_in, word_at,
};
