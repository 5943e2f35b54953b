// The digits of a number in a policy text: decimal ones, or hexadecimal ones past 0x.
#![tactic(auto)]

mod base;
mod number;
mod scan;

pub use number::digits_at;
