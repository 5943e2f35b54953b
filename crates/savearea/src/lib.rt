// The bytes of a save segment, lent as `&mut [u8]`: a step of the counter, a result, a fault, an interrupt. A step and a
// result ask for all of the bytes, and an interrupt for a line; else a byte past the end reads 0, and a write there changes
// nothing.
#![tactic(auto)]

pub mod layout;
mod line;
mod step;

pub use line::{interrupt, takes_interrupt};
pub use step::{Next, advance, fault, in_handler, put_result};
