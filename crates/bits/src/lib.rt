// Masks of bits: bit s is worth 2 to the power s. A mask is a number of 64 bits; arrays of narrower masks are widened
// once, so that one code serves every width.
#![tactic(auto)]

mod bit;
mod set;
mod wide;

pub use bit::{has_bit, with_low_bit, worth};
pub use set::{bit_at, bit_of, bits_below, within};
pub use wide::{widen, widened};
