// Document 01's rules 6, 7 and 8, and rule 16, which are asked of the whole policy. Each is answered for any value of
// the record whose counts are within the limits, sound or not.
#![tactic(auto)]

mod flows;
mod masks;
mod parts;
mod reach;
mod rules;

pub use parts::Parts;
pub use rules::{lent_refusal, record_refusal};
