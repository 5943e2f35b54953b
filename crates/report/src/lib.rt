// The report that policycheck writes.
#![tactic(auto)]

mod masks;
mod write;

pub use write::{put_refused, write_report};
