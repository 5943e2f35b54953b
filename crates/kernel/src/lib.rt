// The operations Start, Pend and Run on any memory and any numbers: each makes its tests in the order of the refusals,
// and acts where none applies.
#![tactic(auto)]

mod clear;
mod line;
mod running;
mod save;
mod stretch;
mod tested;

pub use clear::{START, start};
pub use line::pend;
pub use running::run;
