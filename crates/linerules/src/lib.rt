// The draft that a policy text's lines are added to, and the rules for one line: refusals 2 to 5 of document 01, and 4 and 5 for an entry of a
// record.
#![tactic(auto)]

mod add;
mod clash;
mod draft;
mod entry;
mod line;
mod order;
mod range;

pub use draft::Draft;
pub use entry::{partition_passes, segment_passes};
pub use order::key_of;
