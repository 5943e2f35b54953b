// The policy record, why a policy text is refused, what a question about a policy answers, and in specs/ the rules of both. No code that reads or
// tests a policy: the crates above prove theirs against these definitions.
#![tactic(auto)]

mod limits;
mod record;

pub use limits::{
    LONGEST_SEGMENT, MEMORY, MOST_TICKS, PARTITIONS, SAVE_SIZE, SEGMENTS, SLOTS, TEXT,
};
pub use record::{Key, NoAnswer, Policy, Refusal};
