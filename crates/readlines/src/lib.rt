// Reads the lines of a policy text into its record, or refuses it by the first line or rule for the whole that is broken.
#![tactic(auto)]

mod lines;

pub use lines::read_lines;
