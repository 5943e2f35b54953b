// Whether a record is one that an accepted text gives, decided on the record alone. Any value is answered: counts past
// the limits and stray bits included.
#![tactic(auto)]

mod arrays;
mod counted;
mod entries;
mod rights;
mod test;

pub use test::passes_test;
