// Who can reach whom: the report of all chains of flow lines, and the question of one. Both answer for every record.
#![tactic(auto)]

mod question;
mod rows;
mod search;
mod spread;

pub use question::can_reach;
pub use rows::reach;
