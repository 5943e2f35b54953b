// The schedule in time: which places a Run takes, where the place goes, and the ticks of one round.
#![tactic(auto)]

mod place;
mod round;

pub use place::{Turn, is_place, next_turn, place_with, turn_at};
pub use round::round_ticks;
