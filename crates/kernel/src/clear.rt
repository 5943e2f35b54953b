// Start: every save segment is cleared, through a loan of it alone.
ghost use Rattle.std.specs.Prelude.{◌≡◌, true, length};
ghost use Rattle.policy.specs.Limits.{single};
ghost use Rattle.policy.specs.Tables.{view_of};
ghost use Rattle.policy.specs.Record.{tables_of};
ghost use Rattle.policy.specs.Sound.{sound_of};
ghost use Rattle.calls.specs.Under.{under_policy};
ghost use Rattle.calls.specs.Start.{cleared, start_answer, after_start};

use crate::save::save_from;
use crate::tested::tested;
use calls::Refused;
use machine::Place;
use policy::{Policy, SAVE_SIZE};

// The place of a Start, refused too.
pub const START: Place = Place {
    slot: 0,
    used: 0,
    count: 0,
};

fn clear_saves(policy: &Policy, memory: &mut [u8])
    requires sound { sound_of single (tables_of policy.now) ≡ true }
    requires whole { length memory.old ≡ single.memory }
    ensures { memory.new
        ≡ cleared (view_of (tables_of policy.now)) policy.now.partitions memory.old }
{
    for partition in 0..usize::from(policy.partitions) {
        let from = save_from(policy, partition);
        memory[from..from + SAVE_SIZE].fill(0);
    }
}

pub fn start(policy: &Policy, memory: &mut [u8]) -> Result<Place, Refused>
    ensures answer { result ≡ start_answer (under_policy policy.now) memory.old }
    ensures memory_after { memory.new ≡ after_start (under_policy policy.now) memory.old }
{
    tested(policy, memory)?;
    clear_saves(policy, memory);
    Ok(START)
}
