// Run: ticks by stretches, each of one slot and so of its partition, and the place moves after each stretch.
ghost use Rattle.std.specs.Prelude.{◌≡◌, true};
ghost use Rattle.policy.specs.Limits.{single};
ghost use Rattle.policy.specs.Tables.{view_of};
ghost use Rattle.policy.specs.Record.{tables_of};
ghost use Rattle.policy.specs.Sound.{sound_of};
ghost use Rattle.machine.specs.Machine.{Stands};
ghost use Rattle.calls.specs.Under.{under_policy};
ghost use Rattle.calls.specs.Run.{state_of, after_ticks, run_answer, after_run};

use crate::stretch::stretch;
use crate::tested::tested;
use calls::Refused;
use machine::{MOST_TICKS_OF_RUN, Place};
use parts::is_able;
use policy::Policy;
use schedule::{is_place, next_turn, place_with, turn_at};

// By value: with the record by reference each tick of a long slot has two instructions more.
fn run_ticks(policy: Policy, memory: &mut [u8], place: Place, n: u32) -> Place
    requires sound { sound_of single (tables_of policy) ≡ true }
    requires stands { Stands single (view_of (tables_of policy)) (state_of memory.old place) }
    ensures { state_of memory.new result
        ≡ after_ticks (view_of (tables_of policy)) n (state_of memory.old place) }
{
    // The count after all n.
    let end = place.count.wrapping_add(n);
    let mut turn = turn_at(&policy.ticks, place);
    let mut left = n;
    // By hand: each turn takes as many ticks as its slot has left.
    while 0 < left {
        let slot = turn.slot;
        let room = turn.left;
        let owner = usize::from(policy.owner[slot as usize]);
        let save = usize::from(policy.save[owner]);
        // Asked before all else is looked up: an idle partition needs none of it.
        if is_able(memory, usize::from(policy.base[save])) {
            stretch(
                memory,
                &policy,
                owner,
                end.wrapping_sub(left),
                room.min(left),
            );
        }
        // A branch, and no choice between two places: the next slot does not wait for the ticks of this one.
        if left < room {
            return place_with(&policy.ticks, slot, room - left, end);
        }
        left -= room;
        turn = next_turn(&policy.ticks, policy.slots, slot);
    }
    place_with(&policy.ticks, turn.slot, turn.left, end)
}

pub fn run(policy: &Policy, memory: &mut [u8], place: Place, n: u32) -> Result<Place, Refused>
    ensures answer { result ≡ run_answer (under_policy policy.now) (state_of memory.old place) n }
    ensures memory_after { memory.new ≡ (after_run (under_policy policy.now) (state_of memory.old place) n).memory }
{
    tested(policy, memory)?;
    if !is_place(&policy.ticks, policy.slots, place) {
        return Err(Refused::NoPlace);
    }
    if MOST_TICKS_OF_RUN < n {
        return Err(Refused::TooManyTicks);
    }
    Ok(run_ticks(*policy, memory, place, n))
}
