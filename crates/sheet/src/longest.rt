// The round before the one of own.rt, backwards too: behind each of its slots a partition is silent until the slot that it has next.
ghost use Rattle.std.specs.Prelude.{◌≡◌, true};
ghost use Rattle.policy.specs.Below.{list_below};
ghost use Rattle.policy.specs.Limits.{single};
ghost use Rattle.policy.specs.Record.{tables_of};
ghost use Rattle.policy.specs.Schedule.{round_ticks, silence};
ghost use Rattle.policy.specs.Sound.{sound_of};
ghost use Rattle.policy.specs.Tables.{view_of};
ghost use Rattle.sheet.specs.Slots.{first_begin};

use crate::own::Round;
use policy::Policy;

pub(crate) fn longest_silences(policy: &Policy, round: Round) -> [u32; 8]
    requires sound { sound_of single (tables_of policy.now) ≡ true }
    requires ahead { round.ahead ≡ list_below single.partitions (first_begin (view_of (tables_of policy.now))) }
    requires ticks { round.ticks ≡ round_ticks (view_of (tables_of policy.now)) }
    ensures { result ≡ list_below single.partitions (silence (view_of (tables_of policy.now))) }
{
    let mut longest = [0u32; 8];
    let mut ahead = round.ahead;
    let mut far = round.ticks;
    for slot in (0..usize::from(policy.slots)).rev() {
        let owner = usize::from(policy.owner[slot]);
        longest[owner] = longest[owner].max(far - ahead[owner]);
        far += u32::from(policy.ticks[slot]);
        ahead[owner] = far;
    }
    longest
}
