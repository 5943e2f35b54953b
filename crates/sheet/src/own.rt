// One round, from its end backwards: the ticks of each partition, and where its first slot begins.
ghost use Rattle.std.specs.Prelude.{◌≡◌, true};
ghost use Rattle.policy.specs.Below.{list_below};
ghost use Rattle.policy.specs.Limits.{single};
ghost use Rattle.policy.specs.Record.{tables_of};
ghost use Rattle.policy.specs.Schedule.{own_ticks, round_ticks};
ghost use Rattle.policy.specs.Sound.{sound_of};
ghost use Rattle.policy.specs.Tables.{view_of};
ghost use Rattle.sheet.specs.Slots.{first_begin};

use policy::Policy;

#[derive(Clone, Copy)]
pub(crate) struct Round {
    // Of each partition, its ticks.
    pub(crate) own: [u32; 8],
    // Of each partition, in ticks before the round's end, where the slot begins that it has next; 0 where it has none.
    pub(crate) ahead: [u32; 8],
    pub(crate) ticks: u32,
}

pub(crate) fn round_of(policy: &Policy) -> Round
    requires sound { sound_of single (tables_of policy.now) ≡ true }
    ensures own { result.own ≡ list_below single.partitions (own_ticks (view_of (tables_of policy.now))) }
    ensures ahead { result.ahead ≡ list_below single.partitions (first_begin (view_of (tables_of policy.now))) }
    ensures ticks { result.ticks ≡ round_ticks (view_of (tables_of policy.now)) }
{
    // An entry for each partition that a record can have, since there is no heap (a).
    let mut own = [0u32; 8];
    let mut ahead = [0u32; 8];
    let mut far: u32 = 0;
    for slot in (0..usize::from(policy.slots)).rev() {
        let owner = usize::from(policy.owner[slot]);
        let ticks = u32::from(policy.ticks[slot]);
        far += ticks;
        own[owner] += ticks;
        ahead[owner] = far;
    }
    Round {
        own,
        ahead,
        ticks: far,
    }
}
