// The entries past the counts, and rules 4 and 5 for the slots, which are read in the same loop.
ghost use Rattle.std.specs.Prelude.{◌≡◌, ◌&&◌, ◌||◌, cond, not, eqb, leb, drop};
ghost use Rattle.policy.specs.Below.{each_below};
ghost use Rattle.policy.specs.Limits.{most_ticks, single};
ghost use Rattle.policy.specs.Range.{outside};
ghost use Rattle.policy.specs.Record.{tables_of};
ghost use Rattle.policy.specs.Sound.{all_zero, good_slot};
ghost use Rattle.policy.specs.Tables.{view_of};

use crate::counted::Counted;
use policy::MOST_TICKS;

// An entry past the count strays by what it holds. A value and no branch.
fn past(used: bool, entry: u16) -> u16
    ensures { eqb result 0 ≡ used || eqb entry 0 }
{
    if used { 0 } else { entry }
}

// What strays at a slot: past the count whatever it holds, and else 1 where rule 4 refuses it.
fn slot_stray(used: bool, partitions: u16, owner: u16, given: u16) -> u16
    ensures { eqb result 0 ≡ cond used (not (leb partitions owner || outside 1 most_ticks given)) (eqb owner 0 && eqb given 0) }
{
    if used {
        if (partitions <= owner) | ((given < 1) | (MOST_TICKS < given as u32)) {
            1
        } else {
            0
        }
    } else {
        owner | given
    }
}

impl Counted<'_> {
    // Segments and slots past the counts, and rules 4 and 5 for the slots. One loop over all places, in numbers of 16 bits,
    // with no early exit: the compiler then takes many at once. Whether a place is used is told from the end, since the
    // compiler makes a plain `i < n` a wider test.
    pub(crate) fn tables_hold(&self) -> bool
        ensures { let p = self.now.policy.now in
            result ≡ (all_zero (drop p.segments p.base) && all_zero (drop p.segments p.size))
            && (all_zero (drop p.slots p.owner) && all_zero (drop p.slots p.ticks))
            && each_below p.slots (good_slot single (view_of (tables_of p))) }
    {
        let policy = self.policy;
        let free = 32 - policy.segments as u16;
        let idle = 32 - policy.slots as u16;
        let partitions = policy.partitions as u16;
        let mut stray: u16 = 0;
        for i in 0..32 {
            let at = i as u16;
            stray |= past(at + free < 32, policy.base[i] | policy.size[i])
                | slot_stray(
                    at + idle < 32,
                    partitions,
                    policy.owner[i] as u16,
                    policy.ticks[i],
                );
        }
        stray == 0
    }

    // What the partitions past the count have, gathered by or.
    pub(crate) fn partitions_unused(&self) -> bool
        ensures { let p = self.now.policy.now in
            result ≡ all_zero (drop p.partitions p.code) && all_zero (drop p.partitions p.save)
            && all_zero (drop p.partitions p.reads) && all_zero (drop p.partitions p.writes) }
    {
        let policy = self.policy;
        let mut used: u32 = 0;
        for p in policy.partitions as usize..8 {
            used |= policy.code[p] as u32
                | policy.save[p] as u32
                | policy.reads[p]
                | policy.writes[p];
        }
        used == 0
    }
}
