// Rules 4 and 5 for an entry of a record: whether a line that they let pass, after those before it, would put it there.
ghost use Rattle.std.specs.Prelude.{◌≡◌};
ghost use Rattle.policy.specs.Limits.{single};
ghost use Rattle.policy.specs.Record.{tables_of};
ghost use Rattle.policy.specs.Sound.{good_segment, good_partition};
ghost use Rattle.policy.specs.Tables.{view_of};
ghost use Rattle.linerules.specs.Parts.{EndedBy};

use crate::clash::{overlaps_earlier, partition_clashes};
use crate::range::{partition_outside, segment_outside};
use octets::entry_or;
use policy::Policy;

// The segments before have ended at `end`. One that begins there or later overlaps none of them, so segments in the order
// of their bases need one test each.
#[tactic(auto, unfolding(policy::specs::Sound::good_segment, policy::specs::Range::out_of_range, policy::specs::Clash::clashes))]
pub fn segment_passes(policy: &Policy, i: u8, end: u32) -> bool
    requires { EndedBy policy.now.base policy.now.size i end }
    ensures { result ≡ good_segment single (view_of (tables_of policy.now)) i }
{
    let base = entry_or(&policy.base, i as usize, 0) as u32;
    let size = entry_or(&policy.size, i as usize, 0) as u32;
    // Left early, so that the loop below is known to stay inside the arrays, and many entries are tested at once.
    if segment_outside(i, base, size) {
        return false;
    }
    if end <= base {
        return true;
    }
    !overlaps_earlier(policy, i, base, size)
}

#[tactic(auto, unfolding(policy::specs::Sound::good_partition, policy::specs::Range::out_of_range, policy::specs::Clash::clashes))]
pub fn partition_passes(policy: &Policy, i: u8) -> bool
    ensures { result ≡ good_partition single (view_of (tables_of policy.now)) i }
{
    let code = entry_or(&policy.code, i as usize, 0) as u32;
    let save = entry_or(&policy.save, i as usize, 0) as u32;
    if partition_outside(policy.segments, i, code, save) {
        return false;
    }
    !partition_clashes(policy, i, code, save)
}
