// Refusal 5: "a segment overlaps an earlier one; a save segment's length isn't 44; a segment is save of two partitions,
// or code of one and save of the same or another; a right names a save segment; a flow goes from a segment to itself".
ghost use Rattle.std.specs.Prelude.{◌+◌, ◌<◌, ◌≤◌, ◌≡◌};
ghost use Rattle.policy.specs.Clash.{overlaps_earlier, shares_earlier, partition_clashes, clashes};
ghost use Rattle.policy.specs.Limits.{single};
ghost use Rattle.policy.specs.Record.{tables_of};
ghost use Rattle.policy.specs.Sound.{first_partitions, first_segments};
ghost use Rattle.policy.specs.Tables.{view_of};
ghost use Rattle.linerules.specs.Drafted.{view_in};
ghost use Rattle.linerules.specs.Parts.{end_of, right_on};

use crate::draft::Draft;
use bits::has_bit;
use octets::entry_or;
use policy::{Policy, SAVE_SIZE};
use text::Line;

// Among the first so many segments. In u32, which the compiler tests many at once.
pub(crate) fn overlaps_earlier(policy: &Policy, segments: u8, base: u32, size: u32) -> bool
    requires few { segments ≤ single.segments }
    requires ends { base + size < 4294967296 }
    ensures { result ≡ overlaps_earlier (first_segments (view_of (tables_of policy.now)) segments) base size }
{
    let end = base + size;
    for i in 0..segments as usize {
        let from = policy.base[i] as u32;
        let bytes = policy.size[i] as u32;
        if (base < from + bytes) & (from < end) {
            return true;
        }
    }
    false
}

fn shares_earlier(policy: &Policy, partitions: u8, code: u32, save: u32) -> bool
    ensures { result ≡ shares_earlier (first_partitions (view_of (tables_of policy.now)) partitions) code save }
{
    for i in 0..partitions as usize {
        let c = entry_or(&policy.code, i, 0) as u32;
        let s = entry_or(&policy.save, i, 0) as u32;
        if (save == s) | (save == c) | (code == s) {
            return true;
        }
    }
    false
}

// With the first so many partitions.
pub(crate) fn partition_clashes(policy: &Policy, partitions: u8, code: u32, save: u32) -> bool
    ensures { result ≡ partition_clashes (first_partitions (view_of (tables_of policy.now)) partitions) code save }
{
    let bytes = entry_or(&policy.size, save as usize, 0) as usize;
    let shared = shares_earlier(policy, partitions, code, save);
    (bytes != SAVE_SIZE) | (code == save) | shared
}

impl Draft {
    // For a line that rule 4 lets pass. A segment that begins where those before have ended is compared with none of them.
    #[tactic(auto, unfolding(policy::specs::Clash::clashes))]
    pub(crate) fn clashes(&self, line: Line) -> bool
        requires ends_in_memory { end_of line ≤ single.memory }
        requires names_a_segment { right_on line < single.segments }
        ensures { result ≡ clashes (view_in self.now) line }
    {
        let p = &self.policy;
        match line {
            Line::Bad => false,
            Line::Segment { base, size, .. } => {
                if self.ended <= base {
                    false
                } else {
                    overlaps_earlier(p, p.segments, base, size)
                }
            }
            Line::Partition { code, save, .. } => { partition_clashes(p, p.partitions, code, save) }
            Line::Right { segment, .. } => has_bit(self.barred as u64, segment),
            Line::Flow { from, to } => from == to,
            Line::Slot { .. } => false,
        }
    }
}
