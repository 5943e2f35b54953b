// Rules 4 and 5 for the segments and partitions of a record.
ghost use Rattle.std.specs.Prelude.{◌+◌, ◌≡◌};
ghost use Rattle.linerules.specs.Parts.{EndedBy};
ghost use Rattle.policy.specs.Below.{each_below};
ghost use Rattle.policy.specs.Limits.{single};
ghost use Rattle.policy.specs.Record.{tables_of};
ghost use Rattle.policy.specs.Sound.{good_segment, good_partition};
ghost use Rattle.policy.specs.Tables.{view_of};

use crate::counted::Counted;
use linerules::{partition_passes, segment_passes};
use octets::entry_or;

// Where the segments up to i have ended.
fn end_after<'a>(base: &'a [u16], size: &'a [u16], i: u8, end: u32) -> u32
    requires { EndedBy base.now size.now i end }
    ensures { EndedBy base.now size.now (i + 1) result }
{
    let next = entry_or(base, i as usize, 0) as u32 + entry_or(size, i as usize, 0) as u32;
    end.max(next)
}

impl Counted<'_> {
    pub(crate) fn segments_good(&self) -> bool
        ensures { let v = view_of (tables_of self.now.policy.now) in
            result ≡ each_below v.segments (good_segment single v) }
    {
        let base = &self.policy.base;
        let size = &self.policy.size;
        let mut end: u32 = 0;
        for i in 0..self.policy.segments {
            if !segment_passes(self.policy, i, end) {
                return false;
            }
            end = end_after(base, size, i, end);
        }
        true
    }

    pub(crate) fn partitions_good(&self) -> bool
        ensures { let v = view_of (tables_of self.now.policy.now) in
            result ≡ each_below v.partitions (good_partition single v) }
    {
        for i in 0..self.policy.partitions {
            if !partition_passes(self.policy, i) {
                return false;
            }
        }
        true
    }
}
