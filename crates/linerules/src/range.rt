// Refusal 4: "more than 32 segments, 8 partitions or 32 slots; a length or tick count out of range; base + length over
// 16,384; a partition or segment named that isn't there".
ghost use Rattle.std.specs.Prelude.{◌≡◌};
ghost use Rattle.policy.specs.Limits.{single};
ghost use Rattle.policy.specs.Range.{segment_outside, partition_outside, slot_outside, out_of_range};
ghost use Rattle.linerules.specs.Drafted.{view_in};
ghost use Rattle.linerules.specs.Parts.{counted};

use crate::draft::Draft;
use policy::{LONGEST_SEGMENT, MEMORY, MOST_TICKS, PARTITIONS, SEGMENTS, SLOTS};
use text::Line;

pub(crate) fn segment_outside(segments: u8, base: u32, size: u32) -> bool
    ensures { result ≡ segment_outside single (counted segments 0 0) base size }
{
    let full = SEGMENTS <= segments;
    let short = size < 1;
    let long = LONGEST_SEGMENT < size;
    let past = MEMORY < base as usize + size as usize;
    full | (short | long) | past
}

pub(crate) fn partition_outside(segments: u8, partitions: u8, code: u32, save: u32) -> bool
    ensures { result ≡ partition_outside single (counted segments partitions 0) code save }
{
    let full = PARTITIONS <= partitions;
    let no_code = segments as u32 <= code;
    let no_save = segments as u32 <= save;
    full | no_code | no_save
}

fn slot_outside(partitions: u8, slots: u8, partition: u32, ticks: u32) -> bool
    ensures { result ≡ slot_outside single (counted 0 partitions slots) partition ticks }
{
    let full = SLOTS <= slots;
    let nobody = partitions as u32 <= partition;
    let short = ticks < 1;
    let long = MOST_TICKS < ticks;
    full | nobody | (short | long)
}

impl Draft {
    #[tactic(auto, unfolding(policy::specs::Range::out_of_range))]
    pub(crate) fn out_of_range(&self, line: Line) -> bool
        ensures { result ≡ out_of_range single (view_in self.now) line }
    {
        let segments = self.policy.segments;
        let partitions = self.policy.partitions;
        match line {
            Line::Bad => false,
            Line::Segment { base, size, .. } => segment_outside(segments, base, size),
            Line::Partition { code, save, .. } => {
                partition_outside(segments, partitions, code, save)
            }
            Line::Right {
                partition,
                segment,
                ..
            } => (partitions as u32 <= partition) | (segments as u32 <= segment),
            Line::Flow { from, to } => (segments as u32 <= from) | (segments as u32 <= to),
            Line::Slot { partition, ticks } => {
                slot_outside(partitions, self.policy.slots, partition, ticks)
            }
        }
    }
}
