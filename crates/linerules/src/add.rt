// What a line that no rule refuses adds to the draft. It is stored in place: a record that is handed by value to a function and back is copied for
// each line.
ghost use Rattle.std.specs.Prelude.{◌<◌, ◌≡◌, cond};
ghost use Rattle.bits.specs.Masks.{with_bit};
ghost use Rattle.text.specs.declared.line.Line.TheVariants.{Segment, Partition, Right, Flow, Slot};
ghost use Rattle.policy.specs.Draft.{added, after};
ghost use Rattle.policy.specs.Record.{tables_of};
ghost use Rattle.linerules.specs.Drafted.{draft_of, view_in};
ghost use Rattle.linerules.specs.Parts.{Fits};

use crate::draft::Draft;
use crate::order::key_of;
use bits::with_low_bit;
use text::Line;

// The mask with bit s, where a line gives it.
fn with_given(mask: u32, s: u32, given: bool) -> u32
    requires { s < 32 }
    ensures { result ≡ cond given (with_bit mask s) mask }
{
    if given { with_low_bit(mask, s) } else { mask }
}

impl Draft {
    #[tactic(auto, unfolding(policy::specs::Draft::added))]
    fn add_segment(&mut self, id: u32, base: u32, size: u32)
        requires next { id ≡ self.old.policy.segments }
        requires has_place { id < 32 }
        requires fits { (base < 65536) × (size < 65536) }
        ensures tables { tables_of self.new.policy ≡ added (tables_of self.old.policy) (Segment id base size) }
        ensures before { self.new.before ≡ self.old.before }
    {
        self.policy.base[id as usize] = base as u16;
        self.policy.size[id as usize] = size as u16;
        self.policy.segments = (id + 1) as u8;
        self.ended = self.ended.max(base + size);
    }

    #[tactic(auto, unfolding(policy::specs::Draft::added))]
    fn add_partition(&mut self, id: u32, code: u32, save: u32)
        requires next { id ≡ self.old.policy.partitions }
        requires has_place { id < 8 }
        requires fits { (code < 32) × (save < 32) }
        ensures tables { tables_of self.new.policy ≡ added (tables_of self.old.policy) (Partition id code save) }
        ensures before { self.new.before ≡ self.old.before }
    {
        self.policy.code[id as usize] = code as u8;
        self.policy.save[id as usize] = save as u8;
        self.policy.partitions = (id + 1) as u8;
        self.barred = with_low_bit(self.barred, save);
    }

    fn add_right(&mut self, partition: u32, segment: u32, mode: u32)
        requires has_place { (partition < 8) × (segment < 32) }
        ensures tables { tables_of self.new.policy ≡ added (tables_of self.old.policy) (Right partition segment mode) }
        ensures before { self.new.before ≡ self.old.before }
    {
        let p = partition as usize;
        let reads = (mode == 1) | (mode == 3);
        let writes = (mode == 2) | (mode == 3);
        self.policy.reads[p] = with_given(self.policy.reads[p], segment, reads);
        self.policy.writes[p] = with_given(self.policy.writes[p], segment, writes);
    }

    #[tactic(auto, unfolding(policy::specs::Draft::added))]
    fn add_flow(&mut self, from: u32, to: u32)
        requires has_place { (from < 32) × (to < 32) }
        ensures tables { tables_of self.new.policy ≡ added (tables_of self.old.policy) (Flow from to) }
        ensures before { self.new.before ≡ self.old.before }
    {
        let t = to as usize;
        self.policy.sources[t] = with_low_bit(self.policy.sources[t], from);
    }

    #[tactic(auto, unfolding(policy::specs::Draft::added))]
    fn add_slot(&mut self, partition: u32, ticks: u32)
        requires has_place { self.old.policy.slots < 32 }
        requires fits { (partition < 8) × (ticks < 65536) }
        ensures tables { tables_of self.new.policy ≡ added (tables_of self.old.policy) (Slot partition ticks) }
        ensures before { self.new.before ≡ self.old.before }
    {
        let slot = self.policy.slots;
        self.policy.owner[slot as usize] = partition as u8;
        self.policy.ticks[slot as usize] = ticks as u16;
        self.policy.slots = slot + 1;
    }

    #[tactic(auto, unfolding(policy::specs::Draft::added))]
    pub fn add(&mut self, line: Line)
        requires { Fits (view_in self.old) line }
        ensures { draft_of self.new ≡ after (draft_of self.old) line }
    {
        self.before = key_of(line);
        match line {
            Line::Bad => {}
            Line::Segment { id, base, size } => self.add_segment(id, base, size),
            Line::Partition { id, code, save } => self.add_partition(id, code, save),
            Line::Right {
                partition,
                segment,
                mode,
            } => self.add_right(partition, segment, mode),
            Line::Flow { from, to } => self.add_flow(from, to),
            Line::Slot { partition, ticks } => self.add_slot(partition, ticks),
        }
    }
}
