// Changes to the policy record of a scenario, which reading its text made.
use policy::Policy;

// A field of the record by its number in tests/scenarios.py, an entry of it, and the value that this gets.
#[derive(Clone, Copy)]
pub(crate) struct Change {
    pub field: u32,
    pub index: usize,
    pub value: u32,
}

// An index past the end counts from the first entry on again.
fn set<T: Copy>(entries: &mut [T], index: usize, value: T) {
    let at = index.checked_rem(entries.len()).unwrap_or_default();
    if let Some(entry) = entries.get_mut(at) {
        *entry = value;
    }
}

impl Change {
    pub(crate) fn apply(&self, policy: &mut Policy) {
        let index = self.index;
        let value = self.value;
        let byte = (value % 256) as u8;
        let half = (value % 65536) as u16;
        // The numbers stay: an enum of the record's fields would have each of them twice more.
        match self.field {
            0 => policy.segments = byte,
            1 => policy.partitions = byte,
            2 => policy.slots = byte,
            3 => set(&mut policy.base, index, half),
            4 => set(&mut policy.size, index, half),
            5 => set(&mut policy.code, index, byte),
            6 => set(&mut policy.save, index, byte),
            7 => set(&mut policy.owner, index, byte),
            8 => set(&mut policy.ticks, index, half),
            9 => set(&mut policy.reads, index, value),
            10 => set(&mut policy.writes, index, value),
            11 => set(&mut policy.sources, index, value),
            _ => policy.unused = byte,
        }
    }
}
