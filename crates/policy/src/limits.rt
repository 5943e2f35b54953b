// Document 01's numbers, as the code tests them. The definitions have them in specs/Limits.antt.

// The most segments, partitions and slots.
pub const SEGMENTS: u8 = 32;

pub const PARTITIONS: u8 = 8;

pub const SLOTS: u8 = 32;
// The bytes of memory, and the most of a policy text.
pub const MEMORY: usize = 16384;

pub const TEXT: usize = MEMORY;
// The most bytes of a segment, and the bytes of a save segment.
pub const LONGEST_SEGMENT: u32 = 4096;

pub const SAVE_SIZE: usize = 44;
// The most ticks of a slot.
pub const MOST_TICKS: u32 = 1000;
