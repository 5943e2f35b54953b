// The policy record: who may read and write which segment, and the schedule. Unused entries are 0. Arrays with their counts beside them, as
// include/separation_kernel.h has them: this layout may not change.
#[repr(C)]
#[derive(Clone, Copy)]
pub struct Policy {
    pub segments: u8,
    pub partitions: u8,
    pub slots: u8,
    // 0. Without it this byte would be set by nobody, and two records of one text would differ by it.
    pub unused: u8,
    // Of each segment.
    pub base: [u16; 32],
    pub size: [u16; 32],
    // Of each partition: its code segment and its save segment.
    pub code: [u8; 8],
    pub save: [u8; 8],
    // Of each slot: its partition and its ticks.
    pub owner: [u8; 32],
    pub ticks: [u16; 32],
    // Of each partition, bit s: a right line gives r, or w, on segment s.
    pub reads: [u32; 8],
    pub writes: [u32; 8],
    // Of each segment t, bit s: a line "flow s t" stands.
    pub sources: [u32; 32],
}

impl Policy {
    ghost use Rattle.std.specs.Prelude.{◌≡◌};
    ghost use Rattle.policy.specs.Limits.{single};
    ghost use Rattle.policy.specs.Record.{tables_of};
    ghost use Rattle.policy.specs.Tables.{zeros};

    // The record before the first line, and that of a refused text.
    pub fn zeros() -> Policy
        ensures { tables_of result ≡ zeros single }
    {
        Policy {
            segments: 0,
            partitions: 0,
            slots: 0,
            unused: 0,
            base: [0; 32],
            size: [0; 32],
            code: [0; 8],
            save: [0; 8],
            owner: [0; 32],
            ticks: [0; 32],
            reads: [0; 8],
            writes: [0; 8],
            sources: [0; 32],
        }
    }
}

// Where a line stands in the order of lines: its kind, and its id or pair. Keys compare in this order. The kind is a number, since the definitions'
// order of kinds and the theorems on it (Kept) compare numbers.
#[derive(Clone, Copy, PartialEq, Eq, PartialOrd, Ord)]
pub struct Key {
    pub kind: u8,
    pub first: u32,
    pub second: u32,
}

// Why a text is refused, with the number of the line where one is named.
#[derive(Clone, Copy)]
pub enum Refusal {
    TooLong,
    Malformed(u32),
    OutOfOrder(u32),
    OutOfRange(u32),
    Clash(u32),
    Incomplete,
    CodeUnreadable,
    FlowMissing,
    StraySource,
}

impl Refusal {
    ghost use Rattle.std.specs.Prelude.{◌≡◌, Err};
    ghost use Rattle.policy.specs.Refusals.{line_number_of, number_of};

    pub fn number(self) -> u32
        ensures { result ≡ number_of (Err self) }
    {
        match self {
            Refusal::TooLong => 1,
            Refusal::Malformed(_) => 2,
            Refusal::OutOfOrder(_) => 3,
            Refusal::OutOfRange(_) => 4,
            Refusal::Clash(_) => 5,
            Refusal::Incomplete => 6,
            Refusal::CodeUnreadable => 7,
            Refusal::FlowMissing => 8,
            Refusal::StraySource => 16,
        }
    }

    // The line that it names, and 0 where it names none.
    pub fn line(self) -> u32
        ensures { result ≡ line_number_of (Err self) }
    {
        match self {
            Refusal::Malformed(line) => line,
            Refusal::OutOfOrder(line) => line,
            Refusal::OutOfRange(line) => line,
            Refusal::Clash(line) => line,
            _ => 0,
        }
    }
}

// Why a question about a policy is not answered.
#[derive(Clone, Copy)]
pub enum NoAnswer {
    Unsound,
    NoSegment,
}

impl From<NoAnswer> for u32 {
    ghost use Rattle.std.specs.Prelude.{◌≡◌};
    ghost use Rattle.policy.specs.Asked.{no_answer_number};

    ghost from_gives = { λ why number. number ≡ no_answer_number why };

    fn from(why: NoAnswer) -> u32 {
        match why {
            NoAnswer::Unsound => 10,
            NoAnswer::NoSegment => 15,
        }
    }
}
