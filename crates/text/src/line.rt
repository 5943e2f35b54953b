// The reader's place: a byte of the text, and the number of the line that it stands in, from 1.
#[derive(Clone, Copy, PartialEq, Eq, Debug)]
pub struct Cursor {
    pub at: usize,
    pub line: u32,
}

// What a whole line says: document 01's five kinds, and the line that refusal 2 is for.
// Bad is a case and no None: it is one of a text's lines, and the rules of a line in their order are said of it too (d).
// The mode is the record's byte for the letters, 1, 2 or 3: document 01 names the byte, and must-fail mode_four edits it (a).
#[derive(Clone, Copy, PartialEq, Eq, Debug)]
pub enum Line {
    Bad,
    Segment {
        id: u32,
        base: u32,
        size: u32,
    },
    Partition {
        id: u32,
        code: u32,
        save: u32,
    },
    Right {
        partition: u32,
        segment: u32,
        mode: u32,
    },
    Flow {
        from: u32,
        to: u32,
    },
    Slot {
        partition: u32,
        ticks: u32,
    },
}

// Which record word a field is.
#[derive(Clone, Copy, PartialEq, Eq, Debug)]
pub enum Kind {
    Segment,
    Partition,
    Right,
    Flow,
    Slot,
}
