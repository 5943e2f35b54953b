// What the readers find, each with where it ends.
use crate::line::{Cursor, Line};

// What digits write, modulo 4,294,967,296, where they end, and the byte there, 0 where the text ends: it ends no field, so one
// comparison with the byte that is to end a field tells both, and an Option would tell no more (d).
#[derive(Clone, Copy, PartialEq, Eq, Debug)]
pub struct Digits {
    pub value: u32,
    pub end: usize,
    pub stop: u8,
}

// The digits of a number: what they write, where they begin, how many there may be, and where they end.
#[derive(Clone, Copy, PartialEq, Eq, Debug)]
pub struct NumberDigits {
    pub value: u32,
    pub from: usize,
    pub most: usize,
    pub end: usize,
}

// What a line says, and where the place is left.
#[derive(Clone, Copy, PartialEq, Eq, Debug)]
pub struct LineRead {
    pub line: Line,
    pub next: Cursor,
}
