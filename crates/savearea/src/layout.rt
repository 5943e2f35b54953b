// Where the fields of a save segment stand.
pub const COUNTER: u16 = 32;

pub const STATE: usize = 34;

pub const FAULT: usize = 35;

pub const PENDED: usize = 36;

pub const ENABLED: usize = 37;

pub const RETURN: u16 = 38;

pub const HANDLER: u16 = 40;

pub const IN_HANDLER: usize = 42;

// The register that takes the line of an interrupt.
pub const LINE: u32 = 7;

// What the state byte says of a partition; above 3 it is taken as halted, so what is read there stays a byte.
#[derive(Clone, Copy, PartialEq, Eq, Debug)]
pub enum State {
    Ready = 0,
    Halted = 1,
    Faulted = 2,
    Waiting = 3,
}
