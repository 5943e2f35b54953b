// The tick machine: its instructions, its faults and the schedule place, and in specs/ what a tick does. But for the
// numbers of the faults no code that runs: the crates above prove theirs against these definitions.
#![tactic(auto)]

ghost use Rattle.std.specs.Prelude.{◌≡◌};
ghost use Rattle.machine.specs.Faults.{fault_number};

// The highest line of a partition, and the most ticks of a Run.
pub const LAST_LINE: u32 = 7;

pub const MOST_TICKS_OF_RUN: u32 = 10000;

// The kinds of instruction, each with its operands: registers, a number, a segment. Operands of four bytes keep the
// compiler from packing an instruction into one number; the lines that a listen enables are a byte of the save segment.
#[derive(Clone, Copy, PartialEq, Eq, Debug)]
pub enum Instr {
    Halt,
    Set(u32, u32),
    Add(u32, u32, u32),
    Sub(u32, u32, u32),
    And(u32, u32, u32),
    Xor(u32, u32, u32),
    Shift(u32, u32, u32),
    Load(u32, u32, u32),
    Store(u32, u32, u32),
    Jump(u32, u32),
    Wait,
    Listen(u8, u32),
    Back,
    LoadWord(u32, u32, u32),
    StoreWord(u32, u32, u32),
    Count(u32),
}

// Why an instruction does not run.
#[derive(Clone, Copy, PartialEq, Eq, Debug)]
pub enum Fault {
    CounterOver,
    BadInstruction,
    NoRight,
    OffsetOver,
    WrongHandler,
}

impl From<Fault> for u8 {
    ghost from_gives = { λ f n. n ≡ fault_number f };

    fn from(f: Fault) -> u8 {
        match f {
            Fault::CounterOver => 1,
            Fault::BadInstruction => 2,
            Fault::NoRight => 3,
            Fault::OffsetOver => 4,
            Fault::WrongHandler => 5,
        }
    }
}

// Where the schedule stands: a slot, the ticks of it that are used, and the count of the ticks since Start, which comes
// round to 0.
#[repr(C)]
#[derive(Clone, Copy, PartialEq, Eq, Debug)]
pub struct Place {
    pub slot: u32,
    pub used: u32,
    pub count: u32,
}
