// One tick of a partition over memory and the arrays of a policy record, all lent: one that steps. A fetch or a load is
// lent one segment, a store that segment alone. The counter goes from tick to tick as a number: each is handed what the
// save bytes hold, stores the next one there and hands it back.
#![tactic(auto)]

mod loading;
mod reach;
mod seat;
mod storing;

ghost use Rattle.std.specs.Prelude.{◌≡◌, true, ◌+◌, ◌≤◌, length};
ghost use Rattle.machine.specs.Save.{counter};
ghost use Rattle.savearea.specs.Named.{NamedIn};
ghost use Rattle.savearea.specs.Next.{is_plain, Hands};
ghost use Rattle.parts.specs.Parts.{saved_at};
ghost use Rattle.tick.specs.At.{seat_at};
ghost use Rattle.tick.specs.Done.{obeyed, ticked};

use local::act;
use machine::{Fault, Instr};
use parts::{Byte, Word, fault, fetch};
use policy::SAVE_SIZE;
use savearea::Next;
pub use seat::Seat;

impl Seat<'_> {
    // A load and a store are lent a segment; every other instruction the save bytes alone.
    fn obey(&self, memory: &mut [u8], count: u32, pc: u16, d: Option<Instr>) -> Next
        requires whole { length memory.old ≡ self.now.whole }
        requires counter_and_registers { (pc ≡ counter (saved_at memory.old self.now.from)) × NamedIn d }
        ensures obeyed { memory.new ≡ obeyed (seat_at self.now) self.now.from memory.old count d }
        ensures hands { Hands result (saved_at memory.old self.now.from) (saved_at memory.new self.now.from) }
    {
        let Some(i) = d else {
            fault(memory, self.from, Fault::BadInstruction);
            return Next::Asks(pc);
        };
        match i {
            Instr::Load(a, b, c) => self.load::<Byte>(memory, a, b, c, pc),
            Instr::Store(a, b, c) => self.store::<Byte>(memory, a, b, c, pc),
            Instr::LoadWord(a, b, c) => self.load::<Word>(memory, a, b, c, pc),
            Instr::StoreWord(a, b, c) => self.store::<Word>(memory, a, b, c, pc),
            _ => {
                let to = self.from + SAVE_SIZE;
                act(&mut memory[self.from..to], count, pc, i)
            }
        }
    }

    // A tick at this count and with this counter: one that takes no interrupt, of a partition that is ready, with an
    // instruction at its counter.
    pub fn step(&self, memory: &mut [u8], count: u32, pc: u16) -> Next
        requires whole { length memory.old ≡ self.now.whole }
        requires counter_in_code { (pc ≡ counter (saved_at memory.old self.now.from)) × (pc + 4 ≤ self.now.room) }
        requires plain { is_plain (saved_at memory.old self.now.from) ≡ true }
        ensures ticked { memory.new
            ≡ ticked (seat_at self.now) self.now.from self.now.start self.now.room count memory.old }
        ensures hands { Hands result (saved_at memory.old self.now.from) (saved_at memory.new self.now.from) }
    {
        let d = fetch(memory, self.start, self.room, pc);
        self.obey(memory, count, pc, d)
    }
}
