// A load of any width: the right decides first, and then the offset. It asks the read mask alone.
ghost use Rattle.std.specs.Prelude.{◌≡◌, ◌<◌, length};
ghost use Rattle.machine.specs.Save.{counter};
ghost use Rattle.savearea.specs.Next.{Hands};
ghost use Rattle.parts.specs.Parts.{saved_at};
ghost use Rattle.tick.specs.At.{seat_at};
ghost use Rattle.tick.specs.Done.{loaded};

use crate::reach::{entry, may};
use crate::seat::Seat;
use machine::Fault;
use parts::{Width, fault, load_from};
use savearea::Next;

impl Seat<'_> {
    pub(crate) fn load<W: Width>(&self, memory: &mut [u8], a: u32, b: u32, c: u32, pc: u16) -> Next
        requires whole { length memory.old ≡ self.now.whole }
        requires counter_and_registers { (pc ≡ counter (saved_at memory.old self.now.from)) × (a < 8) × (b < 8) }
        ensures loaded { memory.new ≡ loaded (seat_at self.now) W.BYTES self.now.from memory.old a b c }
        ensures hands { Hands result (saved_at memory.old self.now.from) (saved_at memory.new self.now.from) }
    {
        if may(self.reads, self.segments, c) {
            load_from::<W>(
                memory,
                self.from,
                entry(self.base, c),
                entry(self.size, c),
                a,
                b,
                pc,
            )
        } else {
            fault(memory, self.from, Fault::NoRight);
            Next::Asks(pc)
        }
    }
}
