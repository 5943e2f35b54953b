// A step of the counter, a result, a fault.
ghost use Rattle.std.specs.Prelude.{◌≡◌, ◌+◌, ◌≤◌, ◌<◌, length};
ghost use Rattle.policy.specs.Limits.{save_size};
ghost use Rattle.machine.specs.Save.{counter, in_handler};
ghost use Rattle.machine.specs.Faults.{faults};
ghost use Rattle.machine.specs.Local.{advanced, resulted};
ghost use Rattle.savearea.specs.Next.{counter_in};

use crate::layout::{COUNTER, FAULT, IN_HANDLER, STATE, State};
use machine::Fault;
use octets::{entry_or, put, put_half, put_word_in};

pub fn in_handler(s: &[u8]) -> bool
    ensures { result ≡ in_handler s.now }
{
    entry_or(s, IN_HANDLER, 0) != 0
}

// The counter is handed in, and handed back, so that a tick need not read it: what it is worth stands in the save bytes too.
// A slice with `save_size ≤ length s` as a clause, and no `&mut [u8; 44]`, which asks more of callers: it promises on longer slices too (a).
pub fn advance(s: &mut [u8], pc: u16) -> u16
    requires { (pc ≡ counter s.old) × (save_size ≤ length s.old) }
    ensures { (s.new ≡ advanced s.old) × (result ≡ counter s.new) }
{
    let n = pc as u32 + 4;
    put_half(s, COUNTER, n);
    (n % 65536) as u16
}

pub fn put_result(s: &mut [u8], a: u32, x: u32, pc: u16) -> u16
    requires { (pc ≡ counter s.old) × (save_size ≤ length s.old) × (a < 8) }
    ensures { (s.new ≡ resulted s.old a x) × (result ≡ counter s.new) }
{
    put_word_in(s, a, x);
    advance(s, pc)
}

// What an instruction hands to the next tick: the counter, and whether that steps without asking for lines and state.
#[derive(Clone, Copy, PartialEq, Eq, Debug)]
pub enum Next {
    Steps(u16),
    Asks(u16),
}

impl Next {
    pub fn counter(self) -> u16
        ensures { result ≡ counter_in self }
    {
        match self {
            Next::Steps(pc) => pc,
            Next::Asks(pc) => pc,
        }
    }
}

pub fn fault(s: &mut [u8], f: Fault)
    ensures { s.new ≡ faults s.old f }
{
    put(s, STATE, State::Faulted as u8);
    put(s, FAULT, u8::from(f));
}
