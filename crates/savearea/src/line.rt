// Whether a tick takes an interrupt, and the interrupt.
ghost use Rattle.std.specs.Prelude.{◌≡◌, ◌-◌, ◌<◌, ◌^◌};
ghost use Rattle.std.specs.Int.Bits.{bit_and};
ghost use Rattle.machine.specs.Save.{counter, due};
ghost use Rattle.machine.specs.Local.{takes_interrupt, lowest, interrupted};

use crate::layout::{COUNTER, ENABLED, HANDLER, IN_HANDLER, LINE, PENDED, RETURN, STATE, State};
use crate::step::in_handler;
use octets::{entry_or, get_half, put, put_half, put_word};

// With a line that is pended and enabled, outside a handler, ready or waiting. The lines come first: most ticks have
// none, and are asked no more; those in a handler are not asked for the state.
pub fn takes_interrupt(s: &[u8]) -> bool
    ensures { result ≡ takes_interrupt s.now }
{
    let lines = entry_or(s, PENDED, 0) & entry_or(s, ENABLED, 0);
    if lines == 0 {
        return false;
    }
    if in_handler(s) {
        return false;
    }
    let state = entry_or(s, STATE, 0);
    (state == State::Ready as u8) | (state == State::Waiting as u8)
}

#[derive(Clone, Copy)]
struct Taken {
    line: u32,
    pended: u8,
}

// The lowest line that is both pended and enabled, and the pended lines without it.
fn take_line(pended: u8, enabled: u8) -> Taken
    requires { 0 < bit_and pended enabled }
    ensures line_value { result.line ≡ lowest (bit_and pended enabled) }
    ensures pended_value { result.pended ≡ pended - 2 ^ lowest (bit_and pended enabled) }
{
    let lines = pended & enabled;
    let line = u8::trailing_zeros(lines);
    let bit = 1u8 << line;
    Taken {
        line,
        pended: pended - bit,
    }
}

// Every field is read before one is put; the counter is handed in, so that no tick reads it from the bytes.
pub fn interrupt(s: &mut [u8], pc: u16)
    requires { (0 < due s.old) × (pc ≡ counter s.old) }
    ensures { s.new ≡ interrupted s.old }
{
    let handler = get_half(s, HANDLER) as u32;
    let taken = take_line(entry_or(s, PENDED, 0), entry_or(s, ENABLED, 0));
    put(s, PENDED, taken.pended);
    put_word(s, LINE, taken.line);
    put_half(s, RETURN, pc as u32);
    put_half(s, COUNTER, handler);
    put(s, IN_HANDLER, 1);
    put(s, STATE, State::Ready as u8);
}
