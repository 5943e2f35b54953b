// What each instruction does to the bytes of a save segment, lent as `&mut [u8]`: all of it but for loads and stores. Each
// is handed the counter, and hands back the counter after it; the bytes hold it too.
#![tactic(auto)]

ghost use Rattle.std.specs.Prelude.{◌≡◌, ◌+◌, ◌%◌, ◌<◌, ◌≤◌, length};
ghost use Rattle.policy.specs.Limits.{save_size};
ghost use Rattle.machine.specs.Save.{counter};
ghost use Rattle.machine.specs.Local.{jumps, waits, comes_back, acts_on};
ghost use Rattle.savearea.specs.Named.{Named};
ghost use Rattle.savearea.specs.Next.{Hands};

use machine::{Fault, Instr};
use octets::{get_half, get_word_in, put, put_half};
use savearea::layout::{COUNTER, ENABLED, HANDLER, IN_HANDLER, RETURN, STATE, State};
use savearea::{Next, advance, fault, in_handler, put_result};

#[tactic(auto, unfolding(machine::specs::Local::jumps), using(savearea::proofs::Laws::Counters::counter_put))]
fn jump(s: &mut [u8], a: u32, n: u32, pc: u16) -> u16
    requires { (pc ≡ counter s.old) × (save_size ≤ length s.old) × (a < 8) }
    ensures { (s.new ≡ jumps s.old a n) × (result ≡ counter s.new) }
{
    if get_word_in(s, a) == 0 {
        advance(s, pc)
    } else {
        put_half(s, COUNTER, n);
        (n % 65536) as u16
    }
}

#[tactic(auto, unfolding(machine::specs::Local::waits), using(savearea::proofs::Laws::Counters::counter_behind))]
fn wait(s: &mut [u8], pc: u16) -> u16
    requires { (pc ≡ counter s.old) × (save_size ≤ length s.old) }
    ensures { (s.new ≡ waits s.old) × (result ≡ counter s.new) }
{
    if in_handler(s) {
        fault(s, Fault::WrongHandler);
        pc
    } else {
        let next = advance(s, pc);
        put(s, STATE, State::Waiting as u8);
        next
    }
}

fn back(s: &mut [u8], pc: u16) -> u16
    requires { (pc ≡ counter s.old) × (save_size ≤ length s.old) }
    ensures { (s.new ≡ comes_back s.old) × (result ≡ counter s.new) }
{
    if in_handler(s) {
        let to = get_half(s, RETURN);
        put_half(s, COUNTER, to as u32);
        put(s, IN_HANDLER, 0);
        to
    } else {
        fault(s, Fault::WrongHandler);
        pc
    }
}

// One instruction at a count of ticks; a load or a store, which are lent more than these bytes, changes nothing here.
// The next tick asks where lines, handler or state may have changed. A match, since an instruction is a case with its operands
// by the rules (a).
#[tactic(auto, unfolding(machine::specs::Local::acts_on))]
pub fn act(s: &mut [u8], count: u32, pc: u16, i: Instr) -> Next
    requires { (pc ≡ counter s.old) × (save_size ≤ length s.old) × Named i }
    ensures { (s.new ≡ acts_on s.old count i) × Hands result s.old s.new }
{
    match i {
        Instr::Halt => {
            put(s, STATE, State::Halted as u8);
            Next::Asks(pc)
        }
        Instr::Set(a, n) => Next::Steps(put_result(s, a, n, pc)),
        Instr::Add(a, b, c) => {
            let x = get_word_in(s, b).wrapping_add(get_word_in(s, c));
            Next::Steps(put_result(s, a, x, pc))
        }
        Instr::Sub(a, b, c) => {
            let x = get_word_in(s, b).wrapping_sub(get_word_in(s, c));
            Next::Steps(put_result(s, a, x, pc))
        }
        Instr::And(a, b, c) => {
            let x = get_word_in(s, b) & get_word_in(s, c);
            Next::Steps(put_result(s, a, x, pc))
        }
        Instr::Xor(a, b, c) => {
            let x = get_word_in(s, b) ^ get_word_in(s, c);
            Next::Steps(put_result(s, a, x, pc))
        }
        Instr::Shift(a, b, c) => {
            let x = get_word_in(s, b) >> (get_word_in(s, c) % 32);
            Next::Steps(put_result(s, a, x, pc))
        }
        Instr::Load(_, _, _) => Next::Asks(pc),
        Instr::Store(_, _, _) => Next::Asks(pc),
        Instr::Jump(a, n) => Next::Steps(jump(s, a, n, pc)),
        Instr::Wait => Next::Asks(wait(s, pc)),
        Instr::Listen(a, n) => {
            put(s, ENABLED, a);
            put_half(s, HANDLER, n);
            Next::Asks(advance(s, pc))
        }
        Instr::Back => Next::Asks(back(s, pc)),
        Instr::LoadWord(_, _, _) => Next::Asks(pc),
        Instr::StoreWord(_, _, _) => Next::Asks(pc),
        Instr::Count(a) => Next::Steps(put_result(s, a, count, pc)),
    }
}
