// Memory by numbers: what is done to the save bytes from `from` on, or to a segment from `start` on, is done through
// that part alone, which is lent.
// No struct holds `memory` and `from`: it would need memory's length beside them, and a store changes memory next to the save bytes too (d).
#![tactic(auto)]

mod width;

ghost use Rattle.std.specs.Prelude.{◌≡◌, ℕ, List, true, ◌+◌, ◌≤◌, ◌<◌, length};
ghost use Rattle.std.proofs.lemmas.List.Edits.{sets};
ghost use Rattle.policy.specs.Limits.{save_size};
ghost use Rattle.machine.specs.Bytes.{part, digits};
ghost use Rattle.machine.specs.Save.{register, counter, due};
ghost use Rattle.machine.specs.Faults.{faults};
ghost use Rattle.machine.specs.Decode.{last_opcode, fetched};
ghost use Rattle.machine.specs.Local.{takes_interrupt, interrupted, is_ready, is_able};
ghost use Rattle.savearea.specs.Next.{is_plain, Hands};
ghost use Rattle.parts.specs.Parts.{saved_at, with_saved, is_beside, loaded_from, stored_to};

use machine::{Fault, Instr};
use octets::{entry_or, get_half, get_word_in};
use policy::SAVE_SIZE;
use savearea::Next;
use savearea::layout::{COUNTER, STATE, State};
pub use width::{Byte, Width, Word};

pub fn fault(memory: &mut [u8], from: usize, f: Fault)
    requires { from + save_size ≤ length memory.old }
    ensures { memory.new
        ≡ with_saved memory.old from (faults (saved_at memory.old from) f) }
{
    let to = from + SAVE_SIZE;
    savearea::fault(&mut memory[from..to], f);
}

fn get_register(memory: &[u8], from: usize, r: u32) -> u32
    requires { (from + save_size ≤ length memory.now) × (r < 8) }
    ensures { result ≡ register (saved_at memory.now from) r }
{
    let to = from + SAVE_SIZE;
    get_word_in(&memory[from..to], r)
}

pub fn get_counter(memory: &[u8], from: usize) -> u16
    requires { from + save_size ≤ length memory.now }
    ensures { result ≡ counter (saved_at memory.now from) }
{
    let to = from + SAVE_SIZE;
    get_half(&memory[from..to], COUNTER)
}

pub fn is_ready(memory: &[u8], from: usize) -> bool
    requires { from + save_size ≤ length memory.now }
    ensures { result ≡ is_ready (saved_at memory.now from) }
{
    let to = from + SAVE_SIZE;
    entry_or(&memory[from..to], STATE, 0) == State::Ready as u8
}

pub fn takes_interrupt(memory: &[u8], from: usize) -> bool
    requires { from + save_size ≤ length memory.now }
    ensures { result ≡ takes_interrupt (saved_at memory.now from) }
{
    let to = from + SAVE_SIZE;
    savearea::takes_interrupt(&memory[from..to])
}

// Whether a tick would do something.
pub fn is_able(memory: &[u8], from: usize) -> bool
    requires { from + save_size ≤ length memory.now }
    ensures { result ≡ is_able (saved_at memory.now from) }
{
    if takes_interrupt(memory, from) {
        return true;
    }
    is_ready(memory, from)
}

pub fn interrupt(memory: &mut [u8], from: usize, pc: u16)
    requires save_inside { from + save_size ≤ length memory.old }
    requires line_due { 0 < due (saved_at memory.old from) }
    requires counter_is { pc ≡ counter (saved_at memory.old from) }
    ensures { memory.new
        ≡ with_saved memory.old from (interrupted (saved_at memory.old from)) }
{
    let to = from + SAVE_SIZE;
    savearea::interrupt(&mut memory[from..to], pc);
}

// The instruction at a place of the code segment.
pub fn fetch(memory: &[u8], start: usize, size: usize, at: u16) -> Option<Instr>
    requires { start + size ≤ length memory.now }
    ensures { result ≡ fetched last_opcode (part memory.now start size) at }
{
    let end = start + size;
    decoder::fetch(&memory[start..end], at)
}

// A number's lowest bytes, as many as the width, stored into the segment that is lent.
fn store_at<W: Width>(memory: &mut [u8], start: usize, size: usize, at: u32, n: u32)
    requires { (start + size ≤ length memory.old) × (at + W.BYTES ≤ size) }
    ensures { memory.new ≡ sets memory.old (start + at) (digits W.BYTES n) }
{
    let end = start + size;
    W::write(&mut memory[start..end], at, n);
}

// Register a takes the bytes from the offset that register b has on. A load and a store are handed the counter, and hand on
// what the next tick is handed. A load leaves lines and state, so the next tick asks for them after a fault alone. The offset
// is widened before the width is added, so that the sum cannot come round.
pub fn load_from<W: Width>(
    memory: &mut [u8],
    from: usize,
    start: usize,
    size: usize,
    a: u32,
    b: u32,
    pc: u16,
) -> Next
    requires parts_inside { (from + save_size ≤ length memory.old) × (start + size ≤ length memory.old) }
    requires counter_and_registers { (pc ≡ counter (saved_at memory.old from)) × (a < 8) × (b < 8) }
    ensures loaded { memory.new
        ≡ with_saved memory.old from
        (loaded_from W.BYTES (saved_at memory.old from) (part memory.old start size) size a b) }
    ensures hands { Hands result (saved_at memory.old from) (saved_at memory.new from) }
{
    let width = usize::from(W::BYTES);
    let at = get_register(memory, from, b);
    if size < (at as usize) + width {
        fault(memory, from, Fault::OffsetOver);
        return Next::Asks(pc);
    }
    let end = start + size;
    let x = W::read(&memory[start..end], at);
    let to = from + SAVE_SIZE;
    Next::Steps(savearea::put_result(&mut memory[from..to], a, x, pc))
}

// What a store of so many bytes from a place on hands to the next tick: the counter that it put, where none of them is a
// save byte, for lines and state are then as they were; else the counter that is read back, and the next tick asks.
fn after_store(memory: &[u8], from: usize, at: usize, width: usize, next: u16) -> Next
    requires parts_inside { (from + save_size ≤ length memory.now) × (at + width ≤ length memory.now) }
    requires put_beside { is_beside from at width ≡ true → next ≡ counter (saved_at memory.now from) }
    ensures { (before : List ℕ) → (is_beside from at width ≡ true → is_plain (saved_at memory.now from) ≡ is_plain before)
        → Hands result before (saved_at memory.now from) }
{
    let to = from + SAVE_SIZE;
    if (at + width <= from) | (to <= at) {
        return Next::Steps(next);
    }
    Next::Asks(get_counter(memory, from))
}

// Those bytes take register a. The save bytes are put first, as the definition has it; nothing is read between.
pub fn store_to<W: Width>(
    memory: &mut [u8],
    from: usize,
    start: usize,
    size: usize,
    a: u32,
    b: u32,
    pc: u16,
) -> Next
    requires parts_inside { (from + save_size ≤ length memory.old) × (start + size ≤ length memory.old) }
    requires counter_and_registers { (pc ≡ counter (saved_at memory.old from)) × (a < 8) × (b < 8) }
    ensures stored { memory.new ≡ stored_to W.BYTES memory.old from start size a b }
    ensures hands { Hands result (saved_at memory.old from) (saved_at memory.new from) }
{
    let width = usize::from(W::BYTES);
    let at = get_register(memory, from, b);
    let x = get_register(memory, from, a);
    if (at as usize) + width <= size {
        let to = from + SAVE_SIZE;
        let next = savearea::advance(&mut memory[from..to], pc);
        store_at::<W>(memory, start, size, at, x);
        after_store(memory, from, start + at as usize, width, next)
    } else {
        fault(memory, from, Fault::OffsetOver);
        Next::Asks(pc)
    }
}
