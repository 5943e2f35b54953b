// A stretch of a Run: ticks of one slot, and so of one partition. Those that step go in a loop of their own, which the
// compiler keeps small: it asks for lines and state only after an instruction that may have changed them, and leaves where
// the next tick is another than a step.
ghost use Rattle.std.specs.Prelude.{◌≡◌, ℕ, List, ◌+◌, ◌-◌, ◌<◌, ◌≤◌, true, length, get_or};
ghost use Rattle.policy.specs.Limits.{most_ticks};
ghost use Rattle.machine.specs.Save.{counter};
ghost use Rattle.machine.specs.Local.{is_able};
ghost use Rattle.machine.specs.Place.{counts, count_after};
ghost use Rattle.machine.specs.Tick as machine;
ghost use Rattle.savearea.specs.Next.{is_plain, Hands};
ghost use Rattle.parts.specs.Parts.{saved_at};
ghost use Rattle.tick.specs.Seat.{Seated};
ghost use Rattle.tick.specs.At.{seat_at};
ghost use Rattle.kernel.specs.Stretch.{ticked_for, ticked_of};

use machine::Fault;
use parts::{fault, get_counter, interrupt, is_able, is_ready, takes_interrupt};
use policy::Policy;
use savearea::Next;
use tick::Seat;

// Whether the next tick steps; what the last step handed on may say so.
fn goes_on(seat: &Seat<'_>, memory: &[u8], next: Next) -> bool
    requires whole { length memory.now ≡ seat.now.whole }
    ensures { (before : List ℕ) → is_plain before ≡ true → Hands next before (saved_at memory.now seat.now.from)
        → result ≡ is_plain (saved_at memory.now seat.now.from) }
{
    if let Next::Steps(_) = next {
        return true;
    }
    if takes_interrupt(memory, seat.from) {
        return false;
    }
    is_ready(memory, seat.from)
}

// Steps, at least one of n, with the count after all n. It answers how many of them are left, so it counts these down.
fn steps(seat: &Seat<'_>, memory: &mut [u8], end: u32, first: u16, n: u32) -> u32
    requires whole { length memory.old ≡ seat.now.whole }
    requires counter_in_code { (first ≡ counter (saved_at memory.old seat.now.from)) × (first + 4 ≤ seat.now.room) }
    requires plain { is_plain (saved_at memory.old seat.now.from) ≡ true }
    requires some_few { (0 < n) × (n ≤ most_ticks) }
    ensures fewer { result < n }
    ensures ticked { (count : ℕ) → count < counts → end ≡ count_after n count → memory.new
        ≡ ticked_for (seat_at seat.now) seat.now.from seat.now.start seat.now.room count (n - result) memory.old }
{
    // The last counter with an instruction, so that no turn adds to the counter before it is tested.
    let last = seat.room - 4;
    let mut pc = first;
    let mut left = n;
    while 0 < left {
        if last < pc as usize {
            return left;
        }
        // From the ticks left, so that the loop carries one number and not two. A slot has at most 1,000, so the remainder
        // is `left`; without it the compiler carries the count all the same.
        let at = end.wrapping_sub(left % 1024);
        let next = seat.step(memory, at, pc);
        pc = next.counter();
        left -= 1;
        if !goes_on(seat, memory, next) {
            return left;
        }
    }
    left
}

// The interrupt of a partition that is able, if it has one to take: a tick of n, at whichever count. It answers how many of
// them are left, and the next one steps.
fn take_interrupt(seat: &Seat<'_>, memory: &mut [u8], n: u32) -> u32
    requires whole { length memory.old ≡ seat.now.whole }
    requires able { (is_able (saved_at memory.old seat.now.from) ≡ true) × (0 < n) }
    ensures most { result ≤ n }
    ensures plain { is_plain (saved_at memory.new seat.now.from) ≡ true }
    ensures ticked { (S : machine.Seat) (start room count : ℕ) →
        memory.new ≡ ticked_for S seat.now.from start room count (n - result) memory.old }
{
    if takes_interrupt(memory, seat.from) {
        let pc = get_counter(memory, seat.from);
        interrupt(memory, seat.from, pc);
        return n - 1;
    }
    n
}

// Ticks of a partition that is ready, at least one of n: steps, or the fault of a counter that is over.
fn ready_ticks(seat: &Seat<'_>, memory: &mut [u8], end: u32, n: u32) -> u32
    requires whole { length memory.old ≡ seat.now.whole }
    requires plain { is_plain (saved_at memory.old seat.now.from) ≡ true }
    requires some_few { (0 < n) × (n ≤ most_ticks) }
    ensures fewer { result < n }
    ensures ticked { (count : ℕ) → count < counts → end ≡ count_after n count → memory.new
        ≡ ticked_for (seat_at seat.now) seat.now.from seat.now.start seat.now.room count (n - result) memory.old }
{
    let pc = get_counter(memory, seat.from);
    if seat.room < (pc as usize) + 4 {
        fault(memory, seat.from, Fault::CounterOver);
        return n - 1;
    }
    steps(seat, memory, end, pc, n)
}

// n ticks of a partition, the first at this count, where it is able. Where it is no longer able the ticks that are left do
// nothing, since that does not hang on the count. Each turn does some of those that are left, so no `for` counts them.
fn stretch_at(seat: &Seat<'_>, memory: &mut [u8], count: u32, n: u32)
    requires whole { length memory.old ≡ seat.now.whole }
    requires able { is_able (saved_at memory.old seat.now.from) ≡ true }
    requires few { n ≤ most_ticks }
    ensures { memory.new
        ≡ ticked_for (seat_at seat.now) seat.now.from seat.now.start seat.now.room count n memory.old }
{
    let end = count.wrapping_add(n);
    let mut left = n;
    while 0 < left {
        left = take_interrupt(seat, memory, left);
        if left == 0 {
            return;
        }
        left = ready_ticks(seat, memory, end, left);
        if left == 0 {
            return;
        }
        if !is_able(memory, seat.from) {
            return;
        }
    }
}

// The same of a partition of the record.
pub(crate) fn stretch(memory: &mut [u8], policy: &Policy, owner: usize, count: u32, n: u32)
    requires owner_there { owner < 8 }
    requires seated { Seated policy.now.base policy.now.size policy.now.segments (get_or policy.now.code owner 0)
        (get_or policy.now.save owner 0) (length memory.old) }
    requires able { is_able (saved_at memory.old (get_or policy.now.base (get_or policy.now.save owner 0) 0)) ≡ true }
    requires few { n ≤ most_ticks }
    ensures { memory.new ≡ ticked_of policy.now owner count n memory.old }
{
    let code = usize::from(policy.code[owner]);
    let save = usize::from(policy.save[owner]);
    let seat = Seat {
        base: &policy.base,
        size: &policy.size,
        segments: policy.segments,
        reads: u64::from(policy.reads[owner]),
        writes: u64::from(policy.writes[owner]),
        from: usize::from(policy.base[save]),
        start: usize::from(policy.base[code]),
        room: usize::from(policy.size[code]),
        whole: memory.len(),
    };
    stretch_at(&seat, memory, count, n);
}
