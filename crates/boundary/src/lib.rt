// The kernel for programs in C: each function is a thin call, with the same equation and no `requires`.
// include/separation_kernel.h declares them. sk_read, sk_reach and sk_sheet make their answer themselves, as `answers` makes it: by a call of it the answer
// would be copied once more, which takes up to 432 bytes of stack (b).
#![tactic(auto)]

ghost use Rattle.std.specs.Prelude.{◌≡◌, cond};
ghost use Rattle.policy.specs.Limits.{single};
ghost use Rattle.policy.specs.Read.{read_of};
ghost use Rattle.policy.specs.Record.{tables_of};
ghost use Rattle.policy.specs.Sound.{sound_of};
ghost use Rattle.calls.specs.Under.{under_policy};
ghost use Rattle.calls.specs.Outcomes.{outcome_number};
ghost use Rattle.calls.specs.Start.{start_place, start_answer, after_start};
ghost use Rattle.calls.specs.Pend.{pend_outcome, after_pend};
ghost use Rattle.calls.specs.Run.{state_of, run_answer, after_run};
ghost use Rattle.answers.specs.Results.{Tells, run_result, reach_result, question_result, sheet_result};
ghost use Rattle.boundary.specs.Version.{version};

pub use answers::{QuestionResult, ReachResult, ReadResult, RunResult, SheetResult};
use calls::Refused;
use kernel::START;
use machine::Place;
use policy::{MEMORY, Policy};

// A program compares it with the header that it was compiled with.
#[unsafe(no_mangle)]
pub extern "C" fn sk_version() -> u32
    ensures { result ≡ version }
{
    3 * 65536 + 1
}

#[unsafe(no_mangle)]
pub extern "C" fn sk_read(text: &[u8]) -> ReadResult
    ensures { Tells result (read_of single text.now) }
{
    match reader::read(text) {
        Ok(policy) => ReadResult {
            number: 0,
            line: 0,
            policy,
        },
        Err(refusal) => ReadResult {
            number: refusal.number(),
            line: refusal.line(),
            policy: Policy::zeros(),
        },
    }
}

#[unsafe(no_mangle)]
pub extern "C" fn sk_sound(policy: Policy) -> u32
    ensures { result ≡ cond (sound_of single (tables_of policy)) 1 0 }
{
    u32::from(sound::sound(&policy))
}

// The three operations lend the record, and what is lent is copied first, 436 bytes. So each tests memory's length before it hands the record on: a call that 9
// refuses copies nothing.
fn started(policy: Policy, memory: &mut [u8]) -> RunResult
    ensures value { result ≡ run_result start_place (start_answer (under_policy policy) memory.old) }
    ensures place { result.place ≡ start_place }
    ensures memory_after { memory.new ≡ after_start (under_policy policy) memory.old }
{
    answers::start(&policy, memory)
}

#[tactic(auto, unfolding(calls::specs::Start::start_outcome, calls::specs::Start::start_answer, calls::specs::Start::after_start))]
#[unsafe(no_mangle)]
pub extern "C" fn sk_start(policy: Policy, memory: &mut [u8]) -> RunResult
    ensures value { result ≡ run_result start_place (start_answer (under_policy policy) memory.old) }
    ensures place { result.place ≡ start_place }
    ensures memory_after { memory.new ≡ after_start (under_policy policy) memory.old }
{
    if memory.len() != MEMORY {
        return RunResult {
            number: u32::from(Refused::WrongMemory),
            place: START,
        };
    }
    started(policy, memory)
}

fn pended(policy: Policy, memory: &mut [u8], partition: u32, line: u32) -> u32
    ensures value { result ≡ outcome_number (pend_outcome (under_policy policy) memory.old partition line) }
    ensures memory_after { memory.new ≡ after_pend (under_policy policy) memory.old partition line }
{
    answers::pend(&policy, memory, partition, line)
}

#[tactic(auto, unfolding(calls::specs::Pend::pend_outcome, calls::specs::Pend::after_pend))]
#[unsafe(no_mangle)]
pub extern "C" fn sk_pend(policy: Policy, memory: &mut [u8], partition: u32, line: u32) -> u32
    ensures value { result ≡ outcome_number (pend_outcome (under_policy policy) memory.old partition line) }
    ensures memory_after { memory.new ≡ after_pend (under_policy policy) memory.old partition line }
{
    if memory.len() != MEMORY {
        return u32::from(Refused::WrongMemory);
    }
    pended(policy, memory, partition, line)
}

fn ran(policy: Policy, memory: &mut [u8], place: Place, ticks: u32) -> RunResult
    ensures value { result ≡ run_result place (run_answer (under_policy policy) (state_of memory.old place) ticks) }
    ensures place { result.place ≡ (after_run (under_policy policy) (state_of memory.old place) ticks).place }
    ensures memory_after { memory.new ≡ (after_run (under_policy policy) (state_of memory.old place) ticks).memory }
{
    answers::run(&policy, memory, place, ticks)
}

#[tactic(auto, unfolding(calls::specs::Run::run_outcome, calls::specs::Run::run_answer, calls::specs::Run::after_run))]
#[unsafe(no_mangle)]
pub extern "C" fn sk_run(policy: Policy, memory: &mut [u8], place: Place, ticks: u32) -> RunResult
    ensures value { result ≡ run_result place (run_answer (under_policy policy) (state_of memory.old place) ticks) }
    ensures place { result.place ≡ (after_run (under_policy policy) (state_of memory.old place) ticks).place }
    ensures memory_after { memory.new ≡ (after_run (under_policy policy) (state_of memory.old place) ticks).memory }
{
    if memory.len() != MEMORY {
        return RunResult {
            number: u32::from(Refused::WrongMemory),
            place,
        };
    }
    ran(policy, memory, place, ticks)
}

#[unsafe(no_mangle)]
pub extern "C" fn sk_reach(policy: Policy) -> ReachResult
    ensures { result ≡ reach_result (under_policy policy) }
{
    match reach::reach(&policy) {
        Ok(sources) => ReachResult { number: 0, sources },
        Err(why) => ReachResult {
            number: u32::from(why),
            sources: [0; 32],
        },
    }
}

#[unsafe(no_mangle)]
pub extern "C" fn sk_can_reach(policy: Policy, from: u32, to: u32) -> QuestionResult
    ensures { result ≡ question_result (under_policy policy) from to }
{
    answers::query(&policy, from, to)
}

#[unsafe(no_mangle)]
pub extern "C" fn sk_sheet(policy: Policy) -> SheetResult
    ensures { result ≡ sheet_result (under_policy policy) }
{
    match sheet::sheet_of(&policy) {
        Ok(sheet) => {
            let ticks = sheet.ticks;
            let silence = sheet.silence;
            SheetResult {
                number: 0,
                ticks,
                silence,
            }
        }
        Err(why) => SheetResult {
            number: u32::from(why),
            ticks: [0; 8],
            silence: [0; 8],
        },
    }
}
