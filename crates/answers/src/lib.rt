// What each call answers, refused or not, as its caller is given it: the number, 0 where it acts or answers, with the record, the place, the masks
// or the sheet beside it. Programs in C are given these, and so are the test programs.
#![tactic(auto)]

ghost use Rattle.std.specs.Prelude.{◌≡◌};
ghost use Rattle.policy.specs.Limits.{single};
ghost use Rattle.policy.specs.Read.{read_of};
ghost use Rattle.calls.specs.Under.{under_policy};
ghost use Rattle.calls.specs.Outcomes.{outcome_number};
ghost use Rattle.calls.specs.Start.{start_place, start_answer, after_start};
ghost use Rattle.calls.specs.Pend.{pend_outcome, after_pend};
ghost use Rattle.calls.specs.Run.{state_of, run_answer, after_run};
ghost use Rattle.answers.specs.Results.{Tells, run_result, reach_result, question_result, sheet_result};

mod results;

use calls::Refused;
use machine::Place;
use policy::Policy;
pub use results::{QuestionResult, ReachResult, ReadResult, RunResult, SheetResult};

// The record of a refused text is that of zeros.
pub fn read(text: &[u8]) -> ReadResult
    ensures { Tells result (read_of single text.now) }
{
    match reader::read(text) {
        Ok(policy) => ReadResult {
            number: 0,
            line: 0,
            policy,
        },
        Err(refusal) => ReadResult {
            number: refusal.number(),
            line: refusal.line(),
            policy: Policy::zeros(),
        },
    }
}

// With the place that a refused Start or Run returns.
fn run_result(answer: Result<Place, Refused>, kept: Place) -> RunResult
    ensures { result ≡ run_result kept answer }
{
    match answer {
        Ok(place) => RunResult { number: 0, place },
        Err(refused) => RunResult {
            number: u32::from(refused),
            place: kept,
        },
    }
}

// A refused Start returns slot 0 with 0 used, and the count 0.
pub fn start(policy: &Policy, memory: &mut [u8]) -> RunResult
    ensures value { result ≡ run_result start_place (start_answer (under_policy policy.now) memory.old) }
    ensures place { result.place ≡ start_place }
    ensures memory_after { memory.new ≡ after_start (under_policy policy.now) memory.old }
{
    run_result(kernel::start(policy, memory), kernel::START)
}

pub fn pend(policy: &Policy, memory: &mut [u8], partition: u32, line: u32) -> u32
    ensures value { result ≡ outcome_number (pend_outcome (under_policy policy.now) memory.old partition line) }
    ensures memory_after { memory.new ≡ after_pend (under_policy policy.now) memory.old partition line }
{
    match kernel::pend(policy, memory, partition, line) {
        Ok(()) => 0,
        Err(refused) => u32::from(refused),
    }
}

// A refused Run returns the place that it was given.
pub fn run(policy: &Policy, memory: &mut [u8], place: Place, ticks: u32) -> RunResult
    ensures value { result ≡ run_result place (run_answer (under_policy policy.now) (state_of memory.old place) ticks) }
    ensures place { result.place ≡ (after_run (under_policy policy.now) (state_of memory.old place) ticks).place }
    ensures memory_after { memory.new ≡ (after_run (under_policy policy.now) (state_of memory.old place) ticks).memory }
{
    run_result(kernel::run(policy, memory, place, ticks), place)
}

// Who can reach whom; no bit where there is no answer.
pub fn masks(policy: &Policy) -> ReachResult
    ensures { result ≡ reach_result (under_policy policy.now) }
{
    match reach::reach(policy) {
        Ok(sources) => ReachResult { number: 0, sources },
        Err(why) => ReachResult {
            number: u32::from(why),
            sources: [0; 32],
        },
    }
}

// Whether one segment can reach another; no, where there is no answer.
pub fn query(policy: &Policy, from: u32, to: u32) -> QuestionResult
    ensures { result ≡ question_result (under_policy policy.now) from to }
{
    match reach::can_reach(policy, from, to) {
        Ok(yes) => QuestionResult {
            number: 0,
            yes: u32::from(yes),
        },
        Err(why) => QuestionResult {
            number: u32::from(why),
            yes: 0,
        },
    }
}

// The schedule sheet; all zeros where there is none.
pub fn silences(policy: &Policy) -> SheetResult
    ensures { result ≡ sheet_result (under_policy policy.now) }
{
    match sheet::sheet_of(policy) {
        Ok(sheet) => {
            let ticks = sheet.ticks;
            let silence = sheet.silence;
            SheetResult {
                number: 0,
                ticks,
                silence,
            }
        }
        Err(why) => SheetResult {
            number: u32::from(why),
            ticks: [0; 8],
            silence: [0; 8],
        },
    }
}
