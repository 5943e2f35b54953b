// The answers as C has them: include/separation_kernel.h declares each.
use machine::Place;
use policy::Policy;

// struct sk_read_result
#[repr(C)]
#[derive(Clone, Copy)]
pub struct ReadResult {
    pub number: u32,
    pub line: u32,
    pub policy: Policy,
}

// struct sk_run_result
#[repr(C)]
#[derive(Clone, Copy)]
pub struct RunResult {
    pub number: u32,
    pub place: Place,
}

// struct sk_reach_result
#[repr(C)]
#[derive(Clone, Copy)]
pub struct ReachResult {
    pub number: u32,
    pub sources: [u32; 32],
}

// struct sk_answer
#[repr(C)]
#[derive(Clone, Copy)]
pub struct QuestionResult {
    pub number: u32,
    pub yes: u32,
}

// struct sk_sheet_result
#[repr(C)]
#[derive(Clone, Copy)]
pub struct SheetResult {
    pub number: u32,
    pub ticks: [u32; 8],
    pub silence: [u32; 8],
}
