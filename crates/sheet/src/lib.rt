// The schedule sheet: of each partition its ticks in one round and its longest silence. It answers for every record.
#![tactic(auto)]

mod answer;
mod longest;
mod own;

// Of each partition; 0 past the partitions.
#[derive(Clone, Copy)]
pub struct Sheet {
    pub ticks: [u32; 8],
    pub silence: [u32; 8],
}

pub use answer::sheet_of;
