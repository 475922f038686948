//! What a run of actors is asked for.
use script_lines::Pages;
use sm_names::Limits;
use std::alloc::Global;

/// What a run of actors writes at its end.
#[derive(Clone, Copy)]
pub enum Output {
    /// The report.
    Report,
    /// The record as a transcript, and then the lines of the report, each behind `# `.
    Transcript,
}

/// How many times more a patient actor makes a step at most: it is made at most 100,000 times.
pub const MOST_REPEATS: u64 = 99_999;

/// The pages of the pool, what is written, and how patient the actors are.
#[derive(Clone, Copy)]
pub struct Job {
    /// The size of the pool.
    pub pages: Pages,
    /// How many times more a step is made at most while nothing is there for it.
    pub repeats: u64,
    /// What is written once all actors have ended.
    pub output: Output,
}

/// Where the threads and the memory of a run come from.
#[derive(Clone, Copy)]
pub struct RunHost<'a, R> {
    pub rt: &'a R,
    pub alloc: Global,
}

/// What a run is made with: the seed of what is hashed, the job, and the limits.
#[derive(Clone, Copy)]
pub(crate) struct RunSetting {
    pub(crate) seed: [u8; 16],
    pub(crate) job: Job,
    pub(crate) limits: Limits,
}
