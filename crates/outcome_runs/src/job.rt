//! What a search through the orders of a script is asked for.

use explore_model::Waiting;
use outcome_texts::ClaimFault;
use std::alloc::Global;

/// What is searched, and what is written of it.
#[derive(Clone, Copy)]
pub struct SearchJob<'a> {
    /// How many pages the pool has.
    pub pages: u32,
    /// Which lines wait.
    pub waiting: Waiting,
    /// Each client vanishes once its steps are done.
    pub at_end: bool,
    /// Which clients may vanish at any point: labels with commas between them, or `all`; `None` where the script says it.
    pub vanish: Option<&'a str>,
    /// How many clients vanish at most before their steps are done.
    pub most: u64,
    /// The number of the outcome whose play is written, from 1; `None` where the report is.
    pub outcome: Option<u64>,
    /// How many states are met at most.
    pub states: u64,
    /// Every state is played again, so that it is known whether an outcome is missing.
    pub certifies: bool,
    /// The report is in lines for programs.
    pub lists: bool,
}

/// Where the memory of a search comes from, and who is told how far it is.
#[derive(Clone, Copy)]
pub struct SearchHost<'a, P> {
    pub alloc: Global,
    pub progress: &'a P,
}

/// Why a search that was to certify did not, by lines of the script.
#[derive(Clone, Copy)]
pub enum DoubtLine {
    /// Not all orders were gone through.
    Incomplete,
    /// To make each state again would cost more calls than a search of so many states may make.
    Costly,
    /// After so many calls that of this line leads to a state that was not met.
    Step { calls: u64, line: u64 },
    /// After so many calls the next one of a client that vanishes does.
    Leave { calls: u64 },
    /// An order of so many calls does not end as its outcome says.
    Outcome { calls: u64 },
}

/// How a search ended.
#[derive(Clone, Copy)]
pub enum Ending {
    /// All orders were gone through, and if it was asked for, no outcome is missing for sure.
    Whole,
    /// Not all orders were gone through. Nothing was written if the outcome that is asked for was not met.
    Part,
    /// The search was to certify and did not, for this reason.
    Unsure(DoubtLine),
    /// A claim does not hold; and the search was to certify and did not, if there is a reason.
    Broken(Option<DoubtLine>),
    /// All orders were gone through, and there is no outcome of the number that is asked for. Nothing was written.
    Missing,
    /// The clients that may vanish are asked for, and this is wrong with their list. Nothing was written.
    Unknown(ClaimFault),
    /// A play that was made again went on otherwise than before, which is a mistake of the program. Nothing was
    /// written.
    Unlike,
}
