//! Why a script was not reported on to its end.
ghost use Rattle.std.specs.Prelude.{◌≡◌, ◌++◌, None, OnOk};
ghost use Rattle.script_labels.specs.Names.{Names, act_in};
ghost use Rattle.script_labels.specs.Tables.{Keeps};
ghost use Rattle.report_io.specs.Reasons.{bad_text, unended_reason};
ghost use Rattle.report_io.specs.Faults.{GivesReason, HasReason, IsBadLine, IsFaultOf, fault_status, fault_text, is_silent, sought_name};

use crate::reasons::line_fault;
use script_labels::{LineStop, Tables};
use script_lines::{Part, WriteFault, push, push_parts};
use sm_names::NoMemory;
use std::alloc::{AllocError, Global};

/// What is sought in a script by its number.
#[derive(Clone, Copy)]
pub enum Sought {
    /// An event.
    Event,
    /// A line.
    Line,
    /// An event in which a node failed.
    Failure,
}

impl Sought {
    // What it is called.
    fn name(self) -> &'static str
        ensures { result.now ≡ sought_name self }
    {
        match self {
            Sought::Event => "event ",
            Sought::Line => "line ",
            Sought::Failure => "failure ",
        }
    }
}

/// Why a script was not reported on to its end.
#[derive(Drop)]
pub enum ReportFault {
    /// The reader failed.
    ReadFault,
    /// The script has more than `MOST_BYTES` bytes.
    TooLong,
    /// The writer failed, or took nothing.
    WriteFault(WriteFault),
    /// The line of this number, from 1, is the first bad one.
    BadLine {
        number: u64,
        /// What is wrong with it, in words.
        reason: Vec<u8>,
    },
    /// As many events were made as may be.
    HistoryFull,
    /// Memory was refused.
    NoMemory,
    /// The script has no such event, line or failure: it has fewer than this, or this is 0.
    Missing {
        sought: Sought,
        number: u64,
    },
}

impl ReportFault {
    /// The status that a program ends with on this fault: 1 where reading or writing failed, 2 where
    /// what is asked for is not there, 3 for a bad line, 4 where the history is full or memory was
    /// refused. Costs O(1).
    pub fn status(&self) -> u8
        ensures { result ≡ fault_status self.now }
    {
        match self {
            ReportFault::ReadFault | ReportFault::TooLong | ReportFault::WriteFault(_) => 1,
            ReportFault::Missing { .. } => 2,
            ReportFault::BadLine { .. } => 3,
            ReportFault::HistoryFull | ReportFault::NoMemory => 4,
        }
    }

    // Whether nothing is told of the fault: nobody reads any more what the program writes.
    pub(crate) fn is_silent(&self) -> bool
        ensures { result ≡ is_silent self.now }
    {
        match self {
            ReportFault::WriteFault(fault) => fault.is_reader_gone,
            _ => false,
        }
    }

    /// Appends the text of the fault, without an end of a line; a part of it where memory is
    /// refused. Costs O(n) for n bytes of text.
    pub fn push_text(&self, text: &mut Vec<u8>) -> Result<(), AllocError>
        ensures { OnOk result (text.new.items ≡ text.old.items ++ fault_text self.now) }
    {
        match self {
            ReportFault::ReadFault => push(text, "read fault"),
            ReportFault::TooLong => push(text, "the script is longer than 16777216 bytes"),
            ReportFault::WriteFault(_) => push(text, "write fault"),
            ReportFault::BadLine { number, reason } => {
                push_parts(
                    text,
                    &[
                        Part::Word("bad line "),
                        Part::Number(*number),
                        Part::Word(": "),
                        Part::Bytes(reason),
                    ],
                )
            }
            ReportFault::HistoryFull => push(text, "history full"),
            ReportFault::NoMemory => push(text, "no memory"),
            ReportFault::Missing { sought, number } => {
                push_parts(
                    text,
                    &[
                        Part::Word("there is no "),
                        Part::Word(sought.name()),
                        Part::Number(*number),
                    ],
                )
            }
        }
    }
}

/// The fault of the line of this number, which was not answered, where the labels of those before it
/// stand so. The fault of a bad line has its number and its reason, and each line that asks for nothing
/// has one. Costs O(n) for a line of n bytes, and a look-up of each label.
pub fn fault_of(
    alloc: Global,
    stop: LineStop,
    tables: &Tables,
    number: u64,
    line: &[u8],
) -> ReportFault
    ensures line { IsFaultOf number stop result }
    ensures reason { (names : Names) → Keeps tables.now names →
        HasReason (bad_text names line.now) result }
    ensures known { (names : Names) → Keeps tables.now names → act_in names line.now ≡ None →
        GivesReason names line.now result }
{
    match stop {
        LineStop::BadLine => {
            let mut reason = Vec::new(alloc);
            match push_reason(&mut reason, tables, line) {
                Ok(()) => ReportFault::BadLine { number, reason },
                Err(_) => ReportFault::NoMemory,
            }
        }
        LineStop::HistoryFull => ReportFault::HistoryFull,
        LineStop::NoMemory => ReportFault::NoMemory,
    }
}

// Appends why the line is bad, or that it is none of those there are, where no test of a line fails.
fn push_reason(text: &mut Vec<u8>, tables: &Tables, line: &[u8]) -> Result<(), AllocError>
    ensures { (names : Names) → Keeps tables.now names →
        OnOk result (text.new.items ≡ text.old.items ++ bad_text names line.now) }
{
    match line_fault(Some(tables), line) {
        Some(reason) => reason.push_text(text),
        None => push(text, "no such line"),
    }
}

/// The fault of the line of this number, for this reason. Costs O(n) for a reason of n bytes.
pub fn bad_line(alloc: Global, number: u64, words: &str) -> ReportFault
    ensures line { IsBadLine number result }
    ensures reason { HasReason words.now result }
{
    let mut reason = Vec::new(alloc);
    match push(&mut reason, words) {
        Ok(()) => ReportFault::BadLine { number, reason },
        Err(_) => ReportFault::NoMemory,
    }
}

/// The fault that the last line, the one of this number, has no end. Costs O(1).
pub fn unended(alloc: Global, number: u64) -> ReportFault
    ensures line { IsBadLine number result }
    ensures reason { HasReason unended_reason result }
{
    bad_line(alloc, number, "the last line lacks a newline")
}

impl From<AllocError> for ReportFault {
    ghost use Rattle.std.specs.Prelude.{◌≡◌};
    ghost use Rattle.report_io.specs.declared.fault.ReportFault.{ReportFault};

    ghost from_gives = { λ refused fault. fault ≡ ReportFault.NoMemory };

    fn from(_refused: AllocError) -> ReportFault {
        ReportFault::NoMemory
    }
}

impl From<NoMemory> for ReportFault {
    ghost use Rattle.std.specs.Prelude.{◌≡◌};
    ghost use Rattle.report_io.specs.declared.fault.ReportFault.{ReportFault};

    ghost from_gives = { λ refused fault. fault ≡ ReportFault.NoMemory };

    fn from(_refused: NoMemory) -> ReportFault {
        ReportFault::NoMemory
    }
}
