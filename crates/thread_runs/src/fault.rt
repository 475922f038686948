//! Why a run of actors has no report.
ghost use Rattle.std.specs.Prelude.{◌≡◌};
ghost use Rattle.thread_runs.specs.Faults.{threads_fault_status};

use actor_scripts::ActorScriptFault;
use client_vanish::GatherFault;
use std::fmt;
use thiserror::Error;

/// Why a run of actors has no report.
#[derive(Clone, Copy, Debug, PartialEq, Eq, Error)]
pub enum ThreadsFault {
    /// The reader failed, or the script is too long.
    ReadFault,
    /// The writer failed, or took nothing.
    WriteFault,
    /// The line of this number, from 1, is the first bad one.
    BadLine(u64),
    /// As many events were made as may be.
    HistoryFull,
    /// Memory was refused.
    NoMemory,
    /// A thread was refused.
    NoThread,
    /// What the actors had at the end is not all that there is, or not what is on record.
    Gather(GatherFault),
}

impl ThreadsFault {
    /// The status that a program ends with on this fault: 1 where reading or writing failed, 3 for a
    /// bad line, 4 where the history is full, memory was refused or there was no thread, 5 where what
    /// was gathered is not the record's.
    pub fn status(self) -> u8
        ensures { result ≡ threads_fault_status self }
    {
        match self {
            ThreadsFault::ReadFault | ThreadsFault::WriteFault => 1,
            ThreadsFault::BadLine(_) => 3,
            ThreadsFault::HistoryFull | ThreadsFault::NoMemory | ThreadsFault::NoThread => 4,
            ThreadsFault::Gather(GatherFault::NoMemory) => 4,
            ThreadsFault::Gather(GatherFault::MissingClient(_)) => 5,
            ThreadsFault::Gather(GatherFault::OpenValues { .. }) => 5,
            ThreadsFault::Gather(GatherFault::RecordMismatch(_)) => 5,
        }
    }
}

impl From<ActorScriptFault> for ThreadsFault {
    ghost use Rattle.std.specs.Prelude.{◌≡◌};
    ghost use Rattle.thread_runs.specs.Faults.{list_fault};

    ghost from_gives = { λ fault told. told ≡ list_fault fault };

    fn from(fault: ActorScriptFault) -> ThreadsFault {
        match fault {
            ActorScriptFault::ReadFault => ThreadsFault::ReadFault,
            ActorScriptFault::BadLine(number) => ThreadsFault::BadLine(number),
            ActorScriptFault::NoMemory => ThreadsFault::NoMemory,
        }
    }
}

impl From<GatherFault> for ThreadsFault {
    ghost use Rattle.std.specs.Prelude.{◌≡◌};
    ghost use Rattle.thread_runs.specs.Faults.{gather_fault};

    ghost from_gives = { λ fault told. told ≡ gather_fault fault };

    // Refused memory is reported as such.
    fn from(fault: GatherFault) -> ThreadsFault {
        match fault {
            GatherFault::NoMemory => ThreadsFault::NoMemory,
            GatherFault::MissingClient(client) => {
                ThreadsFault::Gather(GatherFault::MissingClient(client))
            }
            GatherFault::OpenValues { strong, weak } => {
                ThreadsFault::Gather(GatherFault::OpenValues { strong, weak })
            }
            GatherFault::RecordMismatch(event) => {
                ThreadsFault::Gather(GatherFault::RecordMismatch(event))
            }
        }
    }
}

impl fmt::Display for ThreadsFault {
    ghost use Rattle.std.specs.Prelude.{Some};
    ghost use Rattle.thread_runs.specs.Faults.{threads_fault_text};

    ghost output = { λ fault. Some (threads_fault_text fault) };

    fn fmt<W: fmt::Write>(&self, f: &mut fmt::Formatter<W>) -> fmt::Result {
        match self {
            ThreadsFault::ReadFault => write!(f, "read fault"),
            ThreadsFault::WriteFault => write!(f, "write fault"),
            ThreadsFault::BadLine(number) => write!(f, "bad line {number}"),
            ThreadsFault::HistoryFull => write!(f, "history full"),
            ThreadsFault::NoMemory => write!(f, "no memory"),
            ThreadsFault::NoThread => write!(f, "no thread"),
            ThreadsFault::Gather(GatherFault::NoMemory) => write!(f, "no memory"),
            ThreadsFault::Gather(GatherFault::MissingClient(client)) => {
                write!(f, "gather: missing client {client}")
            }
            ThreadsFault::Gather(GatherFault::OpenValues { strong, weak }) => {
                write!(f, "gather: open values {strong} {weak}")
            }
            ThreadsFault::Gather(GatherFault::RecordMismatch(event)) => {
                write!(f, "gather: record differs at {event}")
            }
        }
    }
}
