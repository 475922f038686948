//! Why a script stopped.
use report_io::ReportFault;
use std::fmt;
use thiserror::Error;

/// Why a script stopped.
#[derive(Clone, Copy, Debug, PartialEq, Eq, Error)]
pub enum ScriptFault {
    /// The reader failed, or the script is too long.
    ReadFault,
    /// The writer failed, or took nothing.
    WriteFault,
    /// The line of this number, from 1, is the first bad one.
    BadLine(u64),
    /// As many events were made as the limit allows.
    HistoryFull,
    /// Memory was refused.
    NoMemory,
}

impl From<ReportFault> for ScriptFault {
    ghost use Rattle.std.specs.Prelude.{◌≡◌};
    ghost use Rattle.sm_script.specs.Faults.{script_fault};

    ghost from_gives = { λ told fault. fault ≡ script_fault told };

    fn from(told: ReportFault) -> ScriptFault {
        match told {
            ReportFault::WriteFault(_) => ScriptFault::WriteFault,
            ReportFault::BadLine { number, .. } => ScriptFault::BadLine(number),
            ReportFault::HistoryFull => ScriptFault::HistoryFull,
            ReportFault::NoMemory => ScriptFault::NoMemory,
            ReportFault::ReadFault | ReportFault::TooLong | ReportFault::Missing { .. } => {
                ScriptFault::ReadFault
            }
        }
    }
}

impl fmt::Display for ScriptFault {
    ghost use Rattle.std.specs.Prelude.{Some};
    ghost use Rattle.sm_script.specs.Faults.{script_fault_text};

    ghost output = { λ fault. Some (script_fault_text fault) };

    fn fmt<W: fmt::Write>(&self, f: &mut fmt::Formatter<W>) -> fmt::Result {
        match self {
            ScriptFault::ReadFault => write!(f, "read fault"),
            ScriptFault::WriteFault => write!(f, "write fault"),
            ScriptFault::BadLine(number) => write!(f, "bad line {number}"),
            ScriptFault::HistoryFull => write!(f, "history full"),
            ScriptFault::NoMemory => write!(f, "no memory"),
        }
    }
}
