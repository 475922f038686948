//! Why a script of actors was not read.

/// Why a script of actors was not read.
#[derive(Clone, Copy, Debug, PartialEq, Eq)]
pub enum ActorScriptFault {
    /// The reader failed, or the script is too long.
    ReadFault,
    /// The line of this number, from 1, is the first bad one.
    BadLine(u64),
    /// Memory was refused.
    NoMemory,
}
