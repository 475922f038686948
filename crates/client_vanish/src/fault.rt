//! Why parts were not gathered.
use sm_names::ClientId;
use std::fmt;
use thiserror::Error;

/// Why the parts of clients do not match the record. A part is what one client has at the end.
#[derive(Clone, Copy, Debug, PartialEq, Eq, Error)]
pub enum GatherFault {
    /// Memory was refused.
    NoMemory,
    /// This client joined, and has no part here. It is the first such client.
    MissingClient(ClientId),
    /// This many more handles of each strength are open than the parts have, those in parcels included.
    OpenValues { strong: u64, weak: u64 },
    /// A client's own list is not its part of the record; this is the first event where they differ.
    RecordMismatch(u64),
}

impl fmt::Display for GatherFault {
    ghost use Rattle.std.specs.Prelude.{Some};
    ghost use Rattle.client_vanish.specs.Faults.{gather_fault_text};

    ghost output = { λ fault. Some (gather_fault_text fault) };

    fn fmt<W: fmt::Write>(&self, f: &mut fmt::Formatter<W>) -> fmt::Result {
        match self {
            GatherFault::NoMemory => write!(f, "no memory"),
            GatherFault::MissingClient(client) => write!(f, "missing client {client}"),
            GatherFault::OpenValues { strong, weak } => write!(f, "open values {strong} {weak}"),
            GatherFault::RecordMismatch(event) => write!(f, "record differs at {event}"),
        }
    }
}
