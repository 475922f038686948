//! Why a call did not succeed.
use sm_names::{Reply, StepFault};

/// Why a call did not succeed: it was made, and has another reply than the caller wants; or it was not
/// made.
#[derive(Clone, Copy, PartialEq, Eq)]
pub enum Why {
    /// The event was made, and this is its reply, which is no success.
    Reply(Reply),
    /// No event was made.
    Fault(StepFault),
}

/// A value that a call did not use up, and why.
pub struct Kept<V> {
    pub value: V,
    pub why: Why,
}
