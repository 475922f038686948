//! Claims on the outcomes of a script of actors.
use crate::label::Label;
use sm_names::{Failure, Misuse};

/// In which outcomes a fact is claimed.
#[derive(Clone, Copy, PartialEq, Eq)]
pub enum Often {
    /// In none.
    Never,
    /// In all.
    Always,
    /// In one at least.
    Sometimes,
}

/// The nodes or trackers that lines bind to this label: those of one client, if it is named.
#[derive(Clone, Copy)]
pub struct NodeName {
    pub client: Option<Label>,
    pub label: Label,
}

/// A cause of a failure, or several.
#[derive(Clone, Copy)]
pub enum SaidCause {
    /// The end was closed without a release.
    Lost,
    /// Nothing strong kept the buffers.
    NoStrong,
    /// A misuse: this one, or any.
    Misused(Option<Misuse>),
    /// A failed allocation: for this reason, or any.
    Failed(Option<Failure>),
}

/// What is said of a node.
#[derive(Clone, Copy)]
pub enum NodeFact {
    /// It fails, by any cause or such a one, through any node or such a one.
    Fails {
        cause: Option<SaidCause>,
        origin: Option<NodeName>,
    },
    /// It ends without a failure.
    Ends,
    /// It is live at the end.
    Lives,
    /// It is left, live or released, without buffers.
    Pending,
}

/// What is said of an outcome.
#[derive(Clone, Copy)]
pub enum Fact {
    /// Of a node.
    Node(NodeName, NodeFact),
    /// The client waits for ever.
    Waits(Label),
    /// The tracker fires.
    Fires(NodeName),
    /// So many pages are free.
    Free(u32),
}

/// A claim: a fact, and in which outcomes it is to be.
#[derive(Clone, Copy)]
pub struct Claim {
    pub often: Often,
    pub fact: Fact,
}
