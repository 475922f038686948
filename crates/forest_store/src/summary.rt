//! The sizes of a collection.
use sm_names::Buffers;

/// A collection at a glance.
#[derive(Clone, Copy, PartialEq, Eq)]
pub struct Summary {
    /// How many of its nodes are kept.
    pub nodes: usize,
    /// What it was given.
    pub buffers: Option<Buffers>,
    /// How many of its buffers hold their pages.
    pub held: usize,
}
