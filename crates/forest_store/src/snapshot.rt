//! A copy of a collection.
use crate::node::Node;
use sm_names::{Buffers, CollectionId, HeldBuffer};

/// A collection: its kept nodes by birth, what it was given, and those of its buffers, by index, whose
/// pages were not given back.
#[derive(Drop)]
pub struct Snapshot {
    pub id: CollectionId,
    pub nodes: Vec<Node>,
    pub buffers: Option<Buffers>,
    pub held: Vec<HeldBuffer>,
}
