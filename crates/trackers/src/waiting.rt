//! A tracker that waits.
use sm_names::{CollectionId, Condition, TrackerId};

/// A tracker that has not fired.
#[derive(Clone, Copy)]
pub struct Waiting {
    /// The number of the event that attaches it.
    pub id: TrackerId,
    /// The collection that its condition concerns, under which it stands in the index.
    pub collection: CollectionId,
    /// What it waits for.
    pub condition: Condition,
}
