//! What a walk finds.
use sm_names::NodeKey;

/// What a failure takes, and how many visits found it.
#[derive(Drop)]
pub struct Fall {
    /// The nodes that the failure takes, each once: the highest first, then layer by layer.
    pub keys: Vec<NodeKey>,
    /// The steps to a parent, and the nodes taken from the list of those still to be walked.
    pub visits: u64,
}
