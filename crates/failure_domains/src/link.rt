//! What the walks ask of a node.
ghost use Rattle.std.specs.Prelude.{◌≡◌, Bool, false};

/// The link of a node to its parent.
pub trait Link {
    ghost blocks: { Self → Bool };

    /// Whether a failure of the node does not reach its parent, as of a node that is attached
    /// (`fuchsia.sysmem2.BufferCollection.AttachToken`) or dispensable
    /// (`fuchsia.sysmem2.BufferCollectionToken.SetDispensable`). It takes all below the node in any
    /// case. `fall` asks once for each node of its climb, and counts on O(1) time.
    fn blocks(&self) -> bool
        ensures { result ≡ blocks self.now };
}

/// Where a walk down ends.
pub trait WalkBound<N> {
    ghost stops: { Self → N → Bool };

    /// Whether a walk that reaches the node leaves out all below it. `walk_within` asks once for
    /// each node that it lists below its top, and counts on O(1) time.
    fn stops(&self, node: &N) -> bool
        ensures { result ≡ stops self.now node.now };
}

/// No end: the walk takes all that is below.
pub(crate) struct Unbounded;

impl<N> WalkBound<N> for Unbounded {
    ghost stops = { λ _ _. false };

    fn stops(&self, _node: &N) -> bool {
        false
    }
}
