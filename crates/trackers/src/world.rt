//! What trackers look at.
ghost use Rattle.std.specs.Prelude.{◌≡◌};
ghost use Rattle.sm_names.specs.Trackers.{World as Seen, holds};

use sm_names::{BufferName, CollectionId, Condition, NodeKey};

/// What trackers look at. It must still know a node when the event at which the node became gone is
/// swept; of one that was forgotten since, `gone` and `allocated` are true.
pub trait World {
    ghost seen: { Self → Seen };

    /// Whether the node is gone.
    fn gone(&self, key: NodeKey) -> bool
        ensures { result ≡ (seen self.now).gone key };

    /// Whether the node's unit was given its buffers.
    fn allocated(&self, key: NodeKey) -> bool
        ensures { result ≡ (seen self.now).allocated key };

    /// How many buffers of the collection are not home.
    fn left(&self, collection: CollectionId) -> usize
        ensures { result ≡ (seen self.now).left collection };

    /// Whether the buffer is doomed: nothing strong holds it, nor ever will again.
    fn doomed(&self, buffer: BufferName) -> bool
        ensures { result ≡ (seen self.now).doomed buffer };
}

/// Whether what is waited for holds. After an event that did no more than attach a tracker, this is
/// the test whether a sweep is needed: two looks at the world at most.
pub fn holds_in<W: World>(condition: Condition, world: &W) -> bool
    ensures { result ≡ holds (W.seen world.now) condition }
{
    match condition {
        Condition::Node(key) => world.gone(key),
        Condition::Lifetime(key, collection, most) => {
            if world.allocated(key) {
                world.left(collection) <= most as usize
            } else {
                world.gone(key)
            }
        }
        Condition::Weak(buffer) => world.doomed(buffer),
    }
}
