//! What a Take opened.
ghost use Rattle.std.specs.Prelude.{◌≡◌};
ghost use Rattle.service_lock.specs.Takes.{told_taken};

use sm_names::{CollectionId, Reply, Strength};

/// What a Take opened: a handle of this strength on each buffer of this set. Bit i of the set stands for the
/// collection's buffer with index i.
#[derive(Drop)]
pub struct TakenHandles {
    pub collection: CollectionId,
    pub strength: Strength,
    pub set: u64,
}

/// What the reply says that was taken: `None` where it is no reply of a Take that opened handles. Costs O(1).
pub fn taken_by(reply: &Reply) -> Option<TakenHandles>
    ensures { result ≡ told_taken reply.now }
{
    match *reply {
        Reply::Taken {
            collection,
            strength,
            set,
        } => Some(TakenHandles {
            collection,
            strength,
            set,
        }),
        _ => None,
    }
}
