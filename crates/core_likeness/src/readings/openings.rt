//! Which handles an entry may have brought.
ghost use Rattle.std.specs.Prelude.{◌≡◌};
ghost use Rattle.core_likeness.specs.Told.{opening_by};

use sm_names::{BufferName, Call, CollectionId, Reply};

/// On which buffers an entry brought its client handles.
#[derive(Clone, Copy)]
pub enum Opening {
    /// On none.
    Nothing,
    /// On the buffers of this set of the collection.
    Set(CollectionId, u64),
    /// On this buffer.
    Buffer(BufferName),
}

/// On which buffers this call, answered so, brought the caller handles. Takes O(1) time.
pub fn opening_of(call: Call, reply: Reply) -> Opening
    ensures { result ≡ opening_by call reply }
{
    match call {
        Call::Take(_) => match reply {
            Reply::Taken {
                collection,
                set,
                ..
            } => Opening::Set(collection, set),
            _ => Opening::Nothing,
        },
        Call::DupHandle(buffer, _) => match reply {
            Reply::Done => Opening::Buffer(buffer),
            _ => Opening::Nothing,
        },
        Call::Collect => match reply {
            Reply::CollectedHandle { buffer, .. } => Opening::Buffer(buffer),
            _ => Opening::Nothing,
        },
        _ => Opening::Nothing,
    }
}
