//! Handles on several buffers of a collection at once.
ghost use Rattle.std.specs.Prelude.{◌≡◌, ◌<◌, ℕ, true, IfErr, IsOk, OnOk};
ghost use Rattle.std.specs.Int.{bit_at};
ghost use Rattle.buffer_holds.specs.Changes.{AddsSet};
ghost use Rattle.buffer_holds.specs.Counts.{has_handle_room, total};

use crate::holds::Holds;
use crate::kinds::{HandleKind, Hold};
use crate::names::{owner_of, slot_of};
use sm_names::{BufferName, ClientId, CollectionId, NoMemory, Strength};

impl Holds {
    /// Opens one more handle of this strength for the client on each buffer of the set: bit i stands for
    /// the buffer with the index i. On each of them fewer handles of the strength must be open than may be.
    ///
    /// An error is an index: memory was refused, those of the set below it were opened, and no other count
    /// changes. There is no error where the client has room on each buffer. Two look-ups for the set, since the counts of
    /// its buffers stand in one page. O(1) for each buffer up to the last one of the set.
    pub fn add_set(
        &mut self,
        client: ClientId,
        collection: CollectionId,
        strength: Strength,
        set: u64,
    ) -> Result<(), u8>
        requires { (index : ℕ) → bit_at set index ≡ 1 →
            total self.old (record { collection = collection; index = index }) strength
            < self.old.limit }
        ensures opened { OnOk result (AddsSet self.old self.new client collection strength set 64) }
        ensures below { IfErr result (λ end.
            AddsSet self.old self.new client collection strength set end) }
        ensures within { IfErr result (λ end. end < 64) }
        ensures room { ((index : ℕ) → bit_at set index ≡ 1 → has_handle_room self.old client
            (record { collection = collection; index = index }) strength ≡ true)
            → IsOk result }
    {
        if set == 0 {
            return Ok(());
        }
        let first = BufferName {
            collection,
            index: 0,
        };
        let kind = HandleKind {
            buffer: first,
            strength,
        };
        let owner = owner_of(Hold { client, kind });
        let slot = slot_of(kind);
        if set == 1 {
            return match self.gain(owner, slot, 1) {
                Ok(()) => Ok(()),
                Err(NoMemory) => Err(0),
            };
        }
        match self.gain(owner, slot, set) {
            Ok(()) => Ok(()),
            Err(NoMemory) => Err(0),
        }
    }
}
