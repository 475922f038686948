//! A collection before an event, as far as facts need it.
ghost use Rattle.std.specs.Prelude.{◌≡◌, None, Some, IfOk, IfSome, if◌then◌else◌};
ghost use Rattle.sm_names.specs.Answers.{IsAnswer};
ghost use Rattle.sm_names.specs.declared.messages.Reply.{Reply};
ghost use Rattle.core_state.specs.Reads.{readings_of};
ghost use Rattle.forced_marks.specs.Marks.{forces_nothing};
ghost use Rattle.event_facts.specs.Events.{IsSnapshot, IsSetOf, changed_on, concerned_by, is_doomed_in};

use crate::pages::doomed_of;
use forced_marks::own_change::forces_nothing;
use forest_store::{Change, Snapshot};
use lifetime_core::Core;
use sm_names::{Call, ClientId, CollectionId, NoMemory};

/// A collection before an event.
#[derive(Drop)]
pub struct Before {
    pub copied: Snapshot,
    /// Those of its buffers that nothing strong kept, as a set.
    pub doomed: u64,
}

// The collection of which the call would change a node, or drop a handle, if it were made now, unless it
// would force nothing.
fn concerned(core: &Core, client: ClientId, call: &Call) -> Option<CollectionId>
    ensures { (reply : Reply) → IsAnswer core.now.limits (readings_of core.now) client call.now
        reply →
        result ≡ concerned_by core.now client call.now reply }
{
    if let Call::DropHandle(buffer, strength) = *call {
        if 0 < core.open_handles(client, buffer, strength) {
            return Some(buffer.collection);
        }
    }
    changed(core, client, call)
}

// The collection of which the call would change a node, unless that would force nothing.
fn changed(core: &Core, client: ClientId, call: &Call) -> Option<CollectionId>
    ensures { (reply : Reply) → IsAnswer core.now.limits (readings_of core.now) client call.now
        reply →
        result ≡ changed_on core.now client call.now reply }
{
    match core.change_of(client, call) {
        Some((id, change)) => unless_still(id, &change),
        None => None,
    }
}

// The collection with this id, unless the change to it forces nothing.
fn unless_still(id: CollectionId, change: &Change) -> Option<CollectionId>
    ensures { result ≡ (if forces_nothing change.now then None else Some id) }
{
    if forces_nothing(change) {
        None
    } else {
        Some(id)
    }
}

// That collection as it stands; `None` where there is none. Costs a copy, where there is one.
pub(crate) fn look(core: &Core, client: ClientId, call: &Call) -> Result<Option<Before>, NoMemory>
    ensures copied { IfOk result (λ before. (reply : Reply) →
        IsAnswer core.now.limits (readings_of core.now) client call.now reply →
        IsSnapshot core.now (concerned_by core.now client call.now reply) before) }
    ensures doomed { IfOk result (λ before. IfSome before (λ b. IsSetOf
        (is_doomed_in core.now.holds b.copied.id b.copied.nodes.items b.copied.buffers) b.doomed)) }
{
    match concerned(core, client, call) {
        Some(id) => look_if_kept(core, id),
        None => Ok(None),
    }
}

// The collection as it stands, if it is kept.
fn look_if_kept(core: &Core, id: CollectionId) -> Result<Option<Before>, NoMemory>
    ensures copied { IfOk result (λ before. IsSnapshot core.now (Some id) before) }
    ensures doomed { IfOk result (λ before. IfSome before (λ b. IsSetOf
        (is_doomed_in core.now.holds b.copied.id b.copied.nodes.items b.copied.buffers) b.doomed)) }
{
    match core.collection(id)? {
        Some(copied) => {
            let doomed = doomed_of(core, copied.id, &copied.nodes, copied.buffers);
            Ok(Some(Before { copied, doomed }))
        }
        None => Ok(None),
    }
}
