//! Which step a collection forces next.
ghost use Rattle.std.specs.Prelude.{◌≡◌, ℕ, ◌++◌, [], List, nat_lt, true, IfOk, IfSome};
ghost use Rattle.std.specs.List.{list_any};
ghost use Rattle.std.specs.Option.{option_map, option_map_or};
ghost use Rattle.sm_names.specs.declared.keys.Interval.{Interval};
ghost use Rattle.sm_names.specs.declared.keys.Strength.{Strength as Grade};
ghost use Rattle.sm_names.specs.Forced.{forced};
ghost use Rattle.sm_names.specs.Handles.{names};
ghost use Rattle.buffer_holds.specs.Counts.{total};
ghost use Rattle.forest_store.specs.Decisions.{decided, first_step, later_step, mark_of, IsStep};
ghost use Rattle.forest_store.specs.Forest.{pages_in};
ghost use Rattle.forest_store.specs.Scenes.{are_distinct, given_few, name_of, IsSound};
ghost use Rattle.forest_store.specs.Snapshots.{collection_of};
ghost use Rattle.forced_marks.specs.Steps.{told, IsSized};
ghost use Rattle.forest_store.specs.Settling.{standing};

use crate::abandonment::abandoned;
use crate::decision::PendingStep;
use crate::initial_allocation::{first_wants, waiting_root};
use crate::logical_allocation::{failure, next_head};
use crate::subtree_end::deserted_head;
use buffer_holds::Holds;
use forest_store::{Node, Snapshot};
use sm_names::{BufferName, Buffers, Cause, CollectionId, NodeKey, Strength};
use std::alloc::{AllocError, Global};

/// The next step that the collection forces, if any: the first of these that applies. A collection
/// or an attached subtree ends, the buffers are abandoned, the root unit is allocated, or an
/// attached unit is.
///
/// `AllocError` where memory is refused. Costs O(n log n) for n nodes, and a look-up for each of
/// its buffers.
pub fn decide(scene: &Snapshot, holds: &Holds) -> Result<Option<PendingStep>, AllocError>
    requires { IsSound (collection_of scene.now) }
    ensures forced { IfOk result (λ step. (pool : ℕ) (others : List Interval) →
        forced pool (standing (total holds.now) others (collection_of scene.now))
        ≡ option_map (λ d. mark_of pool (pages_in (collection_of scene.now) ++ others) (told d))
        step) }
    ensures step { IfOk result (λ step.
        IfSome step (λ d. IsStep (collection_of scene.now) (told d))) }
    ensures sized { IfOk result (λ step. IfSome step IsSized) }
{
    let strong_open = is_strong_open(scene.id, scene.buffers, holds);
    let alloc = *scene.nodes.allocator();
    let step = choose(alloc, &scene.nodes, scene.buffers, strong_open)?;
    Ok(step)
}

/// Whether a strong handle is open on one of the collection's buffers, in a parcel or out of it.
fn is_strong_open(id: CollectionId, buffers: Option<Buffers>, holds: &Holds) -> bool
    requires { given_few buffers ≡ true }
    ensures { result ≡ list_any (λ b. nat_lt 0 (total holds.now b Grade.Strong))
        (option_map_or (λ b. names id b.count) buffers []) }
{
    match buffers {
        Some(given) => is_any_open(id, given.count as u8, holds),
        None => false,
    }
}

/// The same of this many buffers.
fn is_any_open(id: CollectionId, count: u8, holds: &Holds) -> bool
    ensures { result
        ≡ list_any (λ b. nat_lt 0 (total holds.now b Grade.Strong)) (names id count) }
{
    for index in 0..count {
        if is_open(id, index, holds) {
            return true;
        }
    }
    false
}

/// Whether a strong handle is open on this buffer.
fn is_open(collection: CollectionId, index: u8, holds: &Holds) -> bool
    ensures { result ≡ nat_lt 0 (total holds.now (name_of collection index) Grade.Strong) }
{
    holds.total(BufferName { collection, index }, Strength::Strong) > 0
}

/// The same by the nodes, what was given, and whether a strong handle is open.
fn choose(
    alloc: Global,
    nodes: &[Node],
    buffers: Option<Buffers>,
    strong_open: bool,
) -> Result<Option<PendingStep>, AllocError>
    requires { are_distinct nodes.now ≡ true }
    ensures value { IfOk result (λ step.
        option_map told step ≡ decided nodes.now buffers strong_open) }
    ensures sized { IfOk result (λ step. IfSome step IsSized) }
{
    let deserted = deserted_head(alloc, nodes)?;
    if let Some(top) = deserted {
        return Ok(Some(PendingStep::Ends(top)));
    }
    if let Some(root) = abandoned(nodes, strong_open) {
        return Ok(Some(PendingStep::Loses(root, Cause::NoStrong)));
    }
    if let Some(root) = waiting_root(nodes) {
        return Ok(Some(first_allocation(nodes, root.key)));
    }
    let Some(given) = buffers else {
        return Ok(None);
    };
    let next = next_head(alloc, nodes)?;
    match next {
        Some(head) => Ok(Some(later_allocation(nodes, head, given))),
        None => Ok(None),
    }
}

/// The outcome of the root unit's allocation, before the pool is asked.
fn first_allocation(nodes: &[Node], root: NodeKey) -> PendingStep
    ensures value { told result ≡ first_step nodes.now root }
    ensures sized { IsSized result }
{
    match first_wants(nodes, root) {
        Ok(wants) => PendingStep::Places(root, wants),
        Err(why) => PendingStep::Loses(root, Cause::Failed(why)),
    }
}

/// The outcome of the allocation of the attached unit with this head.
fn later_allocation(nodes: &[Node], head: NodeKey, given: Buffers) -> PendingStep
    ensures value { told result ≡ later_step nodes.now given head }
    ensures sized { IsSized result }
{
    match failure(nodes, head, given) {
        None => PendingStep::Allocates(head),
        Some(why) => PendingStep::Loses(head, Cause::Failed(why)),
    }
}
