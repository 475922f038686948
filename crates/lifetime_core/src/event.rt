//! The part of an event that may be refused memory: all of it is done, or nothing.
ghost use Rattle.std.specs.Prelude.{◌≡◌, ◌<◌, IfOk, IfSome, OnErr, None, length, map, true, false};
ghost use Rattle.std.specs.List.{All};
ghost use Rattle.sm_names.specs.Marks.{Called};
ghost use Rattle.trackers.specs.Table.{Cell};
ghost use Rattle.forest_store.specs.Forest.{IsPoolOf};
ghost use Rattle.buffer_holds.specs.Counts.{Counts, HasPlaces, total};
ghost use Rattle.core_state.specs.Hands.{CanUndo, MayMove, MovesHandles, collects_handle};
ghost use Rattle.core_state.specs.State.{Client as Row, counts_of};
ghost use Rattle.core_state.specs.Tasks.{AsksOnly, MayDo, TakesEffect, may_take_memory, takes_room};
ghost use Rattle.core_state.specs.Tasks.{with_key};
ghost use Rattle.core_state.specs.Whole.{NoBufferHome, Rise};

use crate::sweeping::{attach, detach};
use crate::task::make_change;
use alloc_event::Forest;
use buffer_holds::Holds;
use buffer_pool::Pool;
use core_state::clients::{JoinedClient, note_client};
use core_state::handle_changes::{apply_handles, tidy_up, undo_handles};
use core_state::task::EventTask;
use sm_names::{Call, ClientId, NoMemory, NodeKey, Reply};
use trackers::{Trackers, Waiting};

/// The data of a core that an event changes, except for the number of events.
#[derive(Drop)]
pub(crate) struct Contents {
    // The earliest first, so that their ids rise.
    pub(crate) clients: Vec<JoinedClient>,
    pub(crate) forest: Forest,
    pub(crate) pool: Pool,
    pub(crate) holds: Holds,
    pub(crate) trackers: Trackers,
}

// Undoes what `apply_handles` did, as `undo_handles` does. The copies are made here, so that a call that is not
// refused memory makes none.
#[inline(always)]
fn undo(holds: &mut Holds, client: ClientId, call: &Call, reply: &Reply)
    requires undo { CanUndo holds.old client call.now reply.now }
    requires stands { collects_handle call.now reply.now ≡ false }
    requires places { HasPlaces holds.old }
    ensures counts { (before : Counts) →
        MovesHandles before holds.old (Called client reply.now call.now) →
        counts_of holds.new ≡ counts_of before }
    ensures places { HasPlaces holds.new }
    ensures limit { holds.new.limit ≡ holds.old.limit }
{
    undo_handles(holds, client, *call, *reply);
}

/// Changes the contents as this call with this reply does, and answers the key of the new node, if there
/// is one. The firing of trackers and the removal of nodes come later.
///
/// `NoMemory` if memory is refused; then the contents are as they were, except for the order of the rows
/// of handles. An event takes no memory if it opens and gives nothing, makes no tracker, changes no
/// collection and admits no client. Costs what `Forest::settle` costs for one collection, and a few
/// look-ups.
#[inline(always)]
#[tactic(auto, using(core_state::proofs::handles::Standing::stands_tracked, core_state::proofs::handles::Standing::stands_worked, core_state::proofs::handles::Standing::stands_noted, core_state::proofs::handles::Standing::may_by_handles, core_state::proofs::handles::Standing::may_by_tracker, core_state::proofs::handles::Standing::may_by_work, core_state::proofs::handles::Standing::may_by_room))]
pub(crate) fn take_effect(
    contents: &mut Contents,
    client: ClientId,
    call: &Call,
    asked: &Reply,
    task: &Option<EventTask>,
    tracking: Option<Waiting>,
) -> Result<Option<NodeKey>, NoMemory>
    requires clients { Rise (map (λ (c : Row). c.id) contents.old.clients.items) }
    requires handles { MayMove contents.old.holds client call.now asked.now }
    requires places { HasPlaces contents.old.holds }
    requires may { IfSome task.now (MayDo contents.old.forest) }
    requires asks { AsksOnly call.now task.now }
    requires out { NoBufferHome (total contents.old.holds) contents.old.forest }
    requires pool { IsPoolOf contents.old.pool contents.old.forest }
    requires rising { IfSome tracking (λ t.
        All (λ (c : Cell). c.id < t.id) contents.old.trackers.cells) }
    requires room { IfSome tracking (λ t.
        length contents.old.trackers.unfired < contents.old.trackers.limit) }
    requires alone { takes_room call.now asked.now ≡ true → (task.now ≡ None) × (tracking ≡ None) }
    requires lands { collects_handle call.now asked.now ≡ true →
        (task.now ≡ None) × (tracking ≡ None) }
    ensures ok { IfOk result (λ key. TakesEffect contents.old.pool.size
        (record {
          clients = contents.old.clients.items;
          forest = contents.old.forest;
          holds = contents.old.holds;
          trackers = contents.old.trackers;
        })
        (record {
          clients = contents.new.clients.items;
          forest = contents.new.forest;
          holds = contents.new.holds;
          trackers = contents.new.trackers;
        })
        client call.now asked.now task.now tracking (with_key asked.now key)) }
    ensures err { OnErr result ((contents.new.clients.items ≡ contents.old.clients.items)
        × (contents.new.forest ≡ contents.old.forest) × (contents.new.pool ≡ contents.old.pool)
        × (counts_of contents.new.holds ≡ counts_of contents.old.holds)
        × (contents.new.trackers ≡ contents.old.trackers)) }
    ensures why { OnErr result (may_take_memory call.now asked.now task.now tracking ≡ true) }
    ensures pool { IsPoolOf contents.new.pool contents.new.forest }
    ensures size { contents.new.pool.size ≡ contents.old.pool.size }
    ensures limit { contents.new.holds.limit ≡ contents.old.holds.limit }
    ensures places { HasPlaces contents.new.holds }
{
    apply_handles(&mut contents.holds, client, call, asked)?;
    let Ok(()) = attach(&mut contents.trackers, tracking) else {
        undo(&mut contents.holds, client, call, asked);
        return Err(NoMemory);
    };
    let Ok(key) = make_change(
        &mut contents.forest,
        &mut contents.pool,
        &contents.holds,
        task,
        call,
    ) else {
        detach(&mut contents.trackers, &tracking);
        undo(&mut contents.holds, client, call, asked);
        return Err(NoMemory);
    };
    let Ok(()) = note_client(&mut contents.clients, client, call, asked) else {
        undo(&mut contents.holds, client, call, asked);
        return Err(NoMemory);
    };
    tidy_up(&mut contents.holds, client, call);
    Ok(key)
}
