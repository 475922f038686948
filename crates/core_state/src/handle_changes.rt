//! The handles that an event opens, drops or moves.
ghost use Rattle.std.specs.Prelude.{◌≡◌, ◌+◌, ◌<◌, ◌≤◌, OnOk, OnErr, true, false};
ghost use Rattle.sm_names.specs.Marks.{Called};
ghost use Rattle.buffer_holds.specs.Changes.{is_in_set_below};
ghost use Rattle.buffer_holds.specs.Counts.{Counts, HasPlaces, of, total};
ghost use Rattle.core_state.specs.Hands.{MayMove, MovesHandles, CanUndo, Opens, CanOpen, TidiesAfter, collects_handle, is_the, takes_handle_room};
ghost use Rattle.core_state.specs.State.{counts_of};

use buffer_holds::{HoldFault, Holds};
use sm_names::{BufferName, Call, ClientId, CollectionId, NoMemory, Reply, Strength, has_buffer};

// How many bits a set of buffers has.
pub(crate) const SET_BITS: u8 = 64;

/// Opens, drops or moves the handles of the call that was answered so.
///
/// `NoMemory` where there is no room for a handle more, or for what the receiver of one needs; then
/// no count changed. A handle that is dropped or collected needs no room. Costs two look-ups for
/// each handle at most.
#[inline(always)]
pub fn apply_handles(
    holds: &mut Holds,
    client: ClientId,
    call: &Call,
    reply: &Reply,
) -> Result<(), NoMemory>
    requires may { MayMove holds.old client call.now reply.now }
    requires places { HasPlaces holds.old }
    ensures ok { OnOk result (MovesHandles holds.old holds.new (Called client reply.now call.now)) }
    ensures room { OnOk result (CanUndo holds.new client call.now reply.now) }
    ensures err { OnErr result (counts_of holds.new ≡ counts_of holds.old) }
    ensures why { OnErr result (takes_handle_room call.now reply.now ≡ true) }
    ensures places { HasPlaces holds.new }
    ensures limit { holds.new.limit ≡ holds.old.limit }
{
    match *call {
        Call::Take(_) => {
            if let Reply::Taken {
                collection,
                strength,
                set,
            } = *reply
            {
                return open_all(holds, client, collection, strength, set);
            }
        }
        Call::DupHandle(buffer, strength) => {
            if let Reply::Done = *reply {
                return open_one(holds, client, buffer, strength);
            }
        }
        Call::DropHandle(buffer, strength) => {
            if let Reply::Done = *reply {
                holds.sub(client, buffer, strength);
            }
        }
        Call::GiveHandle(buffer, strength, _) => {
            if let Reply::Done = *reply {
                holds.reserve_landing()?;
                holds.lift(client, buffer, strength);
            }
        }
        Call::Collect => {
            if let Reply::CollectedHandle { buffer, strength } = *reply {
                let Ok(()) = holds.land(client, buffer, strength) else {
                    unreachable!();
                };
            }
        }
        _ => {}
    }
    Ok(())
}

/// Undoes what `apply_handles` did, unless a handle was collected. Takes no memory, and costs as much.
pub fn undo_handles(holds: &mut Holds, client: ClientId, call: Call, reply: Reply)
    requires undo { CanUndo holds.old client call reply }
    requires stands { collects_handle call reply ≡ false }
    requires places { HasPlaces holds.old }
    ensures counts { (before : Counts) →
        MovesHandles before holds.old (Called client reply call) →
        counts_of holds.new ≡ counts_of before }
    ensures places { HasPlaces holds.new }
    ensures limit { holds.new.limit ≡ holds.old.limit }
{
    match call {
        Call::Take(_) => {
            if let Reply::Taken {
                collection,
                strength,
                set,
            } = reply
            {
                close_below(holds, client, collection, strength, set, SET_BITS);
            }
        }
        Call::DupHandle(buffer, strength) => {
            if let Reply::Done = reply {
                close(holds, client, buffer, strength);
            }
        }
        Call::DropHandle(buffer, strength) => {
            if let Reply::Done = reply {
                let _ = holds.add(client, buffer, strength);
            }
        }
        Call::GiveHandle(buffer, strength, _) => {
            if let Reply::Done = reply {
                let Ok(()) = holds.land(client, buffer, strength) else {
                    unreachable!();
                };
            }
        }
        _ => {}
    }
}

/// Takes back the room of the handles that the call dropped or gave, if the client has no other handle of
/// the buffer and strength. No count changes. Takes no memory. Costs two look-ups.
#[inline(always)]
pub fn tidy_up(holds: &mut Holds, client: ClientId, call: &Call)
    ensures tidied { TidiesAfter holds.old holds.new client call.now }
    ensures counts { counts_of holds.new ≡ counts_of holds.old }
    ensures places { HasPlaces holds.old → HasPlaces holds.new }
    ensures limit { holds.new.limit ≡ holds.old.limit }
{
    match *call {
        Call::DropHandle(buffer, strength) | Call::GiveHandle(buffer, strength, _) => {
            holds.tidy(client, buffer, strength);
        }
        _ => {}
    }
}

// Opens a handle on each buffer of the set.
fn open_all(
    holds: &mut Holds,
    client: ClientId,
    collection: CollectionId,
    strength: Strength,
    set: u64,
) -> Result<(), NoMemory>
    requires { CanOpen holds.old collection strength set }
    ensures ok { OnOk result (Opens holds.old holds.new client
        (is_in_set_below collection strength set SET_BITS)) }
    ensures places { HasPlaces holds.old → HasPlaces holds.new }
    ensures err { OnErr result (counts_of holds.new ≡ counts_of holds.old) }
    ensures limit { holds.new.limit ≡ holds.old.limit }
{
    match holds.add_set(client, collection, strength, set) {
        Ok(()) => Ok(()),
        Err(end) => {
            close_below(holds, client, collection, strength, set, end);
            Err(NoMemory)
        }
    }
}

// Closes a handle on each buffer of the set whose index is below the end.
fn close_below(
    holds: &mut Holds,
    client: ClientId,
    collection: CollectionId,
    strength: Strength,
    set: u64,
    mut end: u8,
)
    requires { end ≤ SET_BITS }
    ensures counts { (before : Counts) →
        Opens before holds.old client (is_in_set_below collection strength set end) →
        counts_of holds.new ≡ counts_of before }
    ensures places { HasPlaces holds.old → HasPlaces holds.new }
    ensures limit { holds.new.limit ≡ holds.old.limit }
{
    while end > 0 {
        end -= 1;
        close_at(holds, client, collection, strength, set, end);
    }
}

// Closes a handle on the buffer with this index, if the set has it.
fn close_at(
    holds: &mut Holds,
    client: ClientId,
    collection: CollectionId,
    strength: Strength,
    set: u64,
    index: u8,
)
    requires { index < SET_BITS }
    ensures counts { (before : Counts) →
        Opens before holds.old client (is_in_set_below collection strength set (index + 1)) →
        Opens before holds.new client (is_in_set_below collection strength set index) }
    ensures places { HasPlaces holds.old → HasPlaces holds.new }
    ensures limit { holds.new.limit ≡ holds.old.limit }
{
    if has_buffer(set, index) {
        close(holds, client, BufferName { collection, index }, strength);
    }
}

// Opens a handle.
#[inline(always)]
fn open_one(
    holds: &mut Holds,
    client: ClientId,
    buffer: BufferName,
    strength: Strength,
) -> Result<(), NoMemory>
    requires { total holds.old buffer strength < holds.old.limit }
    ensures ok { OnOk result (Opens holds.old holds.new client (is_the buffer strength)) }
    ensures places { HasPlaces holds.old → HasPlaces holds.new }
    ensures err { OnErr result (holds.new ≡ holds.old) }
    ensures limit { holds.new.limit ≡ holds.old.limit }
{
    match holds.add(client, buffer, strength) {
        Ok(()) => Ok(()),
        Err(HoldFault::NoMemory) => Err(NoMemory),
        Err(HoldFault::TooMany) => unreachable!(),
    }
}

// Closes one of the client's handles, and takes back its room where it was the last one.
fn close(holds: &mut Holds, client: ClientId, buffer: BufferName, strength: Strength)
    ensures closed { 0 < of holds.old client buffer strength →
        Opens holds.new holds.old client (is_the buffer strength) }
    ensures places { HasPlaces holds.old → HasPlaces holds.new }
    ensures limit { holds.new.limit ≡ holds.old.limit }
{
    holds.sub(client, buffer, strength);
    holds.tidy(client, buffer, strength);
}
