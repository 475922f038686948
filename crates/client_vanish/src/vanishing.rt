//! How a client vanishes.
ghost use Rattle.std.specs.Prelude.{◌≡◌, ◌+◌, ◌<◌, ◌≤◌, ◌↔◌, ◌++◌, [], length, map, vec_len, vec_capacity, MatchResult, IfOk, IfErr, IfSome, OnOk, is_ok, true};
ghost use Rattle.std.specs.List.{All};
ghost use Rattle.sm_names.specs.declared.outcomes.StepFault.{StepFault as Fault};
ghost use Rattle.client_vanish.specs.Vanishings.{AllHeldBy, Collection, Handle as Handed, IsBroken, IsGone, Token, held_in, owner_of, sorted, object_of, parcels_told};
ghost use Rattle.client_vanish.specs.Stacks.{CollectsFor, CollectsOne, GivesUp, GivesUpIf, GivesUpSome, HasRoomFor, IsRoom, kept_objects, top_first};

use crate::stack::{put, put_all, stack_collections, stack_ends, stack_handles, stack_tokens};
use crate::wreck::Wreck;
use client_ends::{Client, Held, Kept, ParcelContent, Why, memory_fault};
use service_lock::{Service, Setup, State};
use sm_names::{Reply, StepFault};
use std::alloc::Global;
use std::sync::Wait;
use std::sync::ledger::Ledger;

// The number of parcels that the reply to a Shut counts.
fn parcels_told(reply: &Reply) -> u64
    ensures { result ≡ parcels_told reply.now }
{
    match *reply {
        Reply::Shut(waiting) => waiting,
        _ => 0,
    }
}

// Lists with room for the objects that the client collects, and for all that it then has.
struct Room<E: Setup, S: Ledger, W: Ledger> {
    ends: Vec<ParcelContent<E, S, W>>,
    handles: Vec<ParcelContent<E, S, W>>,
    stack: Vec<ParcelContent<E, S, W>>,
}

// The most objects that there can be, unless the sum overflows.
fn most<E: Setup, S: Ledger, W: Ledger>(held: &Held<E, S, W>, waiting: usize) -> Option<usize>
    ensures { IfSome result (λ most. most ≡ vec_len held.now.tokens
        + vec_len held.now.collections + vec_len held.now.handles + waiting + waiting) }
{
    let ends = held.tokens.len().checked_add(held.collections.len())?;
    let all = ends.checked_add(held.handles.len())?;
    all.checked_add(waiting)?.checked_add(waiting)
}

// Makes this room, also in the lists of what the client holds.
fn make_room<E: Setup, S: Ledger, W: Ledger>(
    alloc: Global,
    state: &State<E, S, W>,
    held: &mut Held<E, S, W>,
    waiting: usize,
) -> Result<Room<E, S, W>, StepFault>
    ensures same { held_in held.new ≡ held_in held.old }
    ensures room { IfOk result (λ room. IsRoom room held.new waiting) }
    ensures full { IfErr result (λ f. (f ≡ Fault.HistoryFull)
        ↔ (state.now.limits.events ≤ length state.now.history)) }
{
    let Some(most) = most(held, waiting) else {
        return Err(memory_fault(state));
    };
    if held.tokens.reserve(waiting).is_err()
        || held.collections.reserve(waiting).is_err()
        || held.handles.reserve(waiting).is_err()
    {
        return Err(memory_fault(state));
    }
    let Ok(ends) = Vec::with_capacity(alloc, waiting) else {
        return Err(memory_fault(state));
    };
    let Ok(handles) = Vec::with_capacity(alloc, waiting) else {
        ends.destroy_empty();
        return Err(memory_fault(state));
    };
    match Vec::with_capacity(alloc, most) {
        Ok(stack) => Ok(Room {
            ends,
            handles,
            stack,
        }),
        Err(_) => {
            ends.destroy_empty();
            handles.destroy_empty();
            Err(memory_fault(state))
        }
    }
}

// Takes the lock, and makes this room.
fn room_for<E: Setup, S: Ledger, W: Ledger, R: Wait>(
    rt: &R,
    alloc: Global,
    service: &Service<E, S, W>,
    held: &mut Held<E, S, W>,
    waiting: usize,
) -> Result<Room<E, S, W>, StepFault>
    ensures same { held_in held.new ≡ held_in held.old }
    ensures room { IfOk result (λ room. IsRoom room held.new waiting) }
{
    let guard = service.lock(rt);
    make_room(alloc, guard.state(), held, waiting)
}

// Makes one Collect, and appends what it brings to the others.
fn collect_one<E: Setup, S: Ledger, W: Ledger, R: Wait>(
    rt: &R,
    service: &Service<E, S, W>,
    client: &mut Client<E, S, W>,
    ends: &mut Vec<ParcelContent<E, S, W>>,
    handles: &mut Vec<ParcelContent<E, S, W>>,
) -> Result<(), StepFault>
    requires ends { vec_len ends.old < vec_capacity ends.old }
    requires handles { vec_len handles.old < vec_capacity handles.old }
    ensures made { MatchResult result
        (λ _. CollectsOne client.old client.new (map object_of ends.old.items)
        (map object_of ends.new.items) (map object_of handles.old.items)
        (map object_of handles.new.items))
        (λ _. (client.new ≡ client.old) × (ends.new.items ≡ ends.old.items)
        × (handles.new.items ≡ handles.old.items)) }
    ensures ends { (vec_capacity ends.new ≡ vec_capacity ends.old)
        × (vec_len ends.new ≤ vec_len ends.old + 1) }
    ensures handles { (vec_capacity handles.new ≡ vec_capacity handles.old)
        × (vec_len handles.new ≤ vec_len handles.old + 1) }
{
    match client.collect(rt, service) {
        Ok(Some(ParcelContent::Handle(handle))) => {
            handles.push_reserved(ParcelContent::Handle(handle));
            Ok(())
        }
        Ok(Some(end)) => {
            ends.push_reserved(end);
            Ok(())
        }
        Ok(None) => Ok(()),
        Err(Why::Reply(_)) => Ok(()),
        Err(Why::Fault(fault)) => Err(fault),
    }
}

// Makes this many Collects.
fn collect_all<E: Setup, S: Ledger, W: Ledger, R: Wait>(
    rt: &R,
    service: &Service<E, S, W>,
    client: &mut Client<E, S, W>,
    ends: &mut Vec<ParcelContent<E, S, W>>,
    handles: &mut Vec<ParcelContent<E, S, W>>,
    waiting: usize,
) -> Result<(), StepFault>
    requires ends { (ends.old.items ≡ []) × (waiting ≤ vec_capacity ends.old) }
    requires handles { (handles.old.items ≡ []) × (waiting ≤ vec_capacity handles.old) }
    ensures made { CollectsFor (is_ok result) waiting client.old client.new
        (map object_of ends.new.items) (map object_of handles.new.items) }
    ensures ends { vec_len ends.new ≤ waiting }
    ensures handles { vec_len handles.new ≤ waiting }
{
    let mut left = waiting;
    while left > 0 {
        collect_one(rt, service, client, ends, handles)?;
        left -= 1;
    }
    Ok(())
}

// Makes the call that gives up the object, which comes back if the answer is not Done.
fn give_up<E: Setup, S: Ledger, W: Ledger, R: Wait>(
    rt: &R,
    service: &Service<E, S, W>,
    client: &mut Client<E, S, W>,
    object: ParcelContent<E, S, W>,
) -> Result<Option<ParcelContent<E, S, W>>, (ParcelContent<E, S, W>, StepFault)>
    requires { owner_of (object_of object) ≡ client.old.id }
    ensures { MatchResult result
        (λ kept. GivesUp client.old client.new (object_of object) (kept_objects kept))
        (λ e. (e.0 ≡ object) × (client.new ≡ client.old)) }
{
    let (object, why) = match object {
        ParcelContent::Token(token) => match token.close(rt, service, client) {
            Ok(()) => return Ok(None),
            Err(Kept { value, why }) => (ParcelContent::Token(value), why),
        },
        ParcelContent::Collection(collection) => match collection.close(rt, service, client) {
            Ok(()) => return Ok(None),
            Err(Kept { value, why }) => (ParcelContent::Collection(value), why),
        },
        ParcelContent::Handle(handle) => match handle.drop_handle(rt, service, client) {
            Ok(()) => return Ok(None),
            Err(Kept { value, why }) => (ParcelContent::Handle(value), why),
        },
    };
    match why {
        Why::Reply(_) => Ok(Some(object)),
        Why::Fault(fault) => Err((object, fault)),
    }
}

// Gives up all objects on the stack, and keeps those whose call is refused.
fn give_up_all<E: Setup, S: Ledger, W: Ledger, R: Wait>(
    rt: &R,
    service: &Service<E, S, W>,
    client: &mut Client<E, S, W>,
    stack: &mut Vec<ParcelContent<E, S, W>>,
    kept: &mut Held<E, S, W>,
) -> Result<(), StepFault>
    requires owner { All (λ t. owner_of t ≡ client.old.id) (top_first stack.old.items) }
    requires none { held_in kept.old ≡ sorted [] }
    requires room { HasRoomFor kept.old (top_first stack.old.items) }
    ensures parts { GivesUpSome client.old client.new (top_first stack.old.items)
        (top_first stack.new.items) (held_in kept.new) }
    ensures all { OnOk result (vec_len stack.new ≡ 0) }
    ensures room { HasRoomFor kept.new (top_first stack.new.items) }
{
    while let Some(object) = stack.pop() {
        match give_up(rt, service, client, object) {
            Ok(None) => {}
            Ok(Some(object)) => put(kept, object),
            Err((object, fault)) => {
                stack.push_reserved(object);
                return Err(fault);
            }
        }
    }
    Ok(())
}

// Gives up all objects on the stack, if all parcels were collected.
fn give_up_if<E: Setup, S: Ledger, W: Ledger, R: Wait>(
    rt: &R,
    service: &Service<E, S, W>,
    client: &mut Client<E, S, W>,
    collected: Result<(), StepFault>,
    stack: &mut Vec<ParcelContent<E, S, W>>,
    kept: &mut Held<E, S, W>,
) -> Result<(), StepFault>
    requires owner { All (λ t. owner_of t ≡ client.old.id) (top_first stack.old.items) }
    requires none { held_in kept.old ≡ sorted [] }
    requires room { HasRoomFor kept.old (top_first stack.old.items) }
    ensures parts { GivesUpIf (is_ok collected) client.old client.new (top_first stack.old.items)
        (top_first stack.new.items) (held_in kept.new) }
    ensures all { OnOk result ((vec_len stack.new ≡ 0) × (is_ok collected ≡ true)) }
    ensures room { HasRoomFor kept.new (top_first stack.new.items) }
{
    match collected {
        Ok(()) => give_up_all(rt, service, client, stack, kept),
        Err(fault) => Err(fault),
    }
}

// Puts all that the client has on the stack, and leaves the lists empty.
fn stack_all<E: Setup, S: Ledger, W: Ledger>(
    room: Room<E, S, W>,
    held: &mut Held<E, S, W>,
) -> Vec<ParcelContent<E, S, W>>
    requires none { room.stack.items ≡ [] }
    requires room { vec_len room.ends + vec_len room.handles + vec_len held.old.tokens
        + vec_len held.old.collections + vec_len held.old.handles ≤ vec_capacity room.stack }
    ensures objects { top_first result.items ≡ map object_of room.ends.items
        ++ (map Token held.old.tokens.items ++ (map Collection held.old.collections.items
        ++ (map object_of room.handles.items ++ map Handed held.old.handles.items))) }
    ensures none { held_in held.new ≡ sorted [] }
    ensures tokens { vec_capacity held.new.tokens ≡ vec_capacity held.old.tokens }
    ensures collections { vec_capacity held.new.collections ≡ vec_capacity held.old.collections }
    ensures handles { vec_capacity held.new.handles ≡ vec_capacity held.old.handles }
{
    let Room {
        mut ends,
        mut handles,
        mut stack,
    } = room;
    stack_handles(&mut stack, &mut held.handles);
    stack_ends(&mut stack, &mut handles);
    stack_collections(&mut stack, &mut held.collections);
    stack_tokens(&mut stack, &mut held.tokens);
    stack_ends(&mut stack, &mut ends);
    ends.destroy_empty();
    handles.destroy_empty();
    stack
}

/// Makes a client vanish: it is shut, collects each parcel that waited for it, and gives up all that it
/// has. It makes a Close of each end that it collected, of each of its tokens and of each of its
/// collections, then a DropHandle of each handle that it collected and of each of its others, in this
/// order. All values that it holds must be its own. A value whose Close or DropHandle is not answered Done
/// stays with the wreck.
///
/// At a fault (`HistoryFull` or `NoMemory`, as for one event) the events before it stand. The client comes
/// back with the values that it still has, in each list the collected ones first. Another call makes it
/// vanish, and begins with another Shut.
///
/// Costs one event for each of these calls, and memory for as many values as the client then has.
pub fn vanish<E: Setup, S: Ledger, W: Ledger, R: Wait>(
    rt: &R,
    alloc: Global,
    service: &Service<E, S, W>,
    client: Client<E, S, W>,
    held: Held<E, S, W>,
) -> Result<Wreck<E, S, W>, (Client<E, S, W>, Held<E, S, W>, StepFault)>
    requires { AllHeldBy client.id (held_in held) }
    ensures gone { IfOk result (λ w. IsGone client w.client (held_in held) w.refused) }
    ensures fault { IfErr result (λ e. IsBroken client e.0 (held_in held) (held_in e.1)) }
    ensures own { IfErr result (λ e. AllHeldBy e.0.id (held_in e.1)) }
{
    let mut client = client;
    let mut held = held;
    let waiting = match client.shut(rt, service) {
        Ok(reply) => parcels_told(&reply) as usize,
        Err(fault) => return Err((client, held, fault)),
    };
    let mut room = match room_for(rt, alloc, service, &mut held, waiting) {
        Ok(room) => room,
        Err(fault) => return Err((client, held, fault)),
    };
    let collected = collect_all(
        rt,
        service,
        &mut client,
        &mut room.ends,
        &mut room.handles,
        waiting,
    );
    let mut stack = stack_all(room, &mut held);
    let parted = give_up_if(rt, service, &mut client, collected, &mut stack, &mut held);
    match parted {
        Ok(()) => {
            stack.destroy_empty();
            Ok(Wreck::new(client, held))
        }
        Err(fault) => {
            put_all(&mut held, stack);
            Err((client, held, fault))
        }
    }
}
