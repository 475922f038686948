//! Room in the slots, and what is put into them and taken out.
ghost use Rattle.std.specs.Prelude.{◌≡◌, ◌+◌, ◌≤◌, ◌++◌, length, OnOk, vec_len, vec_capacity};
ghost use Rattle.client_vanish.specs.Vanishings.{held_in, sorted};
ghost use Rattle.client_vanish.specs.Stacks.{both};
ghost use Rattle.client_actors.specs.ActorSteps.{ListsHaveRoom, last_objects_first};
ghost use Rattle.client_actors.specs.ObjectCalls.{slots_for};

use crate::new_objects::NewObjects;
use crate::slots::store_handles;
use client_ends::{Held, ParcelContent};
use service_lock::Setup;
use sm_names::{MAX_BUFFERS, StepFault};
use std::sync::ledger::Ledger;

// How many objects one call may bring.
const MOST: usize = MAX_BUFFERS as usize;

// Makes room for what one call may bring.
pub(crate) fn make_room<E: Setup, S: Ledger, W: Ledger>(
    slots: &mut Vec<Option<ParcelContent<E, S, W>>>,
    held: &mut Held<E, S, W>,
) -> Result<(), StepFault>
    requires { ListsHaveRoom held.old (vec_len slots.old) }
    ensures slots { (slots.new.items ≡ slots.old.items) × (vec_len slots.new ≡ vec_len slots.old) }
    ensures held { held_in held.new ≡ held_in held.old }
    ensures room { ListsHaveRoom held.new (vec_len slots.new) }
    ensures more { OnOk result ((vec_len slots.new + MOST ≤ vec_capacity slots.new)
        × ListsHaveRoom held.new (vec_len slots.new + MOST)) }
{
    if slots.reserve(MOST).is_err() {
        return Err(StepFault::NoMemory);
    }
    let all = slots.len() + MOST;
    if held.tokens.reserve(all).is_err()
        || held.collections.reserve(all).is_err()
        || held.handles.reserve(all).is_err()
    {
        return Err(StepFault::NoMemory);
    }
    Ok(())
}

// Puts what was brought into the next slots. A tracker is let go.
pub(crate) fn store<E: Setup, S: Ledger, W: Ledger>(
    slots: &mut Vec<Option<ParcelContent<E, S, W>>>,
    brought: NewObjects<E, S, W>,
)
    requires { vec_len slots.old + length (slots_for brought) ≤ vec_capacity slots.old }
    ensures slots { slots.new.items ≡ slots.old.items ++ slots_for brought }
    ensures len { vec_len slots.new ≡ vec_len slots.old + length (slots_for brought) }
{
    match brought {
        NewObjects::Nothing => {}
        NewObjects::One(end) => slots.push_reserved(Some(end)),
        NewObjects::Handles(handles) => store_handles(slots, handles),
        NewObjects::Tracker(_) => {}
    }
}

// Takes all objects out of their slots, the newest first, each into the list of its kind.
pub(crate) fn unload<E: Setup, S: Ledger, W: Ledger>(
    slots: Vec<Option<ParcelContent<E, S, W>>>,
    held: &mut Held<E, S, W>,
)
    requires { ListsHaveRoom held.old (vec_len slots) }
    ensures { held_in held.new ≡ both (held_in held.old) (sorted (last_objects_first slots.items)) }
{
    let mut slots = slots;
    'unloading: while let Some(slot) = slots.pop() {
        match slot {
            None => {}
            Some(ParcelContent::Token(token)) => held.tokens.push_reserved(token),
            Some(ParcelContent::Collection(collection)) => held
                .collections
                .push_reserved(collection),
            Some(ParcelContent::Handle(handle)) => held.handles.push_reserved(handle),
        }
    }
    slots.destroy_empty();
}
