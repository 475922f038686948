//! Whether an actor has the same objects under new names.
ghost use Rattle.std.specs.Prelude.{◌≡◌, true, map, option_map};
ghost use Rattle.alike_plays.specs.Actors.{object_renamed};
ghost use Rattle.core_likeness.specs.Naming.{new_id, new_key};

use actor_scripts::ActorObject;
use core_likeness::{Names, is_new_key, is_strength};
use sm_names::BufferName;

// Whether the buffers have one index, and the other is of the collection under its new number.
pub(crate) fn is_new_buffer(one: BufferName, other: BufferName, names: &Names) -> bool
    ensures { result ≡ true →
        other ≡ record one { collection = new_id names.now one.collection } }
{
    names.id(one.collection) == other.collection && one.index == other.index
}

// Whether the other object is the one under new names.
pub(crate) fn is_new_object(one: ActorObject, other: ActorObject, names: &Names) -> bool
    ensures { result ≡ true → other ≡ object_renamed (new_key names.now) (new_id names.now) one }
{
    match one {
        ActorObject::Token { key, collection } => match other {
            ActorObject::Token {
                key: new,
                collection: id,
            } => is_new_key(key, new, names) && names.id(collection) == id,
            _ => false,
        },
        ActorObject::Collection { key, collection } => match other {
            ActorObject::Collection {
                key: new,
                collection: id,
            } => is_new_key(key, new, names) && names.id(collection) == id,
            _ => false,
        },
        ActorObject::Handle { buffer, strength } => match other {
            ActorObject::Handle {
                buffer: new,
                strength: held,
            } => is_new_buffer(buffer, new, names) && is_strength(strength, held),
            _ => false,
        },
    }
}

// Whether what lies in the other slot is what lies in the one.
fn is_new_slot(one: Option<ActorObject>, other: Option<ActorObject>, names: &Names) -> bool
    ensures { result ≡ true →
        other ≡ option_map (object_renamed (new_key names.now) (new_id names.now)) one }
{
    match one {
        Some(object) => match other {
            Some(new) => is_new_object(object, new, names),
            None => false,
        },
        None => other.is_none(),
    }
}

// Whether the others are the ones, in their order.
pub(crate) fn are_new_objects(one: &[ActorObject], other: &[ActorObject], names: &Names) -> bool
    ensures { result ≡ true →
        other.now ≡ map (object_renamed (new_key names.now) (new_id names.now)) one.now }
{
    if one.len() != other.len() {
        return false;
    }
    for at in 0..one.len() {
        if !is_new_object(one[at], other[at], names) {
            return false;
        }
    }
    true
}

// Whether the others lie in the same slots as the ones.
pub(crate) fn are_new_slots(
    one: &[Option<ActorObject>],
    other: &[Option<ActorObject>],
    names: &Names,
) -> bool
    ensures { result ≡ true → other.now
        ≡ map (option_map (object_renamed (new_key names.now) (new_id names.now))) one.now }
{
    if one.len() != other.len() {
        return false;
    }
    for at in 0..one.len() {
        if !is_new_slot(one[at], other[at], names) {
            return false;
        }
    }
    true
}
