//! Whether steps made the same under new names.
ghost use Rattle.std.specs.Prelude.{◌≡◌, ℕ, true, map, IfOk, Ok};
ghost use Rattle.sm_names.specs.declared.messages.Reply.{Reply as Told};
ghost use Rattle.alike_cores.specs.Alike.{reply_renamed};
ghost use Rattle.alike_plays.specs.Actors.{made_of, made_renamed, tells_made};
ghost use Rattle.core_likeness.specs.Naming.{new_id, new_key, new_number};

use core_likeness::{Names, is_new_key};
use sm_names::Reply;
use std::alloc::{AllocError, Global};

// Whether the reply tells of a node or a tracker that its step made.
fn is_making(reply: Reply) -> bool
    ensures { result ≡ tells_made reply }
{
    matches!(reply, Reply::Token { .. } | Reply::Tracker(_))
}

// The replies that tell what their steps made.
pub(crate) fn making(
    alloc: Global,
    made: &[(usize, Reply)],
) -> Result<Vec<(usize, Reply)>, AllocError>
    ensures { IfOk result (λ making. making.items ≡ made_of made.now) }
{
    let mut making = Vec::new(alloc);
    for entry in made {
        if is_making(entry.1) {
            making.push(*entry)?;
        }
    }
    Ok(making)
}

// Whether the other reply is the one under new names. Only replies that tell what was made are.
fn is_new_reply(one: Reply, other: Reply, names: &Names) -> bool
    ensures { result ≡ true → other
        ≡ reply_renamed (new_key names.now) (new_id names.now) (new_number names.now) one }
{
    match one {
        Reply::Token { key, collection } => match other {
            Reply::Token {
                key: new,
                collection: id,
            } => is_new_key(key, new, names) && names.id(collection) == id,
            _ => false,
        },
        Reply::Tracker(tracker) => match other {
            Reply::Tracker(number) => names.number(tracker) == number,
            _ => false,
        },
        _ => false,
    }
}

// Whether the others are the ones, in their order.
fn are_new_replies(one: &[(usize, Reply)], other: &[(usize, Reply)], names: &Names) -> bool
    ensures { result ≡ true → other.now ≡ map (made_renamed (new_key names.now) (new_id names.now)
        (new_number names.now)) one.now }
{
    if one.len() != other.len() {
        return false;
    }
    for at in 0..one.len() {
        if one[at].0 != other[at].0 || !is_new_reply(one[at].1, other[at].1, names) {
            return false;
        }
    }
    true
}

// Whether the steps of the other made what those of the one made.
pub(crate) fn made_alike(
    alloc: Global,
    one: &[(usize, Reply)],
    other: &[(usize, Reply)],
    names: &Names,
) -> Result<bool, AllocError>
    ensures { result ≡ Ok true → made_of other.now ≡ map (made_renamed (new_key names.now)
        (new_id names.now) (new_number names.now)) (made_of one.now) }
{
    let made = making(alloc, one)?;
    let others = making(alloc, other)?;
    let are_new = are_new_replies(&made, &others, names);
    Ok(are_new)
}
