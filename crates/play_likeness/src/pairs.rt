//! The names of two plays, step by step.
use crate::made::making;
use actor_plays::Actor;
use core_likeness::Names;
use sm_names::{CollectionId, NodeKey, Reply, TrackerId};
use std::alloc::{AllocError, Global};

// Pairs the keys, unless the one has this name.
fn pair_keys(names: &mut Names, key: NodeKey, new: NodeKey) -> Result<(), AllocError> {
    if names.key(key) == new {
        return Ok(());
    }
    names.pair_keys(key, new)
}

// Pairs the numbers of the collections, unless the one has this name.
fn pair_ids(names: &mut Names, id: CollectionId, new: CollectionId) -> Result<(), AllocError> {
    if names.id(id) == new {
        return Ok(());
    }
    names.pair_ids(id, new)
}

// Pairs the numbers of the trackers, unless the one has this name.
fn pair_numbers(names: &mut Names, number: TrackerId, new: TrackerId) -> Result<(), AllocError> {
    if names.number(number) == new {
        return Ok(());
    }
    names.pair_numbers(number, new)
}

// Pairs the names in two replies that tell what their steps made.
fn pair_replies(names: &mut Names, one: Reply, other: Reply) -> Result<(), AllocError> {
    match one {
        Reply::Token { key, collection } => match other {
            Reply::Token {
                key: new,
                collection: id,
            } => {
                pair_keys(names, key, new)?;
                pair_ids(names, collection, id)
            }
            _ => Ok(()),
        },
        Reply::Tracker(tracker) => match other {
            Reply::Tracker(number) => pair_numbers(names, tracker, number),
            _ => Ok(()),
        },
        _ => Ok(()),
    }
}

// Pairs the names that two actors' steps made, one after another.
fn pair_made(
    alloc: Global,
    names: &mut Names,
    one: &[(usize, Reply)],
    other: &[(usize, Reply)],
) -> Result<(), AllocError> {
    let made = making(alloc, one)?;
    let others = making(alloc, other)?;
    if made.len() == others.len() {
        for at in 0..made.len() {
            pair_replies(names, made[at].1, others[at].1)?;
        }
    }
    Ok(())
}

// The names of the other play for those of the one: the first node or tracker that an actor made is the first that it
// made in the other play, and so on. Costs O(n k) for n replies and k names that changed.
pub(crate) fn names_of(alloc: Global, one: &[Actor], other: &[Actor]) -> Result<Names, AllocError> {
    let mut names = Names::new(alloc);
    if one.len() == other.len() {
        for at in 0..one.len() {
            pair_made(alloc, &mut names, &one[at].made, &other[at].made)?;
        }
    }
    Ok(names)
}
