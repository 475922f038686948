//! What became of the nodes that are gone, by the numbers of steps.
use crate::births::Births;
use actor_plays::{GoneNode, Play};
use sm_names::{Cause, Failure};
use std::alloc::{AllocError, Global};

// What became of a node that is gone: 0 where it ended, else the number of the cause, and the number of the
// step that made the origin.
#[derive(Clone, Copy)]
pub(crate) struct NamedFall {
    pub(crate) name: u32,
    pub(crate) cause: u32,
    pub(crate) origin: u32,
}

fn failure_number(failure: Failure) -> u32 {
    match failure {
        Failure::NoStrong => 20,
        Failure::NoBuffers => 21,
        Failure::TooManyBuffers => 22,
        Failure::PoolFull => 23,
        Failure::TooFew => 24,
        Failure::TooSmall => 25,
    }
}

// The number of the cause, from 1.
pub(crate) fn cause_number(cause: Cause) -> u32 {
    match cause {
        Cause::Lost => 1,
        Cause::NoStrong => 2,
        Cause::Misused(misuse) => (misuse.number() as u32).wrapping_add(100),
        Cause::Failed(failure) => failure_number(failure),
    }
}

fn named_fall(births: &Births, fall: &GoneNode) -> NamedFall {
    let name = births.node(fall.key);
    match fall.fault {
        Some(fault) => NamedFall {
            name,
            cause: cause_number(fault.cause),
            origin: births.node(fault.origin),
        },
        None => NamedFall {
            name,
            cause: 0,
            origin: 0,
        },
    }
}

// A fall with its number and its place among all, as it is sorted.
type FallPlace = ((u32, usize), (u32, u32));

fn placed(fall: &NamedFall, place: usize) -> FallPlace {
    ((fall.name, place), (fall.cause, fall.origin))
}

// Adds the falls behind the others.
fn push_placed(
    all: &mut Vec<FallPlace>,
    births: &Births,
    falls: &[GoneNode],
) -> Result<(), AllocError> {
    for fall in falls {
        let place = all.len();
        all.push(placed(&named_fall(births, fall), place))?;
    }
    Ok(())
}

// Of these falls, in order, the first of each number.
fn firsts(alloc: Global, all: &[FallPlace]) -> Result<Vec<NamedFall>, AllocError> {
    let mut falls = Vec::new(alloc);
    let mut last: Option<u32> = None;
    for ((name, _), (cause, origin)) in all {
        if last != Some(*name) {
            falls.push(NamedFall {
                name: *name,
                cause: *cause,
                origin: *origin,
            })?;
        }
        last = Some(*name);
    }
    Ok(falls)
}

// Those that fell before, and those that the play told, by number: of a node the first.
pub(crate) fn falls_of(
    alloc: Global,
    before: &[NamedFall],
    births: &Births,
    play: &Play,
) -> Result<Vec<NamedFall>, AllocError> {
    let mut all = Vec::new(alloc);
    for fall in before {
        let place = all.len();
        all.push(placed(fall, place))?;
    }
    push_placed(&mut all, births, play.falls())?;
    all.as_mut_slice().sort_unstable();
    firsts(alloc, &all)
}

// Whether a node of this number fell; the falls stand by number.
pub(crate) fn has_name(falls: &[NamedFall], name: u32) -> bool {
    falls.binary_search_by_key(&name, |fall| fall.name).is_ok()
}
