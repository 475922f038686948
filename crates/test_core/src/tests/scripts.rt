//! A script: calls with their replies, and what is seen of the core.
use super::acts::{Deed, Row, Said};
use sm_names::{Cause, Fired, HeldBuffer, Reply, Strength};

/// What is seen after this many calls: how many pages are free, and the buffers that hold the others.
pub type Look = (u64, u32, &'static [HeldBuffer]);

/// Calls with their replies, and what is seen between them and at the end.
#[derive(Clone, Copy)]
pub struct Script {
    // Events, nodes, collections, trackers and handles.
    pub limits: [u32; 5],
    pub rows: &'static [Row],
    pub looks: &'static [Look],
    // The nodes that are live at the end, by birth.
    pub live: &'static [u64],
    // The nodes that failed and are kept at the end, with why and where.
    pub failed: &'static [(u64, Cause, u64)],
    // The trackers that fired.
    pub fired: &'static [Fired],
}

/// Buffers that hold pages: each with its collection, its index, its first page and how many pages it has.
macro_rules! held {
    ($(($collection:literal, $index:literal, $start:literal, $pages:literal)),*) => {
        &[$(
            sm_names::HeldBuffer {
                buffer: sm_names::BufferName {
                    collection: $collection,
                    index: $index,
                },
                pages: sm_names::Interval {
                    start: $start,
                    pages: $pages,
                },
            }
        ),*]
    };
}

pub(crate) use held;

pub const FULL: [u32; 5] = [u32::MAX, 1024, 256, 4096, u32::MAX];

pub const DONE: Said = Said::Just(Reply::Done);

pub const PENDING: Said = Said::Just(Reply::Pending);

pub const STRONG: Strength = Strength::Strong;

pub const WEAK: Strength = Strength::Weak;

/// One buffer of a page is camped on.
pub const ONE_PAGE: Deed = Deed::Constrain(1, 0, 4096);

/// Nothing is asked for.
pub const NOTHING: Deed = Deed::Constrain(0, 0, 1);
