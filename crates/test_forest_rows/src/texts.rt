//! What is told of a forest.
use crate::ground::{Ground, HERE};
use crate::line::Range;
use alloc_event::births::{new_child, new_root};
use alloc_event::forest::Forest;
use alloc_event::node::Node;
use script_lines::Part;
use sm_names::{Buffers, Cause, CollectionId, Failure, NodeKey};
use test_streams::Text;

/// How many of some nodes are live, have their buffers, and failed; or the change of these numbers.
#[derive(Clone, Copy, PartialEq, Eq)]
pub struct Tally {
    live: i64,
    served: i64,
    failed: i64,
}

impl Tally {
    /// Of no node.
    pub fn new() -> Tally {
        Tally {
            live: 0,
            served: 0,
            failed: 0,
        }
    }

    /// The change since the other one.
    pub fn less(self, other: Tally) -> Tally {
        Tally {
            live: self.live.wrapping_sub(other.live),
            served: self.served.wrapping_sub(other.served),
            failed: self.failed.wrapping_sub(other.failed),
        }
    }

    // The same with one more node.
    fn with(self, node: &Node) -> Tally {
        Tally {
            live: self.live.wrapping_add(i64::from(!node.gone)),
            served: self.served.wrapping_add(i64::from(node.allocated)),
            failed: self.failed.wrapping_add(i64::from(node.fault.is_some())),
        }
    }
}

/// The numbers for these nodes.
pub fn tally_of(forest: &Forest, keys: &[NodeKey]) -> Tally {
    let mut tally = Tally::new();
    for key in keys {
        if let Some(node) = forest.node(*key) {
            tally = tally.with(node);
        }
    }
    tally
}

/// The numbers for the nodes of the range.
pub fn tally_in(forest: &Forest, keys: &[NodeKey], range: Range) -> Tally {
    let mut tally = Tally::new();
    for step in 0..=range.steps() {
        if let Some(key) = keys.get(range.at(step)) {
            if let Some(node) = forest.node(*key) {
                tally = tally.with(node);
            }
        }
    }
    tally
}

// The sign of a number, if one is wanted.
fn sign_of(number: i64, signed: bool) -> &'static str {
    match (signed, number < 0) {
        (true, true) => "-",
        (true, false) => "+",
        (false, _) => "",
    }
}

/// Puts the numbers behind what is there, with their signs if `signed`.
pub fn push_tally(text: &mut Text, tally: Tally, signed: bool) {
    text.push(&[
        Part::Word(sign_of(tally.live, signed)),
        Part::Number(tally.live.unsigned_abs()),
        Part::Word(" live, "),
        Part::Word(sign_of(tally.served, signed)),
        Part::Number(tally.served.unsigned_abs()),
        Part::Word(" served, "),
        Part::Word(sign_of(tally.failed, signed)),
        Part::Number(tally.failed.unsigned_abs()),
        Part::Word(" failed"),
    ]);
}

// The words for the cause of a failure.
fn cause_text(cause: Cause) -> &'static str {
    match cause {
        Cause::Lost => ", Lost by ",
        Cause::NoStrong => ", NoStrong by ",
        Cause::Misused(_) => ", Misused by ",
        Cause::Failed(Failure::NoStrong) => ", Failed(NoStrong) by ",
        Cause::Failed(Failure::NoBuffers) => ", Failed(NoBuffers) by ",
        Cause::Failed(Failure::TooManyBuffers) => ", Failed(TooManyBuffers) by ",
        Cause::Failed(Failure::PoolFull) => ", Failed(PoolFull) by ",
        Cause::Failed(Failure::TooFew) => ", Failed(TooFew) by ",
        Cause::Failed(Failure::TooSmall) => ", Failed(TooSmall) by ",
    }
}

// The words for what a node is.
fn state_text(node: &Node) -> &'static str {
    match (node.gone, node.allocated) {
        (true, true) => ": gone, served",
        (true, false) => ": gone, waiting",
        (false, true) => ": live, served",
        (false, false) => ": live, waiting",
    }
}

/// Puts a node behind what is there: whether it is live, whether it has its buffers, why it failed, and of which node the
/// loss was.
pub fn push_node(text: &mut Text, forest: &Forest, key: NodeKey) {
    let Some(node) = forest.node(key) else {
        return text.word(": forgotten");
    };
    text.word(state_text(node));
    if let Some(fault) = node.fault {
        text.push(&[
            Part::Word(cause_text(fault.cause)),
            Part::Number(u64::from(fault.origin.slot)),
        ]);
    }
}

// Puts the buffers of the collection behind what is there.
fn push_buffers(text: &mut Text, buffers: Option<Buffers>) {
    match buffers {
        Some(given) => text.push(&[
            Part::Word(": "),
            Part::Number(u64::from(given.count)),
            Part::Word(" of "),
            Part::Number(u64::from(given.size)),
        ]),
        None => text.word(": none"),
    }
}

/// Puts behind what is there the buffers of the collection, how many of them are held, how many pages are free, and whether
/// a strong node is live.
pub fn push_pool(text: &mut Text, ground: &Ground) {
    let free = u64::from(ground.free_pages());
    let Some(summary) = ground.forest().collection(HERE) else {
        return text.push(&[
            Part::Word(": no collection, "),
            Part::Number(free),
            Part::Word(" free"),
        ]);
    };
    push_buffers(text, summary.buffers);
    text.push(&[
        Part::Word(", "),
        Part::Number(summary.held as u64),
        Part::Word(" held, "),
        Part::Number(free),
        Part::Word(" free, "),
        Part::Word(strength_text(ground.forest(), HERE)),
    ]);
}

// Whether a strong node of this collection is live.
fn strength_text(forest: &Forest, collection: CollectionId) -> &'static str {
    if forest.strong_live(collection) {
        "strong"
    } else {
        "weak"
    }
}

/// Puts behind what is there how many nodes and collections are kept, and whether a strong node is live here, and in the
/// collection after.
pub fn push_kept(text: &mut Text, forest: &Forest) {
    let nodes = forest.len() as u64;
    let collections = forest.collections() as u64;
    let here = strength_text(forest, HERE);
    let next = strength_text(forest, HERE + 1);
    text.push(&[
        Part::Word(": "),
        Part::Number(nodes),
        Part::Word(" nodes, "),
        Part::Number(collections),
        Part::Word(" collections, "),
        Part::Word(here),
        Part::Word(", the next "),
        Part::Word(next),
    ]);
}

// Puts behind what is there whether the node is a root or whose child it is.
fn push_parent(text: &mut Text, forest: &Forest, node: &Node) {
    let Some(parent) = node.parent else {
        return text.word(": root");
    };
    if forest.node(parent).is_none() {
        return text.word(": a child of a forgotten node");
    }
    let word = if node.attached {
        ": attached of "
    } else {
        ": child of "
    };
    text.push(&[Part::Word(word), Part::Number(u64::from(parent.slot))]);
}

// Whether the node is as it was born; client 3 has its end. Of a child of a forgotten node that is not known.
fn is_as_born(forest: &Forest, key: NodeKey, node: &Node) -> bool {
    let Some(parent) = node.parent else {
        return *node == new_root(key, HERE, node.event, 3);
    };
    match forest.node(parent) {
        Some(above) => *node == new_child(node.attached, key, node.event, 3, above),
        None => false,
    }
}

/// Puts behind what is there where and when a node was born, and whether it has changed since; client 3 has its end.
pub fn push_birth(text: &mut Text, forest: &Forest, key: NodeKey) {
    let Some(node) = forest.node(key) else {
        return text.word(": forgotten");
    };
    push_parent(text, forest, node);
    let word = if is_as_born(forest, key, node) {
        ", event "
    } else {
        ", changed, event "
    };
    text.push(&[Part::Word(word), Part::Number(node.event)]);
}
