//! What a core keeps, as a part of the value of a play.
use crate::births::Births;
use crate::falls::cause_number;
use crate::numbers::{small, small_of};
use crate::value::{put, put_two};
use forest_store::{End, Node, Snapshot};
use lifetime_core::Core;
use sm_names::{Constraints, Fault, HeldBuffer, NodeKey};
use std::alloc::AllocError;

// The value, or 0 without the flag.
pub(crate) fn bit(flag: bool, value: u32) -> u32 {
    if flag { value } else { 0 }
}

fn flags_of(node: &Node) -> u32 {
    let marks = bit(node.attached, 1) | bit(node.allocated, 2) | bit(node.gone, 4);
    let said = bit(node.released, 8) | bit(node.dispensable, 16) | bit(node.took, 32);
    let weak = bit(node.weak, 64) | bit(node.weak_ok, 128) | bit(node.covers, 256);
    marks | said | weak | bit(node.bound, 512)
}

fn put_parent(
    text: &mut Vec<u8>,
    births: &Births,
    parent: Option<NodeKey>,
) -> Result<(), AllocError> {
    match parent {
        Some(parent) => put(text, births.node(parent)),
        None => put(text, u32::MAX),
    }
}

fn put_fault(text: &mut Vec<u8>, births: &Births, fault: Option<Fault>) -> Result<(), AllocError> {
    match fault {
        Some(fault) => put_two(text, cause_number(fault.cause), births.node(fault.origin)),
        None => put(text, 0),
    }
}

fn put_constraints(text: &mut Vec<u8>, constraints: Option<Constraints>) -> Result<(), AllocError> {
    match constraints {
        Some(said) => {
            put_two(text, 1, said.camping() as u32)?;
            put_two(text, said.at_least() as u32, said.size())
        }
        None => put(text, 0),
    }
}

fn put_end(text: &mut Vec<u8>, end: End) -> Result<(), AllocError> {
    match end {
        End::Held(client) => put_two(text, 1, small_of(client)),
        End::InTransit(client) => put_two(text, 2, small_of(client)),
        End::Spent => put(text, 0),
    }
}

fn put_node(text: &mut Vec<u8>, births: &Births, node: &Node) -> Result<(), AllocError> {
    put_two(text, births.node(node.key), flags_of(node))?;
    put_parent(text, births, node.parent)?;
    put_fault(text, births, node.fault)?;
    put_constraints(text, node.constraints)?;
    put(text, node.trackers)?;
    put_end(text, node.end)
}

fn put_nodes(text: &mut Vec<u8>, births: &Births, nodes: &[Node]) -> Result<(), AllocError> {
    put(text, small(nodes.len()))?;
    for node in nodes {
        put_node(text, births, node)?;
    }
    Ok(())
}

fn put_held(text: &mut Vec<u8>, held: &[HeldBuffer]) -> Result<(), AllocError> {
    put(text, small(held.len()))?;
    for one in held {
        put_two(text, one.buffer.index as u32, one.pages.start)?;
    }
    Ok(())
}

fn put_collection(
    text: &mut Vec<u8>,
    births: &Births,
    copied: &Snapshot,
) -> Result<(), AllocError> {
    put_two(text, 1, births.collection(copied.id))?;
    match copied.buffers {
        Some(buffers) => put_two(text, buffers.count, buffers.size)?,
        None => put(text, 0)?,
    }
    put_nodes(text, births, &copied.nodes)?;
    put_held(text, &copied.held)
}

// Puts the collections that are kept, and 0.
pub(crate) fn put_core(text: &mut Vec<u8>, births: &Births, core: &Core) -> Result<(), AllocError> {
    for id in &births.opened {
        match core.collection(*id) {
            Ok(Some(copied)) => put_collection(text, births, &copied)?,
            Ok(None) => {}
            Err(_) => return Err(AllocError),
        }
    }
    put(text, 0)
}
