//! The nodes that an event took.
ghost use Rattle.std.specs.Prelude.{◌≡◌, ◌++◌, map, IfErr, IfOk, OnOk};
ghost use Rattle.std.specs.List.{filter, flat_map};
ghost use Rattle.sm_names.specs.declared.outcomes.StepFault.{StepFault};
ghost use Rattle.forced_marks.specs.Moments.{stage_of};
ghost use Rattle.forced_marks.specs.Steps.{mark_told};
ghost use Rattle.forest_store.specs.declared.node.Node.{Node as NodeValue};
ghost use Rattle.forest_store.specs.Nodes.{after_loss};
ghost use Rattle.actor_plays.specs.Fates.{AreTold, end_told, fall_told, falls_at, falls_by};

use event_facts::takings::taken_under;
use forced_marks::losses::lose;
use forced_marks::{Forced, Moment};
use forest_store::Node;
use sm_names::{Fault, NodeKey, StepFault};
use std::alloc::{AllocError, Global};

/// A node that is gone: why it failed, if it did not end.
#[derive(Clone, Copy)]
pub struct GoneNode {
    pub key: NodeKey,
    pub fault: Option<Fault>,
}

// Adds those of the nodes that are gone.
fn push_gone(falls: &mut Vec<GoneNode>, nodes: &[Node]) -> Result<(), AllocError>
    ensures { OnOk result (falls.new.items
        ≡ falls.old.items ++ map fall_told (filter (λ (n : NodeValue). n.gone) nodes.now)) }
{
    for node in nodes {
        if node.gone {
            falls.push(GoneNode {
                key: node.key,
                fault: node.fault,
            })?;
        }
    }
    Ok(())
}

// Adds the nodes, which end.
fn push_ended(falls: &mut Vec<GoneNode>, nodes: &[Node]) -> Result<(), AllocError>
    ensures { OnOk result (falls.new.items ≡ falls.old.items ++ map end_told nodes.now) }
{
    for node in nodes {
        falls.push(GoneNode {
            key: node.key,
            fault: None,
        })?;
    }
    Ok(())
}

// The fault fails those of the nodes that it reaches.
fn fail_in(alloc: Global, nodes: &mut Vec<Node>, fault: Fault) -> Result<(), AllocError>
    ensures { OnOk result (nodes.new.items ≡ after_loss fault nodes.old.items) }
{
    lose(alloc, nodes, fault)?;
    Ok(())
}

// The nodes once the fault has failed those that it reaches.
fn lost(alloc: Global, nodes: &Vec<Node>, fault: Fault) -> Result<Vec<Node>, AllocError>
    ensures { IfOk result (λ behind. behind.items ≡ after_loss fault nodes.now.items) }
{
    let mut behind = nodes.clone()?;
    fail_in(alloc, &mut behind, fault)?;
    Ok(behind)
}

// Adds the nodes of these that the mark takes.
fn push_taken(
    falls: &mut Vec<GoneNode>,
    alloc: Global,
    mark: Forced,
    nodes: &Vec<Node>,
) -> Result<(), AllocError>
    ensures { OnOk result (falls.new.items
        ≡ falls.old.items ++ falls_by (mark_told mark) nodes.now.items) }
{
    match mark {
        Forced::Loss(fault) => {
            let behind = lost(alloc, nodes, fault)?;
            push_gone(falls, &behind)
        }
        Forced::Ended(top) => {
            let taken = taken_under(nodes, top)?;
            push_ended(falls, &taken)
        }
        Forced::Allocated(_) => Ok(()),
    }
}

// Adds the nodes that these marks of an event take.
fn push_falls(
    falls: &mut Vec<GoneNode>,
    alloc: Global,
    moments: &Vec<Moment>,
) -> Result<(), AllocError>
    ensures { OnOk result (falls.new.items
        ≡ falls.old.items ++ flat_map falls_at (map stage_of moments.now.items)) }
{
    for moment in moments {
        push_taken(falls, alloc, moment.mark, &moment.before.nodes)?;
    }
    Ok(())
}

// Adds the nodes that the marks of an event take, if they are told.
pub(crate) fn note_falls(
    falls: &mut Vec<GoneNode>,
    alloc: Global,
    moments: &Option<Vec<Moment>>,
) -> Result<(), StepFault>
    ensures told { OnOk result (AreTold moments.now falls.old.items falls.new.items) }
    ensures memory { IfErr result (λ fault. fault ≡ StepFault.NoMemory) }
{
    match moments {
        Some(moments) => match push_falls(falls, alloc, moments) {
            Ok(()) => Ok(()),
            Err(_) => Err(StepFault::NoMemory),
        },
        None => Err(StepFault::NoMemory),
    }
}
