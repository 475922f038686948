//! What the calls of a record are to bind.
ghost use Rattle.std.specs.Prelude.{◌≡◌, ◌∷◌, ◌++◌, IfOk, codes, decimal};
ghost use Rattle.script_lines.specs.Labels.{label_of};
ghost use Rattle.script_labels.specs.Records.{binds_of, client_binds as client_bound, node_binds as node_bound, tracker_binds as tracker_bound};

use crate::act::Binds;
use script_lines::{Label, push, push_number};
use sm_names::{Call, Product, parts_of, row_of};
use std::alloc::{AllocError, Global};

// The label that a letter and the number of an event spell.
fn numbered(alloc: Global, letter: &str, event: u64) -> Result<Option<Label>, AllocError>
    ensures { IfOk result (λ label. label ≡ label_of (letter.now ++ decimal event)) }
{
    let mut word = Vec::new(alloc);
    push(&mut word, letter)?;
    push_number(&mut word, event)?;
    Ok(Label::new(word.as_slice()))
}

// The label of the client that joins next.
fn client_binds(next: Option<Label>) -> Binds
    ensures { result ≡ client_bound next }
{
    match next {
        Some(label) => Binds::Client(label),
        None => Binds::Nothing,
    }
}

// The label of a node that the event makes or brings.
fn node_binds(alloc: Global, event: u64) -> Result<Binds, AllocError>
    ensures { IfOk result (λ binds. binds ≡ node_bound event) }
{
    match numbered(alloc, "n", event)? {
        Some(label) => Ok(Binds::Node(label)),
        None => Ok(Binds::Nothing),
    }
}

// The label of a tracker that the event makes.
fn tracker_binds(alloc: Global, event: u64) -> Result<Binds, AllocError>
    ensures { IfOk result (λ binds. binds ≡ tracker_bound event) }
{
    match numbered(alloc, "t", event)? {
        Some(label) => Ok(Binds::Tracker(label)),
        None => Ok(Binds::Nothing),
    }
}

/// What the call of this event is to bind, where the next client that joins has this label.
pub(crate) fn binds(
    alloc: Global,
    next: Option<Label>,
    event: u64,
    call: Call,
) -> Result<Binds, AllocError>
    ensures { IfOk result (λ binds. binds ≡ binds_of next event call) }
{
    match row_of(parts_of(call).kind).brings {
        Product::Client => Ok(client_binds(next)),
        Product::Collection | Product::Node | Product::Parcel => node_binds(alloc, event),
        Product::Tracker => tracker_binds(alloc, event),
        Product::Nothing | Product::Handles => Ok(Binds::Nothing),
    }
}
