//! The text of what an event left: for whom an allocation waits, and what became of buffers.
ghost use Rattle.std.specs.Prelude.{◌≡◌, ◌++◌, [], OnOk};
ghost use Rattle.std.specs.List.{flat_map};
ghost use Rattle.std.specs.Option.{option_map_or};
ghost use Rattle.script_labels.specs.Names.{Names};
ghost use Rattle.script_labels.specs.Tables.{Keeps};
ghost use Rattle.event_texts.specs.Called.{Calls};
ghost use Rattle.event_texts.specs.EventTexts.{doomed_text, end_holder, fires_text, freed_text, listed_text, next_waited};
ghost use Rattle.event_texts.specs.EventTexts.{some_doomed, tracker_text, unit_text, waited_text, waits_text, want_text};
ghost use Rattle.event_texts.specs.EventLines.{awaited_text, head_above as head_over, waiting_text};

use crate::allocations::push_each_held;
use crate::labels::Labels;
use crate::words::{push_client, push_set};
use event_facts::failure_path::find;
use event_facts::waits::awaited;
use forest_store::{End, Node};
use script_labels::Tables;
use script_lines::{Part, push, push_parts};
use sm_names::{CollectionId, Fired, HeldBuffer, NodeKey};
use std::alloc::AllocError;

// Appends for whom the allocation of the unit of this node waits.
pub(crate) fn push_waits(
    text: &mut Vec<u8>,
    tables: &Tables,
    labels: &Labels,
    nodes: &Vec<Node>,
    key: NodeKey,
) -> Result<(), AllocError>
    ensures { OnOk result ((names : Names) → Keeps tables.now names → Calls labels.now names →
        text.new.items ≡ text.old.items ++ waiting_text names nodes.now.items key) }
{
    match find(nodes, key) {
        Some(asked) => push_awaited(text, tables, labels, nodes, asked.head),
        None => Ok(()),
    }
}

// Appends for whom the allocation of the unit with this head waits.
fn push_awaited(
    text: &mut Vec<u8>,
    tables: &Tables,
    labels: &Labels,
    nodes: &Vec<Node>,
    head: NodeKey,
) -> Result<(), AllocError>
    ensures { OnOk result ((names : Names) → Keeps tables.now names → Calls labels.now names →
        text.new.items ≡ text.old.items ++ awaited_text names nodes.now.items head) }
{
    let found = awaited(nodes, head)?;
    if found.is_empty() {
        return push_unit_above(text, tables, nodes, head);
    }
    push_found(text, tables, labels, &found)
}

// Appends the nodes that are waited for.
fn push_found(
    text: &mut Vec<u8>,
    tables: &Tables,
    labels: &Labels,
    found: &[Node],
) -> Result<(), AllocError>
    ensures { OnOk result ((names : Names) → Keeps tables.now names → Calls labels.now names →
        text.new.items ≡ text.old.items ++ waits_text names found.now) }
{
    match found.split_first() {
        Some((first, others)) => push_listed(text, tables, labels, first, others),
        None => Ok(()),
    }
}

// Appends a node that is waited for, and others.
fn push_listed(
    text: &mut Vec<u8>,
    tables: &Tables,
    labels: &Labels,
    first: &Node,
    others: &[Node],
) -> Result<(), AllocError>
    ensures { OnOk result ((names : Names) → Keeps tables.now names → Calls labels.now names →
        text.new.items ≡ text.old.items ++ listed_text names first.now others.now) }
{
    push(text, "waits   for")?;
    push_waited(text, tables, labels, first)?;
    push_others(text, tables, labels, others)?;
    push(text, "\n")
}

// Appends more nodes that are waited for.
fn push_others(
    text: &mut Vec<u8>,
    tables: &Tables,
    labels: &Labels,
    others: &[Node],
) -> Result<(), AllocError>
    ensures { OnOk result ((names : Names) → Keeps tables.now names → Calls labels.now names →
        text.new.items ≡ text.old.items ++ flat_map (next_waited names) others.now) }
{
    for node in others {
        push_next(text, tables, labels, node)?;
    }
    Ok(())
}

// Appends one more node that is waited for.
fn push_next(
    text: &mut Vec<u8>,
    tables: &Tables,
    labels: &Labels,
    node: &Node,
) -> Result<(), AllocError>
    ensures { OnOk result ((names : Names) → Keeps tables.now names → Calls labels.now names →
        text.new.items ≡ text.old.items ++ next_waited names node.now) }
{
    push(text, ",")?;
    push_waited(text, tables, labels, node)
}

// Appends a node that is waited for, and the holder of its end.
fn push_waited(
    text: &mut Vec<u8>,
    tables: &Tables,
    labels: &Labels,
    node: &Node,
) -> Result<(), AllocError>
    ensures { OnOk result ((names : Names) → Keeps tables.now names → Calls labels.now names →
        text.new.items ≡ text.old.items ++ waited_text names node.now) }
{
    push_parts(
        text,
        &[
            Part::Word(" "),
            Part::Name(tables.birth_label(node.key)),
            Part::Word(want_of(node)),
        ],
    )?;
    push_end_holder(text, labels, node.end)?;
    push(text, ")")
}

// What the node lacks.
fn want_of(node: &Node) -> &'static str
    ensures { result.now ≡ want_text node.now }
{
    if node.bound {
        " (no constraints, held by "
    } else {
        " (a token, held by "
    }
}

// Appends the label of the client that has the end, or words for a parcel.
fn push_end_holder(text: &mut Vec<u8>, labels: &Labels, end: End) -> Result<(), AllocError>
    ensures { OnOk result ((names : Names) → Calls labels.now names →
        text.new.items ≡ text.old.items ++ end_holder names end) }
{
    match end {
        End::Held(client) => push_client(text, labels, client),
        End::InTransit(_) => push(text, "a parcel"),
        End::Spent => push(text, "a parcel"),
    }
}

// The head of the unit above the one with this head.
fn head_above(nodes: &[Node], head: NodeKey) -> Option<NodeKey>
    ensures { result ≡ head_over nodes.now head }
{
    let node = find(nodes, head)?;
    let above = find(nodes, node.parent?)?;
    Some(above.head)
}

// Appends that the unit above that with this head is waited for.
fn push_unit_above(
    text: &mut Vec<u8>,
    tables: &Tables,
    nodes: &[Node],
    head: NodeKey,
) -> Result<(), AllocError>
    ensures { OnOk result ((names : Names) → Keeps tables.now names →
        text.new.items ≡ text.old.items
        ++ option_map_or (unit_text names) (head_over nodes.now head) []) }
{
    match head_above(nodes, head) {
        Some(above) => push_unit(text, tables, above),
        None => Ok(()),
    }
}

// Appends that the unit with this head is waited for.
fn push_unit(text: &mut Vec<u8>, tables: &Tables, above: NodeKey) -> Result<(), AllocError>
    ensures { OnOk result ((names : Names) → Keeps tables.now names →
        text.new.items ≡ text.old.items ++ unit_text names above) }
{
    push_parts(
        text,
        &[
            Part::Word("waits   for the unit of "),
            Part::Name(tables.birth_label(above)),
            Part::Word("\n"),
        ],
    )
}

// Appends the buffers of the set, as doomed, if there are some.
pub(crate) fn push_doomed(
    text: &mut Vec<u8>,
    tables: &Tables,
    collection: CollectionId,
    set: u64,
) -> Result<(), AllocError>
    ensures { OnOk result ((names : Names) → Keeps tables.now names →
        text.new.items ≡ text.old.items ++ doomed_text names collection set) }
{
    if set == 0 {
        return Ok(());
    }
    push_some_doomed(text, tables, collection, set)
}

// Appends the buffers of the set, as doomed.
fn push_some_doomed(
    text: &mut Vec<u8>,
    tables: &Tables,
    collection: CollectionId,
    set: u64,
) -> Result<(), AllocError>
    ensures { OnOk result ((names : Names) → Keeps tables.now names →
        text.new.items ≡ text.old.items ++ some_doomed names collection set) }
{
    push(text, "doomed ")?;
    push_set(text, tables, collection, set)?;
    push(text, "\n")
}

// Appends the buffers that gave their pages back, if there are some.
pub(crate) fn push_free(
    text: &mut Vec<u8>,
    tables: &Tables,
    freed: &[HeldBuffer],
) -> Result<(), AllocError>
    ensures { OnOk result ((names : Names) → Keeps tables.now names →
        text.new.items ≡ text.old.items ++ freed_text names freed.now) }
{
    if freed.is_empty() {
        return Ok(());
    }
    push(text, "free   ")?;
    push_each_held(text, tables, freed)?;
    push(text, "\n")
}

// Appends the trackers that fired, if there are some.
pub(crate) fn push_fires(
    text: &mut Vec<u8>,
    tables: &Tables,
    fired: &[Fired],
) -> Result<(), AllocError>
    ensures { OnOk result ((names : Names) → Keeps tables.now names →
        text.new.items ≡ text.old.items ++ fires_text names fired.now) }
{
    if fired.is_empty() {
        return Ok(());
    }
    push(text, "fires  ")?;
    push_trackers(text, tables, fired)?;
    push(text, "\n")
}

// Appends a space and each of the trackers.
fn push_trackers(text: &mut Vec<u8>, tables: &Tables, fired: &[Fired]) -> Result<(), AllocError>
    ensures { OnOk result ((names : Names) → Keeps tables.now names →
        text.new.items ≡ text.old.items ++ flat_map (tracker_text names) fired.now) }
{
    for firing in fired {
        push_fired(text, tables, *firing)?;
    }
    Ok(())
}

// Appends a space and the tracker that fired.
fn push_fired(text: &mut Vec<u8>, tables: &Tables, firing: Fired) -> Result<(), AllocError>
    ensures { OnOk result ((names : Names) → Keeps tables.now names →
        text.new.items ≡ text.old.items ++ tracker_text names firing) }
{
    push_parts(
        text,
        &[
            Part::Word(" "),
            Part::Name(tables.tracker_label(firing.tracker)),
        ],
    )
}
