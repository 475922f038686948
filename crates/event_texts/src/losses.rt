//! The text of a failure and of an end: its way, and where it stopped.
ghost use Rattle.std.specs.Prelude.{◌≡◌, ◌++◌, [], OnOk};
ghost use Rattle.std.specs.List.{flat_map};
ghost use Rattle.script_labels.specs.Names.{Names};
ghost use Rattle.script_labels.specs.Tables.{Keeps};
ghost use Rattle.event_facts.specs.KeyMaps.{values_at};
ghost use Rattle.event_texts.specs.LossTexts.{below_text, camped_text, down_text, end_text, failed_text, failure_text, fault_text, few_text, full_text, handed_by, handing_text, last_of, least_text, loss_text, many_text, next_above, size_in, small_text, stop_text, up_text, way_text, why_text};

use crate::words::{PAGE, misuse_words, push_name, push_nodes, shown};
use event_facts::KeyRows;
use event_facts::failure_path::{Stop, stop_at, way_up};
use event_facts::takings::{handed_on, taken_under};
use forced_marks::demand::{reserved, total_demand};
use forest_steps::demand::TotalDemand;
use forest_store::{Node, Snapshot};
use script_labels::{Tables, push_cause};
use script_lines::{Part, push, push_parts};
use sm_names::{Buffers, Cause, Failure, Fault, MAX_BUFFERS, NodeKey};
use std::alloc::AllocError;

// Appends that the node where the fault began fails, why, and how the failure propagates, in the
// collection before it; this many pages are free.
pub(crate) fn push_loss(
    text: &mut Vec<u8>,
    tables: &Tables,
    scene: &Snapshot,
    free: u32,
    fault: Fault,
) -> Result<(), AllocError>
    ensures { OnOk result ((names : Names) → Keeps tables.now names →
        text.new.items ≡ text.old.items ++ loss_text names scene.now.nodes.items
        scene.now.buffers free fault) }
{
    let way = way_up(&scene.nodes, fault.origin)?;
    push_fault(text, tables, scene, free, fault)?;
    push_way(text, tables, &way)?;
    push_below(text, tables, &scene.nodes, &way)
}

// Appends why a failure that came up this way climbs no further, and the way down.
fn push_below(
    text: &mut Vec<u8>,
    tables: &Tables,
    nodes: &Vec<Node>,
    way: &[NodeKey],
) -> Result<(), AllocError>
    ensures { OnOk result ((names : Names) → Keeps tables.now names →
        text.new.items ≡ text.old.items ++ below_text names nodes.now.items way.now) }
{
    match top_of(way) {
        Some(top) => {
            push_stop(text, tables, stop_at(nodes, top), top)?;
            push_down(text, tables, nodes, top, way)
        }
        None => Ok(()),
    }
}

// The last node of the way.
fn top_of(way: &[NodeKey]) -> Option<NodeKey>
    ensures { result ≡ last_of way.now }
{
    way.get(way.len().saturating_sub(1)).copied()
}

// Appends that the node where the fault began fails, and why.
fn push_fault(
    text: &mut Vec<u8>,
    tables: &Tables,
    scene: &Snapshot,
    free: u32,
    fault: Fault,
) -> Result<(), AllocError>
    ensures { OnOk result ((names : Names) → Keeps tables.now names →
        text.new.items ≡ text.old.items ++ fault_text names scene.now.nodes.items
        scene.now.buffers free fault) }
{
    push_parts(
        text,
        &[
            Part::Name(tables.birth_label(fault.origin)),
            Part::Word(" fails, "),
        ],
    )?;
    push_cause(text, fault.cause)?;
    push(text, ": ")?;
    push_why(text, scene, free, fault)?;
    push(text, "\n")
}

// Appends that the node ends, and which nodes end with it.
pub(crate) fn push_end(
    text: &mut Vec<u8>,
    tables: &Tables,
    scene: &Snapshot,
    top: NodeKey,
) -> Result<(), AllocError>
    ensures { OnOk result ((names : Names) → Keeps tables.now names →
        text.new.items ≡ text.old.items ++ end_text names scene.now.nodes.items top) }
{
    push_parts(
        text,
        &[
            Part::Name(tables.birth_label(top)),
            Part::Word(" ends: no node at or below it is live\n"),
        ],
    )?;
    push_down(text, tables, &scene.nodes, top, &[])
}

// Appends why the node where the fault began fails.
fn push_why(text: &mut Vec<u8>, scene: &Snapshot, free: u32, fault: Fault) -> Result<(), AllocError>
    ensures { OnOk result (text.new.items ≡ text.old.items
        ++ why_text scene.now.nodes.items scene.now.buffers free fault.origin fault.cause) }
{
    match fault.cause {
        Cause::Lost => push(text, "its end was closed without a release"),
        Cause::Misused(misuse) => push(text, misuse_words(misuse)),
        Cause::NoStrong => push(text, "no strong node is live and no strong handle is open"),
        Cause::Failed(failure) => push_failed(text, scene, free, fault.origin, failure),
    }
}

// Appends why the allocation of the unit with this head fails.
fn push_failed(
    text: &mut Vec<u8>,
    scene: &Snapshot,
    free: u32,
    head: NodeKey,
    failure: Failure,
) -> Result<(), AllocError>
    ensures { OnOk result (text.new.items ≡ text.old.items
        ++ failed_text scene.now.nodes.items scene.now.buffers free head failure) }
{
    let asks = total_demand(&scene.nodes, head);
    push_failure(text, scene, free, asks, failure)
}

// Appends why the allocation of a unit that asks so fails.
fn push_failure(
    text: &mut Vec<u8>,
    scene: &Snapshot,
    free: u32,
    asks: TotalDemand,
    failure: Failure,
) -> Result<(), AllocError>
    ensures { OnOk result (text.new.items ≡ text.old.items
        ++ failure_text scene.now.nodes.items scene.now.buffers free
        asks.camping asks.at_least asks.size failure) }
{
    let count = shown(asks.camping.max(asks.at_least as u128));
    match failure {
        Failure::NoStrong => push(text, "no strong node is live"),
        Failure::NoBuffers => push(text, "its unit asks for no buffer"),
        Failure::TooManyBuffers => push_many(text, count),
        Failure::PoolFull => push_full(text, count, asks.size, free),
        Failure::TooFew => push_few(text, scene, asks),
        Failure::TooSmall => push_small(text, scene, asks.size),
    }
}

// Appends that too many buffers are asked for.
fn push_many(text: &mut Vec<u8>, count: u64) -> Result<(), AllocError>
    ensures { OnOk result (text.new.items ≡ text.old.items ++ many_text count) }
{
    push_parts(
        text,
        &[
            Part::Word("its unit asks for "),
            Part::Number(count),
            Part::Word(" buffers, and "),
            Part::Number(MAX_BUFFERS as u64),
            Part::Word(" are the most"),
        ],
    )
}

// Appends that the pool has no room.
fn push_full(text: &mut Vec<u8>, count: u64, size: u32, free: u32) -> Result<(), AllocError>
    ensures { OnOk result (text.new.items ≡ text.old.items ++ full_text count size free) }
{
    push_parts(
        text,
        &[
            Part::Word("no room for "),
            Part::Counted(count, "buffer"),
            Part::Word(" of "),
            Part::Counted((size as u64 + (PAGE - 1)) / PAGE, "page"),
            Part::Word("; "),
            Part::Number(free as u64),
            Part::Word(" free"),
        ],
    )
}

// Appends that the buffers of the collection are smaller than is asked for.
fn push_small(text: &mut Vec<u8>, scene: &Snapshot, size: u32) -> Result<(), AllocError>
    ensures { OnOk result (text.new.items ≡ text.old.items ++ small_text scene.now.buffers size) }
{
    push_parts(
        text,
        &[
            Part::Word("it asks for "),
            Part::Counted(size as u64, "byte"),
            Part::Word(", and each buffer has "),
            Part::Number(size_of(scene.buffers) as u64),
        ],
    )
}

// How many bytes each of the buffers has.
fn size_of(given: Option<Buffers>) -> u32
    ensures { result ≡ size_in given }
{
    match given {
        Some(given) => given.size,
        None => 0,
    }
}

// Appends that the collection was given too few buffers.
fn push_few(text: &mut Vec<u8>, scene: &Snapshot, asks: TotalDemand) -> Result<(), AllocError>
    ensures { OnOk result (text.new.items ≡ text.old.items
        ++ few_text scene.now.nodes.items scene.now.buffers asks.camping asks.at_least) }
{
    let count = match scene.buffers {
        Some(given) => given.count,
        None => 0,
    };
    let taken = reserved(&scene.nodes);
    if (count as u128) < taken.saturating_add(asks.camping) {
        push_camped(text, shown(asks.camping), shown(taken), count as u64)
    } else {
        push_least(text, asks.at_least as u64, count as u64)
    }
}

// Appends that the unit camps on this many of the buffers, of which this many are taken.
fn push_camped(text: &mut Vec<u8>, camping: u64, taken: u64, count: u64) -> Result<(), AllocError>
    ensures { OnOk result (text.new.items ≡ text.old.items ++ camped_text camping taken count) }
{
    push_parts(
        text,
        &[
            Part::Word("it camps on "),
            Part::Number(camping),
            Part::Word(", with "),
            Part::Number(taken),
            Part::Word(" of "),
            Part::Counted(count, "buffer"),
            Part::Word(" reserved"),
        ],
    )
}

// Appends that the unit asks for this many buffers at least, and the collection has this many.
fn push_least(text: &mut Vec<u8>, at_least: u64, count: u64) -> Result<(), AllocError>
    ensures { OnOk result (text.new.items ≡ text.old.items ++ least_text at_least count) }
{
    push_parts(
        text,
        &[
            Part::Word("it asks for at least "),
            Part::Number(at_least),
            Part::Word(", and the collection has "),
            Part::Counted(count, "buffer"),
        ],
    )
}

// Appends the way up, if it has a link.
fn push_way(text: &mut Vec<u8>, tables: &Tables, way: &[NodeKey]) -> Result<(), AllocError>
    ensures { OnOk result ((names : Names) → Keeps tables.now names →
        text.new.items ≡ text.old.items ++ way_text names way.now) }
{
    if way.len() < 2 {
        return Ok(());
    }
    push_up(text, tables, way)
}

// Appends the way up.
fn push_up(text: &mut Vec<u8>, tables: &Tables, way: &[NodeKey]) -> Result<(), AllocError>
    ensures { OnOk result ((names : Names) → Keeps tables.now names →
        text.new.items ≡ text.old.items ++ up_text names way.now) }
{
    match way.split_first() {
        Some((first, others)) => {
            push(text, "  up      ")?;
            push_name(text, tables, *first)?;
            push_above(text, tables, others)?;
            push(text, "\n")
        }
        None => Ok(()),
    }
}

// Appends the nodes further up.
fn push_above(text: &mut Vec<u8>, tables: &Tables, others: &[NodeKey]) -> Result<(), AllocError>
    ensures { OnOk result ((names : Names) → Keeps tables.now names →
        text.new.items ≡ text.old.items ++ flat_map (next_above names) others.now) }
{
    for node in others {
        push_next(text, tables, *node)?;
    }
    Ok(())
}

// Appends a node further up.
fn push_next(text: &mut Vec<u8>, tables: &Tables, node: NodeKey) -> Result<(), AllocError>
    ensures { OnOk result ((names : Names) → Keeps tables.now names →
        text.new.items ≡ text.old.items ++ next_above names node) }
{
    push_parts(
        text,
        &[Part::Word(" > "), Part::Name(tables.birth_label(node))],
    )
}

// Appends why the failure climbs no further than this node, if it is no root.
fn push_stop(
    text: &mut Vec<u8>,
    tables: &Tables,
    stop: Stop,
    top: NodeKey,
) -> Result<(), AllocError>
    ensures { OnOk result ((names : Names) → Keeps tables.now names →
        text.new.items ≡ text.old.items ++ stop_text names stop top) }
{
    match stop {
        Stop::AtRoot => Ok(()),
        Stop::AtAttached(parent) => {
            push_parts(
                text,
                &[
                    Part::Word("  stops   at "),
                    Part::Name(tables.birth_label(top)),
                    Part::Word(", which is attached: "),
                    Part::Name(tables.birth_label(parent)),
                    Part::Word(" stays\n"),
                ],
            )
        }
        Stop::AtDispensable(parent) => {
            push_parts(
                text,
                &[
                    Part::Word("  stops   at "),
                    Part::Name(tables.birth_label(top)),
                    Part::Word(", which is dispensable and has its buffers: "),
                    Part::Name(tables.birth_label(parent)),
                    Part::Word(" stays\n"),
                ],
            )
        }
    }
}

// Appends a line for each node that hands on to children what takes it.
fn push_down(
    text: &mut Vec<u8>,
    tables: &Tables,
    nodes: &Vec<Node>,
    top: NodeKey,
    way: &[NodeKey],
) -> Result<(), AllocError>
    ensures { OnOk result ((names : Names) → Keeps tables.now names →
        text.new.items ≡ text.old.items ++ down_text names nodes.now.items top way.now) }
{
    let taken = taken_under(nodes, top)?;
    let rows = handed_on(&taken, way)?;
    push_handings(text, tables, &taken, &rows)
}

// Appends a line for each of the nodes that are taken and hand it on.
fn push_handings(
    text: &mut Vec<u8>,
    tables: &Tables,
    taken: &[Node],
    rows: &KeyRows<NodeKey>,
) -> Result<(), AllocError>
    ensures { OnOk result ((names : Names) → Keeps tables.now names → text.new.items
        ≡ text.old.items ++ flat_map (handed_by names (values_at rows.now)) taken.now) }
{
    for above in taken {
        push_handing(text, tables, above.key, rows.row(above.key))?;
    }
    Ok(())
}

// Appends a line of a node and those that it hands on to, if there are some.
fn push_handing(
    text: &mut Vec<u8>,
    tables: &Tables,
    above: NodeKey,
    below: &[NodeKey],
) -> Result<(), AllocError>
    ensures { OnOk result ((names : Names) → Keeps tables.now names →
        text.new.items ≡ text.old.items ++ handing_text names above below.now) }
{
    if below.is_empty() {
        return Ok(());
    }
    push_parts(
        text,
        &[
            Part::Word("  down    "),
            Part::Name(tables.birth_label(above)),
            Part::Word(" >"),
        ],
    )?;
    push_nodes(text, tables, below)?;
    push(text, "\n")
}
