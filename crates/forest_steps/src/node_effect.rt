//! An effect on one node: its counts are worked out once, and then written.
ghost use Rattle.std.specs.Option.{option_map_or};
ghost use Rattle.std.specs.Prelude.{◌≡◌, ◌+◌, ◌&&◌, ◌==◌, ◌<◌, ◌^◌, ◌↔◌, ℕ, List, Some, true, false, IfSome, IsSome};
ghost use Rattle.sm_names.specs.declared.keys.NodeKey.{NodeKey as Key};
ghost use Rattle.node_table.specs.Changes.{Writes};
ghost use Rattle.node_table.specs.Lending.{table_with_node};
ghost use Rattle.node_table.specs.Table.{node_at, row_at, table_len};
ghost use Rattle.forest_store.specs.declared.node.Node.{Node as NodeValue};
ghost use Rattle.forest_store.specs.Counts.{decrement_if, is_unready, unit_then};
ghost use Rattle.forest_store.specs.Due.{is_due_at};
ghost use Rattle.forest_store.specs.CollectionRows.{CollectionRow, is_strong};
ghost use Rattle.forest_store.specs.Nodes.{affected};
ghost use Rattle.forest_store.specs.Questions.{is_live_node};
ghost use Rattle.forest_store.specs.Reserved.{camped};
ghost use Rattle.forest_store.specs.Scenes.{has_tracker_room};
ghost use Rattle.forest_store.specs.Stores.{AreNamed, StoreAgrees};
ghost use Rattle.forest_steps.specs.NodeEffects.{IsWorkedOut, MayMake, keeps_counts};
ghost use Rattle.forest_steps.specs.StoreSteps.{EffectMadeIn};

use forest_store::change::Effect;
use forest_store::effects::affect_one;
use forest_store::entry::Entry;
use forest_store::lookup::{is_live, is_strong};
use forest_store::node::Node;
use forest_store::removed_nodes::recount;
use forest_store::reserved::{camped, exchanged};
use forest_store::store::NodeStore;
use forest_store::unit_counts::{Unit, decrement_if, is_unready, put_unit, unit_in};
use node_table::NodeTable;
use sm_names::NodeKey;

/// What is counted once an effect is made on a node: of the node's unit, and of its collection.
#[derive(Clone, Copy)]
pub struct EffectCounts {
    /// The head of the unit.
    pub head: NodeKey,
    /// What is counted of the unit.
    pub unit: Unit,
    /// The unit waited for the node, waits for none then, and gets its buffers next.
    pub due: bool,
    /// How many strong nodes of the collection are live.
    pub strong: usize,
    /// How many buffers are reserved in the collection, if a number holds the sum on the way.
    pub reserved: Option<u128>,
}

/// An effect on a node, worked out before it is made.
#[derive(Clone, Copy)]
pub struct NodeEffect {
    /// The key of the node.
    pub key: NodeKey,
    /// What the call makes of the node.
    pub effect: Effect,
    /// What is counted then. `None` where the effect changes no count.
    pub counts: Option<EffectCounts>,
}

/// Whether the effect changes none of the counts: it neither releases its node nor makes it weak, nor
/// sets its constraints. Costs O(1).
#[inline(always)]
pub fn keeps_counts(effect: &Effect) -> bool
    ensures { result ≡ keeps_counts effect.now }
{
    match *effect {
        Effect::Bound | Effect::Dispensable | Effect::WeakOk(_) | Effect::Taken | Effect::Tracked =>
            true,
        Effect::Weak | Effect::Constrained(_) | Effect::Released => false,
    }
}

/// Whether the node is live and strong after the effect on the one with this key.
fn is_strong_after(node: &Node, key: NodeKey, effect: &Effect) -> bool
    ensures { result ≡ is_strong (affected key effect.now node.now) }
{
    match *effect {
        Effect::Weak => is_live(node) && !(key == node.key || node.weak),
        Effect::Released => !node.gone && !(key == node.key || node.released) && !node.weak,
        Effect::Bound
        | Effect::Dispensable
        | Effect::WeakOk(_)
        | Effect::Constrained(_)
        | Effect::Taken
        | Effect::Tracked => is_strong(node),
    }
}

/// Whether the node is live after that effect.
fn is_live_after(node: &Node, key: NodeKey, effect: &Effect) -> bool
    ensures { result ≡ is_live_node (affected key effect.now node.now) }
{
    match *effect {
        Effect::Released => !node.gone && !(key == node.key || node.released),
        Effect::Bound
        | Effect::Dispensable
        | Effect::Weak
        | Effect::WeakOk(_)
        | Effect::Constrained(_)
        | Effect::Taken
        | Effect::Tracked => is_live(node),
    }
}

/// Whether its unit waits for the node after that effect.
fn is_unready_after(node: &Node, key: NodeKey, effect: &Effect) -> bool
    ensures { result ≡ is_unready (affected key effect.now node.now) }
{
    match *effect {
        Effect::Constrained(_) | Effect::Released => key != node.key && is_unready(node),
        Effect::Bound
        | Effect::Dispensable
        | Effect::Weak
        | Effect::WeakOk(_)
        | Effect::Taken
        | Effect::Tracked => is_unready(node),
    }
}

/// How many buffers the node camps on after that effect.
fn camped_after(node: &Node, key: NodeKey, effect: &Effect) -> u8
    ensures { result ≡ camped (affected key effect.now node.now) }
{
    match *effect {
        Effect::Constrained(demand) if key == node.key => camped(node, Some(demand)),
        Effect::Constrained(_)
        | Effect::Bound
        | Effect::Dispensable
        | Effect::Weak
        | Effect::WeakOk(_)
        | Effect::Taken
        | Effect::Released
        | Effect::Tracked => camped(node, node.constraints),
    }
}

/// Whether there is a node with this key in an allocated unit.
fn has_buffers(table: &NodeTable<Node>, key: NodeKey) -> bool
    ensures { result ≡ option_map_or (λ n. n.allocated) (node_at table.now key) false }
{
    match table.get(key) {
        Some(node) => node.allocated,
        None => false,
    }
}

/// Whether the unit with this head gets its buffers once it is ready: it has none yet, and the unit
/// above it has them, or there is none above.
fn is_due(table: &NodeTable<Node>, head: NodeKey) -> bool
    ensures { result ≡ is_due_at table.now head }
{
    if has_buffers(table, head) {
        return false;
    }
    match table.parent(head) {
        Some(above) => has_buffers(table, above),
        None => true,
    }
}

/// What is counted of the unit of this node, once the effect is made on the one with this key.
#[inline(always)]
fn unit_after(units: &[Unit], node: &Node, key: NodeKey, effect: &Effect) -> Unit
    ensures { result ≡ unit_then units.now node.now (affected key effect.now node.now) }
{
    let unit = unit_in(units, node.head.slot as usize);
    Unit {
        live: decrement_if(unit.live, is_live(node), is_live_after(node, key, effect)),
        unready: decrement_if(
            unit.unready,
            is_unready(node),
            is_unready_after(node, key, effect),
        ),
        below: unit.below,
    }
}

/// What is counted of this node's unit and of its collection, once the effect is made on the one with
/// this key. It reads the unit once, and where that becomes ready, its head and the node above. What is
/// reserved is `None` only where the sum on the way takes more than 128 bits.
#[inline(always)]
fn counts_after(
    nodes: &NodeStore,
    entry: &Entry,
    node: &Node,
    key: NodeKey,
    effect: &Effect,
) -> EffectCounts
    ensures head { result.head ≡ node.now.head }
    ensures unit { result.unit
        ≡ unit_then nodes.now.units.items node.now (affected key effect.now node.now) }
    ensures due { result.due ≡ (is_unready node.now
        && (result.unit.unready == 0 && is_due_at nodes.now.table node.now.head)) }
    ensures strong { result.strong ≡ decrement_if entry.now.strong (is_strong node.now)
        (is_strong (affected key effect.now node.now)) }
    ensures reserved { IfSome result.reserved (λ now. (real : ℕ) →
        real + camped node.now ≡ entry.now.reserved + camped (affected key effect.now node.now) →
        now ≡ real) }
    ensures fits { IsSome result.reserved
        ↔ (entry.now.reserved + camped (affected key effect.now node.now) < 2 ^ 128) }
{
    let unit = unit_after(&nodes.units, node, key, effect);
    EffectCounts {
        head: node.head,
        unit,
        due: is_unready(node) && unit.unready == 0 && is_due(&nodes.table, node.head),
        strong: decrement_if(
            entry.strong,
            is_strong(node),
            is_strong_after(node, key, effect),
        ),
        reserved: exchanged(
            entry.reserved,
            camped(node, node.constraints),
            camped_after(node, key, effect),
        ),
    }
}

/// Works the effect out on the node with this key of the entry's collection: counts what changes by it.
/// Costs O(1).
#[inline(always)]
pub fn work_out(nodes: &NodeStore, entry: &Entry, key: NodeKey, effect: Effect) -> NodeEffect
    requires { IsSome (row_at nodes.now.table key) }
    ensures key { result.key ≡ key }
    ensures effect { result.effect ≡ effect }
    ensures worked { IsWorkedOut nodes.now entry.now result }
{
    let node = nodes.table.kept(key);
    let counts = counts_after(nodes, entry, node, key, &effect);
    NodeEffect {
        key,
        effect,
        counts: Some(counts),
    }
}

/// Makes the effect on the node with this key.
#[inline(always)]
fn affect_at(table: &mut NodeTable<Node>, key: NodeKey, effect: &Effect)
    requires there { IsSome (row_at table.old key) }
    requires room { (n : NodeValue) → node_at table.old key ≡ Some n →
        has_tracker_room key effect.now n ≡ true }
    ensures becomes { (n : NodeValue) → node_at table.old key ≡ Some n →
        table.new ≡ table_with_node table.old key (affected key effect.now n) }
    ensures writes { (n : NodeValue) → node_at table.old key ≡ Some n →
        Writes table.old table.new key (affected key effect.now n) }
{
    affect_one(table.kept_mut(key), key, effect);
}

/// Makes the effect on its node, and writes what is counted then, of the node's unit and of its
/// collection. Costs O(1), but for a sum of what is reserved that no number holds, which costs
/// a pass over the nodes. Takes no memory.
#[inline(always)]
pub(crate) fn make_effect(nodes: &mut NodeStore, entry: &mut Entry, made: &NodeEffect)
    requires named { AreNamed nodes.old.table }
    requires may { MayMake nodes.old entry.old made.now }
    ensures affected { (ss : List CollectionRow) (n : NodeValue) →
        node_at nodes.old.table made.now.key ≡ Some n →
        n.gone ≡ false → n.collection ≡ entry.old.id →
        StoreAgrees nodes.old.table nodes.old.units.items ss entry.old →
        EffectMadeIn nodes.old nodes.new ss entry.old entry.new
        made.now.key made.now.effect n.head }
    ensures becomes { (n : NodeValue) → node_at nodes.old.table made.now.key ≡ Some n →
        nodes.new.table
        ≡ table_with_node nodes.old.table made.now.key (affected made.now.key made.now.effect n) }
    ensures writes { (n : NodeValue) → node_at nodes.old.table made.now.key ≡ Some n →
        Writes nodes.old.table nodes.new.table made.now.key
        (affected made.now.key made.now.effect n) }
    ensures named { AreNamed nodes.new.table }
    ensures there { (at : Key) → IsSome (row_at nodes.old.table at) →
        IsSome (row_at nodes.new.table at) }
    ensures len { table_len nodes.new.table ≡ table_len nodes.old.table }
{
    affect_at(&mut nodes.table, made.key, &made.effect);
    let Some(counts) = &made.counts else {
        return;
    };
    put_unit(&mut nodes.units, counts.head.slot as usize, counts.unit);
    entry.strong = counts.strong;
    entry.reserved = match counts.reserved {
        Some(reserved) => reserved,
        None => recount(&nodes.table, entry.keys.as_slice()).reserved,
    };
}
