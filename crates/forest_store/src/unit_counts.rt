//! What is counted of units: how many of their nodes are live, for how many they wait, and how many
//! units hang right below them.
ghost use Rattle.std.specs.Prelude.{◌≡◌, ◌<◌, ◌≤◌, [], ◌∷◌, set, true, length, Some, OnOk};
ghost use Rattle.node_table.specs.Table.{node_at, table_len};
ghost use Rattle.forest_store.specs.declared.node.Node.{Node as NodeValue};
ghost use Rattle.forest_store.specs.Counts.{Extends, decrement_if, head_above, head_of, counted_above, is_held_by, is_unready};
ghost use Rattle.forest_store.specs.Counts.{no_unit, increment_if, counted_both, counted_own, unit_at, with_below, with_node};
ghost use Rattle.forest_store.specs.CollectionRows.{nodes_with};
ghost use Rattle.forest_store.specs.Questions.{is_live_node};

use crate::node::Node;
use node_table::NodeTable;
use sm_names::{NoMemory, NodeKey};

/// The counts of one unit.
#[derive(Clone, Copy)]
pub struct Unit {
    /// Its live nodes.
    pub live: usize,
    /// Its nodes that are not gone, neither released nor with constraints.
    pub unready: usize,
    /// The attached nodes that are not gone whose parents are its nodes: the heads right below it.
    pub below: usize,
}

/// The counts of a unit without a node.
pub(crate) fn no_unit() -> Unit
    ensures { result ≡ no_unit }
{
    Unit {
        live: 0,
        unready: 0,
        below: 0,
    }
}

/// Whether something holds the unit: a node of it is live, or a unit hangs right below it.
pub fn is_held_by(unit: &Unit) -> bool
    ensures { result ≡ is_held_by unit.now }
{
    unit.live > 0 || unit.below > 0
}

/// Whether its unit waits for the node.
pub fn is_unready(node: &Node) -> bool
    ensures { result ≡ is_unready node.now }
{
    !node.gone && !node.released && node.constraints.is_none()
}

/// One less, if it counted and counts no longer.
pub fn decrement_if(count: usize, was: bool, is: bool) -> usize
    ensures { result ≡ decrement_if count was is }
{
    if was && !is && count > 0 {
        count - 1
    } else {
        count
    }
}

/// The counts in this slot.
pub fn unit_in(units: &[Unit], slot: usize) -> Unit
    ensures { result ≡ unit_at units.now slot }
{
    match units.get(slot) {
        Some(unit) => *unit,
        None => no_unit(),
    }
}

/// Puts the counts into this slot, if the list has it.
pub fn put_unit(units: &mut Vec<Unit>, slot: usize, unit: Unit)
    ensures { units.new.items ≡ set units.old.items slot unit }
{
    if slot < units.len() {
        units[slot] = unit;
    }
}

/// Makes the list reach to this slot. The slots that this adds count nothing. `NoMemory` comes where
/// that was refused room; the counts are then what they were. Costs what is added, growth spread
/// over the calls.
pub fn grow_to(units: &mut Vec<Unit>, slot: usize) -> Result<(), NoMemory>
    ensures ok { OnOk result (slot < length units.new.items) }
    ensures extends { Extends units.old.items units.new.items }
{
    'on: while units.len() <= slot {
        if units.push(no_unit()).is_err() {
            return Err(NoMemory);
        }
    }
    Ok(())
}

/// One more, if it counts and there is room for it.
fn increment_if(count: usize, is: bool) -> usize
    ensures { result ≡ increment_if is count }
{
    if is && count < usize::MAX {
        count + 1
    } else {
        count
    }
}

/// Counts one more node for the unit with this head, which is live and not ready.
#[inline(always)]
fn count_unready(units: &mut Vec<Unit>, head: NodeKey)
    ensures { (n : NodeValue) → n.head ≡ head → is_live_node n ≡ true → is_unready n ≡ true →
        units.new.items ≡ with_node n units.old.items }
{
    let slot = head.slot as usize;
    let unit = unit_in(units, slot);
    let more = Unit {
        live: increment_if(unit.live, true),
        unready: increment_if(unit.unready, true),
        below: unit.below,
    };
    put_unit(units, slot, more);
}

/// The head of the unit right above the one that the node heads, if it heads one and is not gone.
pub(crate) fn head_above(table: &NodeTable<Node>, node: &Node) -> Option<NodeKey>
    ensures { result ≡ head_above table.now node.now }
{
    if node.gone || !node.attached {
        return None;
    }
    match table.get(node.parent?) {
        Some(above) => Some(above.head),
        None => None,
    }
}

/// Counts one unit more right below the one with this head.
fn count_below(units: &mut Vec<Unit>, head: Option<NodeKey>)
    ensures { units.new.items ≡ with_below head units.old.items }
{
    if let Some(head) = head {
        let slot = head.slot as usize;
        let unit = unit_in(units, slot);
        let more = Unit {
            live: unit.live,
            unready: unit.unready,
            below: increment_if(unit.below, true),
        };
        put_unit(units, slot, more);
    }
}

/// Counts a node that was just born, for its unit and for the one right above that.
#[inline(always)]
pub(crate) fn count_born(units: &mut Vec<Unit>, table: &NodeTable<Node>, node: &Node)
    requires live { is_live_node node.now ≡ true }
    requires unready { is_unready node.now ≡ true }
    requires there { node_at table.now node.now.key ≡ Some node.now }
    ensures { units.new.items
        ≡ counted_both table.now (nodes_with table.now (node.now.key ∷ [])) units.old.items }
{
    count_unready(units, node.head);
    count_below(units, head_above(table, node));
}

/// No table has more nodes than a number can tell.
pub fn assert_bounded(table: &NodeTable<Node>)
    ensures { table_len table.now ≤ 18446744073709551615 }
{
    let _ = table.len();
}
