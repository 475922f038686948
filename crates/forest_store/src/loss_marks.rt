//! How a node is marked gone, and how the counts of its unit lose it.
ghost use Rattle.std.specs.Prelude.{◌≡◌, ◌+◌, Some, true};
ghost use Rattle.forest_store.specs.LossMarks.{gone_by, lowered, without_below, without_node};
ghost use Rattle.forest_store.specs.Nodes.{lost};

use crate::lookup::is_live;
use crate::node::Node;
use crate::unit_counts::{Unit, is_unready, put_unit, unit_in};
use sm_names::{Fault, NodeKey};

/// One less, if it counted and there is one.
fn lowered(count: usize, is: bool) -> usize
    ensures { result ≡ lowered is count }
{
    if is && 0 < count { count - 1 } else { count }
}

/// Takes the node from the counts of its unit.
pub(crate) fn uncount(units: &mut Vec<Unit>, node: &Node)
    ensures { units.new.items ≡ without_node node.now units.old.items }
{
    let slot = node.head.slot as usize;
    let unit = unit_in(units, slot);
    let less = Unit {
        live: lowered(unit.live, is_live(node)),
        unready: lowered(unit.unready, is_unready(node)),
        below: unit.below,
    };
    put_unit(units, slot, less);
}

/// Takes one unit from those right below the unit with this head.
pub(crate) fn uncount_below(units: &mut Vec<Unit>, head: Option<NodeKey>)
    ensures { units.new.items ≡ without_below head units.old.items }
{
    if let Some(head) = head {
        let slot = head.slot as usize;
        let unit = unit_in(units, slot);
        let less = Unit {
            live: unit.live,
            unready: unit.unready,
            below: lowered(unit.below, true),
        };
        put_unit(units, slot, less);
    }
}

/// Why nodes are marked gone.
#[derive(Clone, Copy)]
pub enum RemovalKind {
    /// They fail.
    Fails(Fault),
    /// Their subtree ends: they have no fault.
    Leaves,
}

/// Marks the node gone. A node that is gone already keeps its fault.
pub(crate) fn remove_node(node: &mut Node, going: &RemovalKind)
    ensures { node.new ≡ gone_by going.now node.old }
{
    match going {
        RemovalKind::Fails(fault) => fail(node, true, *fault),
        RemovalKind::Leaves => node.gone = true,
    }
}

/// The node fails, if it is taken and is not gone yet.
pub(crate) fn fail(node: &mut Node, taken: bool, fault: Fault)
    ensures { node.new ≡ lost (λ _. taken) fault node.old }
{
    if taken && !node.gone {
        node.gone = true;
        node.fault = Some(fault);
    }
}
