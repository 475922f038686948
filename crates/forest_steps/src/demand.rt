//! What nodes ask of the buffers together.
ghost use Rattle.std.specs.Prelude.{◌≡◌, None, if◌then◌else◌};
ghost use Rattle.forest_store.specs.Questions.{is_in_unit};
ghost use Rattle.forest_steps.specs.Refusing.{refusal as why};

use forest_store::node::Node;
use sm_names::{Buffers, Constraints, Failure, NodeKey};

/// How many buffers are camped on, how many there are to be at least, and how many bytes each is
/// to have at least.
#[derive(Clone, Copy)]
pub struct TotalDemand {
    pub camping: u128,
    pub at_least: u8,
    pub size: u32,
}

/// What the node asks for, if it is in the unit with this head and not gone. O(1).
pub fn unit_demand(node: &Node, head: NodeKey) -> Option<Constraints>
    ensures { result ≡ (if is_in_unit head node.now then node.now.constraints else None) }
{
    if !node.gone && node.head == head {
        node.constraints
    } else {
        None
    }
}

/// Why the buffers are not enough, of which this many are reserved, where this is asked for besides:
/// they are too few, or else too small. O(1).
pub fn refusal(buffers: Buffers, reserved: u128, asks: &TotalDemand) -> Option<Failure>
    ensures { result ≡ why buffers reserved asks.now.camping asks.now.at_least asks.now.size }
{
    let count = buffers.count as u128;
    let is_above = match reserved.checked_add(asks.camping) {
        Some(sum) => count < sum,
        None => true,
    };
    if is_above || count < asks.at_least as u128 {
        Some(Failure::TooFew)
    } else if buffers.size < asks.size {
        Some(Failure::TooSmall)
    } else {
        None
    }
}
