//! For whom an allocation waits.
ghost use Rattle.std.specs.Prelude.{◌≡◌, IfOk};
ghost use Rattle.std.specs.List.{filter};
ghost use Rattle.event_facts.specs.Facts.{is_awaited};

use forced_marks::questions::is_live;
use forest_store::Node;
use sm_names::NodeKey;
use std::alloc::AllocError;

/// The nodes of the unit with this head that its allocation waits for, by birth: those that are live and
/// have no constraints. Costs O(n) for n nodes.
pub fn awaited(nodes: &Vec<Node>, head: NodeKey) -> Result<Vec<Node>, AllocError>
    ensures { IfOk result (λ found. found.items ≡ filter (is_awaited head) nodes.now.items) }
{
    let mut found = Vec::new(*nodes.allocator());
    for node in nodes {
        if is_waited_for(head, node) {
            found.push(*node)?;
        }
    }
    Ok(found)
}

// Whether the unit with this head waits for the node.
fn is_waited_for(head: NodeKey, node: &Node) -> bool
    ensures { result ≡ is_awaited head node.now }
{
    node.head == head && is_live(node) && node.constraints.is_none()
}
