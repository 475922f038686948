//! Who keeps the pages of a buffer.
ghost use Rattle.std.specs.Prelude.{◌≡◌, ◌++◌, IfOk, OnOk, map};
ghost use Rattle.std.specs.List.{filter};
ghost use Rattle.forest_store.specs.declared.node.Node.{Node as NodeValue};
ghost use Rattle.event_facts.specs.Facts.{client_holds, holders_with, holders_in, is_keeper};

use forced_marks::questions::is_live;
use forest_store::Node;
use lifetime_core::Core;
use sm_names::{BufferName, ClientId, NodeKey, Strength};
use std::alloc::AllocError;

/// This many open handles of a strength, of a client, or in parcels where there is no client.
#[derive(Clone, Copy, PartialEq, Eq)]
pub struct Holder {
    pub client: Option<ClientId>,
    pub strength: Strength,
    pub count: u32,
}

/// The strong nodes that are live, by birth. Costs O(n) for n nodes.
pub fn strong_live(nodes: &Vec<Node>) -> Result<Vec<NodeKey>, AllocError>
    ensures { IfOk result (λ keys. keys.items
        ≡ map (λ (n : NodeValue). n.key) (filter is_keeper nodes.now.items)) }
{
    let mut keys = Vec::new(*nodes.allocator());
    for node in nodes {
        if keeps(node) {
            keys.push(node.key)?;
        }
    }
    Ok(keys)
}

// Whether the node is live and strong.
fn keeps(node: &Node) -> bool
    ensures { result ≡ is_keeper node.now }
{
    is_live(node) && !node.weak
}

/// Who has handles on the buffer open, and how many: these clients in their order, strong before weak,
/// and the parcels last. Costs a look-up for each client and strength.
pub fn holders(
    core: &Core,
    clients: &Vec<ClientId>,
    buffer: BufferName,
) -> Result<Vec<Holder>, AllocError>
    ensures { IfOk result (λ found. found.items
        ≡ holders_in core.now.holds clients.now.items buffer) }
{
    let mut found = Vec::new(*clients.allocator());
    for client in clients {
        add_client(&mut found, core, *client, buffer)?;
    }
    let strong = core.handles_in_parcels(buffer, Strength::Strong);
    add(&mut found, None, Strength::Strong, strong)?;
    let weak = core.handles_in_parcels(buffer, Strength::Weak);
    add(&mut found, None, Strength::Weak, weak)?;
    Ok(found)
}

// The handles of the client go behind the others, strong before weak.
fn add_client(
    found: &mut Vec<Holder>,
    core: &Core,
    client: ClientId,
    buffer: BufferName,
) -> Result<(), AllocError>
    ensures { OnOk result (found.new.items
        ≡ found.old.items ++ client_holds core.now.holds buffer client) }
{
    let strong = core.open_handles(client, buffer, Strength::Strong);
    add(found, Some(client), Strength::Strong, strong)?;
    let weak = core.open_handles(client, buffer, Strength::Weak);
    add(found, Some(client), Strength::Weak, weak)
}

// The handles go behind the others, if there are some.
fn add(
    found: &mut Vec<Holder>,
    client: Option<ClientId>,
    strength: Strength,
    count: u32,
) -> Result<(), AllocError>
    ensures { OnOk result
        (found.new.items ≡ found.old.items ++ holders_with client strength count) }
{
    if 0 < count {
        found.push(Holder {
            client,
            strength,
            count,
        })?;
    }
    Ok(())
}
