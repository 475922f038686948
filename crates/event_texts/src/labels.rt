//! What clients and ends are called.
ghost use Rattle.std.specs.Prelude.{◌≡◌, ℕ, OnOk};
ghost use Rattle.event_texts.specs.Called.{Calls, client_label, last_label};
ghost use Rattle.script_labels.specs.Names.{Names, names_after, no_names, with_labelled_client, with_labelled_node};

use script_labels::Binds;
use script_lines::Label;
use sm_names::{ClientId, NodeKey, Reply};
use std::alloc::{AllocError, Global};
use std::collections::HashMap;

/// The label of each client, and the last one that each node got: that of its birth, or the last under
/// which its end was collected.
#[derive(Drop)]
pub struct Labels {
    clients: HashMap<ClientId, Label>,
    nodes: HashMap<NodeKey, Label>,
}

impl Labels {
    /// No labels. Costs O(1).
    pub fn new(alloc: Global) -> Labels
        ensures { Calls result no_names }
    {
        Labels {
            clients: HashMap::new(alloc),
            nodes: HashMap::new(alloc),
        }
    }

    // Takes note of what the reply made or brought.
    pub(crate) fn note(&mut self, binds: Binds, reply: Reply) -> Result<(), AllocError>
        ensures { OnOk result ((names : Names) → Calls self.old names →
            Calls self.new (names_after names binds reply)) }
    {
        match (binds, reply) {
            (Binds::Client(label), Reply::Joined(client)) => self.call_client(client, label),
            (Binds::Node(label), Reply::Token { key, .. }) => self.call_node(key, label),
            (Binds::Node(label), Reply::Collected { key, .. }) => self.call_node(key, label),
            _ => Ok(()),
        }
    }

    // From now on the client is called so.
    fn call_client(&mut self, client: ClientId, label: Label) -> Result<(), AllocError>
        ensures { OnOk result ((names : Names) → Calls self.old names →
            Calls self.new (with_labelled_client names label client)) }
    {
        self.clients.insert(client, label)?;
        Ok(())
    }

    // From now on the node is called so.
    fn call_node(&mut self, node: NodeKey, label: Label) -> Result<(), AllocError>
        ensures { OnOk result ((names : Names) (collection : ℕ) → Calls self.old names →
            Calls self.new (with_labelled_node names label node collection)) }
    {
        self.nodes.insert(node, label)?;
        Ok(())
    }

    /// The label of the client. Costs a look-up.
    pub fn client(&self, client: ClientId) -> Option<Label>
        ensures { (names : Names) → Calls self.now names → result ≡ client_label names client }
    {
        self.clients.get(&client).copied()
    }

    /// The label that the node got last: that of its birth, or the last under which its end was collected.
    /// Costs a look-up.
    pub fn last(&self, node: NodeKey) -> Option<Label>
        ensures { (names : Names) → Calls self.now names → result ≡ last_label names node }
    {
        self.nodes.get(&node).copied()
    }
}
