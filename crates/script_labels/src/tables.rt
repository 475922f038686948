//! What the labels of a script stand for.
ghost use Rattle.std.specs.Prelude.{◌≡◌, OnOk, Some, None, if◌then◌else◌};
ghost use Rattle.std.specs.HashMap.{get};
ghost use Rattle.std.specs.Option.{option_map_or};
ghost use Rattle.script_labels.specs.Names.{Names, act_of, labelled_buffer, labelled_client, label_of_node, label_of_root, label_of_tracker, names_after, no_names, labelled_node, labelled_tracker, with_labelled_client, with_labelled_node, with_labelled_tracker, for_new, for_tracker, act_binding, argument_named, ask_by, call_named, object_named};
ghost use Rattle.script_labels.specs.Tables.{Keeps};

use crate::act::{Act, Binds};
use script_lines::{BufferLabel, Label, LabelHash, Line, Request};
use sm_names::{
    Argument, BufferName, Call, CallParts, ClientId, CollectionId, NodeKey, Object, Product, Reply,
    TrackerId, call_of, row_of,
};
use std::alloc::{AllocError, Global};
use std::collections::HashMap;
use std::hash::Hash;

/// What each label stands for, and the labels of nodes, of collections' roots and of trackers. A
/// script picks its labels, so tables hash them from a seed; keys and numbers come from the core.
#[derive(Drop)]
pub struct Tables {
    pub(crate) clients: HashMap<Label, ClientId, LabelHash>,
    // Each node with its collection.
    pub(crate) nodes: HashMap<Label, (NodeKey, CollectionId), LabelHash>,
    pub(crate) trackers: HashMap<Label, TrackerId, LabelHash>,
    pub(crate) births: HashMap<NodeKey, Label>,
    pub(crate) roots: HashMap<CollectionId, Label>,
    pub(crate) tracked: HashMap<TrackerId, Label>,
}

impl Tables {
    /// No label stands for anything. Costs O(1).
    pub fn new(alloc: Global, labels: LabelHash) -> Tables
        ensures { Keeps result no_names }
    {
        Tables {
            clients: HashMap::with_hasher(alloc, labels),
            nodes: HashMap::with_hasher(alloc, labels),
            trackers: HashMap::with_hasher(alloc, labels),
            births: HashMap::new(alloc),
            roots: HashMap::new(alloc),
            tracked: HashMap::new(alloc),
        }
    }

    /// The client of this label, if it stands for one. Costs a look-up.
    pub fn client(&self, label: Label) -> Option<ClientId>
        ensures { (names : Names) → Keeps self.now names → result ≡ labelled_client names label }
    {
        self.clients.get(&label).copied()
    }

    /// The node of this label, if it stands for one. Costs a look-up.
    pub fn node(&self, label: Label) -> Option<NodeKey>
        ensures { (names : Names) → Keeps self.now names → result ≡ labelled_node names label }
    {
        match self.nodes.get(&label) {
            Some((node, _)) => Some(*node),
            None => None,
        }
    }

    // The buffer of this label.
    fn buffer(&self, label: BufferLabel) -> Option<BufferName>
        ensures { (names : Names) → Keeps self.now names → result ≡ labelled_buffer names label }
    {
        match self.nodes.get(&label.node) {
            Some((_, collection)) => Some(BufferName {
                collection: *collection,
                index: label.index,
            }),
            None => None,
        }
    }

    /// The tracker of this label, if it stands for one. Costs a look-up.
    pub fn tracker(&self, label: Label) -> Option<TrackerId>
        ensures { (names : Names) → Keeps self.now names → result ≡ labelled_tracker names label }
    {
        self.trackers.get(&label).copied()
    }

    /// The label under which the node was born. Costs a look-up.
    pub fn birth_label(&self, node: NodeKey) -> Option<Label>
        ensures { (names : Names) → Keeps self.now names → result ≡ label_of_node names node }
    {
        self.births.get(&node).copied()
    }

    /// The label of the collection's root. Costs a look-up.
    pub fn root_label(&self, collection: CollectionId) -> Option<Label>
        ensures { (names : Names) → Keeps self.now names →
            result ≡ label_of_root names collection }
    {
        self.roots.get(&collection).copied()
    }

    /// The label of the tracker. Costs a look-up.
    pub fn tracker_label(&self, tracker: TrackerId) -> Option<Label>
        ensures { (names : Names) → Keeps self.now names →
            result ≡ label_of_tracker names tracker }
    {
        self.tracked.get(&tracker).copied()
    }

    // Lets the label stand for a client.
    fn bind_client(&mut self, label: Label, client: ClientId) -> Result<(), AllocError>
        ensures { OnOk result ((names : Names) → Keeps self.old names →
            Keeps self.new (with_labelled_client names label client)) }
    {
        self.clients.insert(label, client)?;
        Ok(())
    }

    // Lets the label stand for a node. It is the node's own, and its collection's, if they have
    // none.
    fn bind_node(
        &mut self,
        label: Label,
        node: NodeKey,
        collection: CollectionId,
    ) -> Result<(), AllocError>
        ensures { OnOk result ((names : Names) → Keeps self.old names →
            Keeps self.new (with_labelled_node names label node collection)) }
    {
        self.nodes.insert(label, (node, collection))?;
        name_once(&mut self.births, node, label)?;
        name_once(&mut self.roots, collection, label)?;
        Ok(())
    }

    // Lets the label stand for a tracker.
    fn bind_tracker(&mut self, label: Label, tracker: TrackerId) -> Result<(), AllocError>
        ensures { OnOk result ((names : Names) → Keeps self.old names →
            Keeps self.new (with_labelled_tracker names label tracker)) }
    {
        self.trackers.insert(label, tracker)?;
        name_once(&mut self.tracked, tracker, label)?;
        Ok(())
    }

    /// Binds what the reply made, or named for the first time.
    ///
    /// `AllocError` where memory is refused: then some of this may be left out. Costs a look-up of each
    /// label.
    pub fn bind(&mut self, binds: Binds, reply: Reply) -> Result<(), AllocError>
        ensures { OnOk result ((names : Names) → Keeps self.old names →
            Keeps self.new (names_after names binds reply)) }
    {
        match (binds, reply) {
            (Binds::Client(label), Reply::Joined(client)) => self.bind_client(label, client),
            (Binds::Node(label), Reply::Token { key, collection }) => {
                self.bind_node(label, key, collection)
            }
            (
                Binds::Node(label),
                Reply::Collected {
                    key,
                    collection,
                    ..
                },
            ) => self.bind_node(label, key, collection),
            (Binds::Tracker(label), Reply::Tracker(tracker)) => self.bind_tracker(label, tracker),
            _ => Ok(()),
        }
    }

    /// What the line asks for, or `None` if it is bad: a label that it uses stands for nothing, or one that it
    /// binds stands for something. Costs a look-up of each label.
    pub fn act(&self, line: Line) -> Option<Act>
        ensures { (names : Names) → Keeps self.now names → result ≡ act_of names line }
    {
        match line {
            Line::Nothing => Some(Act::Nothing),
            Line::Join { client } => self.join(client),
            Line::Ask { client, request } => match self.client(client) {
                Some(client) => self.ask(client, &request),
                None => None,
            },
            Line::Poll { client, tracker } => self.poll(client, tracker),
            Line::Show { view } => Some(Act::Show(view)),
        }
    }

    // What a client asks, or `None` where a label is not as it must be.
    fn ask(&self, client: ClientId, request: &Request<Label, BufferLabel>) -> Option<Act>
        ensures { (names : Names) → Keeps self.now names →
            result ≡ ask_by names client request.now }
    {
        match self.call(request) {
            Some(call) => self.binding(row_of(request.kind).brings, client, call, request.binds),
            None => None,
        }
    }

    // The call that is asked for.
    fn call(&self, request: &Request<Label, BufferLabel>) -> Option<Call>
        ensures { (names : Names) → Keeps self.now names →
            result ≡ call_named names request.now }
    {
        match (self.object(request.object), self.argument(request.argument)) {
            (Some(object), Some(argument)) => call_of(CallParts {
                kind: request.kind,
                object,
                argument,
            }),
            _ => None,
        }
    }

    // What the labels stand for that a call is made on.
    fn object(&self, object: Object<Label, BufferLabel>) -> Option<Object<NodeKey, BufferName>>
        ensures { (names : Names) → Keeps self.now names →
            result ≡ object_named names object }
    {
        match object {
            Object::Nothing => Some(Object::Nothing),
            Object::Node(node) => match self.node(node) {
                Some(node) => Some(Object::Node(node)),
                None => None,
            },
            Object::Buffer(buffer) => match self.buffer(buffer) {
                Some(buffer) => Some(Object::Buffer(buffer)),
                None => None,
            },
        }
    }

    // What else the call says, by the clients that labels stand for.
    fn argument(&self, argument: Argument<Label>) -> Option<Argument<ClientId>>
        ensures { (names : Names) → Keeps self.now names →
            result ≡ argument_named names argument }
    {
        match argument {
            Argument::Nothing => Some(Argument::Nothing),
            Argument::Client(to) => match self.client(to) {
                Some(to) => Some(Argument::Client(to)),
                None => None,
            },
            Argument::Children(children) => Some(Argument::Children(children)),
            Argument::Constraints(constraints) => Some(Argument::Constraints(constraints)),
            Argument::Most(most) => Some(Argument::Most(most)),
            Argument::Strength(strength) => Some(Argument::Strength(strength)),
            Argument::Gift(strength, to) => match self.client(to) {
                Some(to) => Some(Argument::Gift(strength, to)),
                None => None,
            },
        }
    }

    // The call as an act, where the label that is to be bound, if there is one, is still free.
    fn binding(
        &self,
        product: Product,
        client: ClientId,
        call: Call,
        binds: Option<Label>,
    ) -> Option<Act>
        ensures { (names : Names) → Keeps self.now names →
            result ≡ act_binding names product client call binds }
    {
        match binds {
            None => Some(Act::Ask {
                client,
                call,
                binds: Binds::Nothing,
            }),
            Some(label) => {
                if product.is_tracker() {
                    self.for_tracker(client, call, label)
                } else {
                    self.for_new(client, call, label)
                }
            }
        }
    }

    // A client joins under a label that is still free.
    fn join(&self, label: Label) -> Option<Act>
        ensures { (names : Names) → Keeps self.now names →
            result ≡ act_of names (Line.Join label) }
    {
        if self.client(label).is_some() {
            return None;
        }
        Some(Act::Ask {
            client: 0,
            call: Call::Join,
            binds: Binds::Client(label),
        })
    }

    // A client looks at a tracker, its own or another's.
    fn poll(&self, client: Label, tracker: Label) -> Option<Act>
        ensures { (names : Names) → Keeps self.now names →
            result ≡ act_of names (Line.Poll client tracker) }
    {
        match (self.client(client), self.tracker(tracker)) {
            (Some(_), Some(tracker)) => Some(Act::Poll(tracker)),
            _ => None,
        }
    }

    // A call that makes or brings a node, under a label that is still free.
    fn for_new(&self, client: ClientId, call: Call, label: Label) -> Option<Act>
        ensures { (names : Names) → Keeps self.now names →
            result ≡ for_new names label (Act.Ask client call (Binds.Node label)) }
    {
        if self.node(label).is_some() {
            return None;
        }
        Some(Act::Ask {
            client,
            call,
            binds: Binds::Node(label),
        })
    }

    // A call that makes a tracker, under a label that is still free.
    fn for_tracker(&self, client: ClientId, call: Call, label: Label) -> Option<Act>
        ensures { (names : Names) → Keeps self.now names →
            result ≡ for_tracker names label (Act.Ask client call (Binds.Tracker label)) }
    {
        if self.tracker(label).is_some() {
            return None;
        }
        Some(Act::Ask {
            client,
            call,
            binds: Binds::Tracker(label),
        })
    }
}

// Keeps the first label of what the key stands for.
fn name_once<K: Copy + Drop + Eq + Hash>(
    labels: &mut HashMap<K, Label>,
    key: K,
    label: Label,
) -> Result<(), AllocError>
    ensures { OnOk result ((other : K) →
        get K.eq labels.new other ≡ option_map_or Some (get K.eq labels.old other)
        (if K.eq key other then Some label else None)) }
{
    if labels.contains_key(&key) {
        return Ok(());
    }
    labels.insert(key, label)?;
    Ok(())
}
