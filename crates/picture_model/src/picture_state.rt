//! All nodes that were ever born, as they were last seen, collection by collection.
ghost use Rattle.std.specs.Prelude.{◌≡◌, ◌==◌, ◌&&◌, ◌++◌, ◌∷◌, [], Bool, IfOk, List, OnOk, Some, if◌then◌else◌, map, ℕ, IfErr};
ghost use Rattle.std.specs.Option.{option_map};
ghost use Rattle.sm_names.specs.declared.keys.NodeKey.{NodeKey as Key};
ghost use Rattle.sm_names.specs.declared.messages.Call.{Call as CallMade};
ghost use Rattle.sm_names.specs.Marks.{Entry};
ghost use Rattle.core_state.specs.Shown.{Shows};
ghost use Rattle.core_state.specs.State.{State};
ghost use Rattle.forest_store.specs.declared.node.Node.{Node as NodeValue};
ghost use Rattle.forest_store.specs.Forest.{node_at};
ghost use Rattle.forest_store.specs.Nodes.{is_spent};
ghost use Rattle.forced_marks.specs.declared.decision.Forced.{Forced};
ghost use Rattle.forced_marks.specs.KeySets.{has};
ghost use Rattle.event_texts.specs.EventLines.{IsEventOf};
ghost use Rattle.picture_model.specs.PictureStates.{KnowsKept, after_mark, forgotten, known_after, known_in, left_below, left_if as left_as, marked, marked_in};
ghost use Rattle.picture_model.specs.PictureStates.{refreshed, seen_again, top_of, walked, with_named, with_told};
ghost use Rattle.picture_model.specs.Kin.{FindsNodes};
ghost use Rattle.picture_model.specs.Seen.{named_in};

use crate::tree_order::nodes_by_key;
use event_facts::failure_path::way_up;
use event_facts::{Event, KeyMap};
use forced_marks::key_sets::KeySet;
use forced_marks::node_sets::nodes_under;
use forced_marks::{Forced, Moment};
use forest_store::{End, Node};
use lifetime_core::Core;
use script_labels::LineStop;
use sm_names::{Call, CollectionId, Fault, NodeKey, Object, Reply, parts_of};
use std::alloc::{AllocError, Global};
use std::collections::BTreeMap;

/// All nodes that were ever born in each collection, by birth. A node that the core forgot stands as it was
/// when it was forgotten: gone, with its end spent.
#[derive(Drop)]
pub struct PictureState {
    pub(crate) families: BTreeMap<CollectionId, Vec<Node>>,
}

/// The collection of the node or the buffer that the call names, if that is kept. Costs a look-up.
pub fn named_collection(core: &Core, call: &Call) -> Option<CollectionId>
    ensures { result ≡ named_in core.now call.now }
{
    match parts_of(*call).object {
        Object::Nothing => None,
        Object::Node(key) => collection_of(core, key),
        Object::Buffer(buffer) => Some(buffer.collection),
    }
}

// The collection of the node with this key, if it is kept.
fn collection_of(core: &Core, key: NodeKey) -> Option<CollectionId>
    ensures { result ≡ option_map (λ n. n.collection) (node_at core.now.forest key) }
{
    match core.node(key) {
        Some(node) => Some(node.collection),
        None => None,
    }
}

impl PictureState {
    /// No nodes. Costs O(1).
    pub fn new(alloc: Global) -> PictureState
        ensures { (id : ℕ) → known_in result id ≡ [] }
    {
        PictureState {
            families: BTreeMap::new(alloc),
        }
    }

    /// Takes in what an event changed, whose call named this collection. If the event has a mark, its nodes are
    /// brought to their present state, those among them that the core forgot to the state that the walk of the
    /// event gave them last. A new node in the reply is added. So the picture state knows each node that the
    /// core keeps, if it did before.
    ///
    /// `NoMemory` where memory is refused: then some of this may be left out. Costs O(log m) for m collections,
    /// and where there is a mark O(n log n) for the n nodes that were ever born in the collection.
    pub fn update(
        &mut self,
        alloc: Global,
        core: &Core,
        named: Option<CollectionId>,
        event: &Event,
    ) -> Result<(), LineStop>
        ensures known { OnOk result ((id : ℕ) →
            known_in self.new id ≡ known_after core.now named event.now id (known_in self.old id)) }
        // The event leads from a core, each of whose nodes is known, to this core.
        ensures kept { OnOk result ((old : State) (client : ℕ) (call : CallMade)
            (history : List Entry) →
            Shows old history → IsEventOf old client call event.now → core.now.pool ≡ old.pool →
            Shows core.now (history ++ (client, call, event.now.reply) ∷ []) →
            KnowsKept old self.old → KnowsKept core.now self.new) }
        ensures err { IfErr result (λ stop. stop ≡ LineStop.NoMemory) }
    {
        let marked = marked_in(named, &event.moments);
        self.refresh_named(alloc, core, marked, &event.moments)?;
        self.add_told(alloc, core, event.reply)?;
        Ok(())
    }

    // Brings the nodes of the collection to their present state, behind these marks.
    fn refresh_named(
        &mut self,
        alloc: Global,
        core: &Core,
        named: Option<CollectionId>,
        moments: &[Moment],
    ) -> Result<(), AllocError>
        ensures { OnOk result ((id : ℕ) →
            known_in self.new id ≡ refreshed core.now named moments.now id (known_in self.old id)) }
    {
        match named {
            Some(id) => self.refresh(alloc, core, id, moments),
            None => Ok(()),
        }
    }

    // The same of the collection with this id.
    fn refresh(
        &mut self,
        alloc: Global,
        core: &Core,
        id: CollectionId,
        moments: &[Moment],
    ) -> Result<(), AllocError>
        ensures { OnOk result ((other : ℕ) → known_in self.new other
            ≡ refreshed core.now (Some id) moments.now other (known_in self.old other)) }
    {
        let later = last_walked(alloc, moments)?;
        match self.families.get(&id) {
            Some(nodes) => {
                let again = see_again(core, nodes, &later)?;
                self.put(id, again)
            }
            None => Ok(()),
        }
    }

    // Adds the node in the reply, if it is new.
    fn add_told(&mut self, alloc: Global, core: &Core, reply: Reply) -> Result<(), AllocError>
        ensures { OnOk result ((id : ℕ) →
            known_in self.new id ≡ with_told core.now reply id (known_in self.old id)) }
    {
        match reply {
            Reply::Token { key, collection } => self.add(alloc, core, key, collection),
            _ => Ok(()),
        }
    }

    // Puts the node behind those of its collection, in its present state.
    fn add(
        &mut self,
        alloc: Global,
        core: &Core,
        key: NodeKey,
        id: CollectionId,
    ) -> Result<(), AllocError>
        ensures { OnOk result ((other : ℕ) →
            known_in self.new other ≡ with_named core.now key id other (known_in self.old other)) }
    {
        match core.node(key) {
            Some(node) => self.add_node(alloc, id, &node),
            None => Ok(()),
        }
    }

    // Puts the node behind those of this collection.
    fn add_node(&mut self, alloc: Global, id: CollectionId, node: &Node) -> Result<(), AllocError>
        ensures { OnOk result ((other : ℕ) → known_in self.new other
            ≡ (if id == other then known_in self.old other ++ node.now ∷ [] else known_in self.old other)) }
    {
        let nodes = self.cut(alloc, id);
        let more = with_last(nodes, *node)?;
        self.put(id, more)
    }

    // The nodes of this collection, of which none is left here.
    fn cut(&mut self, alloc: Global, id: CollectionId) -> Vec<Node>
        ensures nodes { result.items ≡ known_in self.old id }
        ensures others { (other : ℕ) → known_in self.new other
            ≡ (if id == other then [] else known_in self.old other) }
    {
        match self.families.remove(&id) {
            Some(nodes) => nodes,
            None => Vec::new(alloc),
        }
    }

    // The collection has these nodes.
    fn put(&mut self, id: CollectionId, nodes: Vec<Node>) -> Result<(), AllocError>
        ensures { OnOk result ((other : ℕ) → known_in self.new other
            ≡ (if id == other then nodes.items else known_in self.old other)) }
    {
        self.families.insert(id, nodes)?;
        Ok(())
    }
}

// The values, and this one behind them.
fn with_last<V: Copy + Drop>(values: Vec<V>, last: V) -> Result<Vec<V>, AllocError>
    ensures { IfOk result (λ more. more.items ≡ values.items ++ last ∷ []) }
{
    let mut more = values;
    more.push(last)?;
    Ok(more)
}

// The collection that the call named, if its event has a mark.
fn marked_in(named: Option<CollectionId>, moments: &[Moment]) -> Option<CollectionId>
    ensures { result ≡ marked_in named moments.now }
{
    match moments.first() {
        Some(_) => named,
        None => None,
    }
}

// The nodes behind the last of these marks, each as the walk has it; none where there is no mark.
fn last_walked(alloc: Global, moments: &[Moment]) -> Result<Vec<Node>, AllocError>
    ensures { IfOk result (λ nodes. nodes.items ≡ walked moments.now) }
{
    match moments.split_last() {
        Some((moment, _)) => made(moment),
        None => Ok(Vec::new(alloc)),
    }
}

// The nodes behind a mark, each as the walk has it.
fn made(moment: &Moment) -> Result<Vec<Node>, AllocError>
    ensures { IfOk result (λ nodes. nodes.items
        ≡ marked moment.now.before.nodes.items moment.now.mark) }
{
    let nodes = &moment.before.nodes;
    match moment.mark {
        Forced::Allocated(_) => nodes.clone(),
        Forced::Ended(top) => left_under(nodes, top, None),
        Forced::Loss(fault) => lost_under(nodes, fault),
    }
}

// The nodes, once this fault took some.
fn lost_under(nodes: &Vec<Node>, fault: Fault) -> Result<Vec<Node>, AllocError>
    ensures { IfOk result (λ later. later.items ≡ marked nodes.now.items (Forced.Loss fault)) }
{
    let way = way_up(nodes, fault.origin)?;
    left_under(nodes, last_key(&way, fault.origin), Some(fault))
}

// The last of these keys, or this one.
pub(crate) fn last_key(keys: &[NodeKey], origin: NodeKey) -> NodeKey
    ensures { result ≡ top_of origin keys.now }
{
    match keys.split_last() {
        Some((key, _)) => *key,
        None => origin,
    }
}

// The nodes, of which the top one and those below it left by this fault, unless they had before.
fn left_under(
    nodes: &Vec<Node>,
    top: NodeKey,
    fault: Option<Fault>,
) -> Result<Vec<Node>, AllocError>
    ensures { IfOk result (λ later. later.items ≡ left_below nodes.now.items top fault) }
{
    let under = nodes_under(*nodes.allocator(), nodes, top)?;
    let later = left_among(nodes, &under, fault)?;
    Ok(later)
}

// The nodes, of which these left by this fault, unless they had before.
fn left_among(
    nodes: &Vec<Node>,
    under: &KeySet,
    fault: Option<Fault>,
) -> Result<Vec<Node>, AllocError>
    ensures { IfOk result (λ later. (below : Key → Bool) →
        ((key : Key) → has under.now key ≡ below key) →
        later.items ≡ map (left_as fault below) nodes.now.items) }
{
    let mut later = Vec::new(*nodes.allocator());
    for node in nodes {
        later.push(left_if(node, under, fault))?;
    }
    Ok(later)
}

// The node, which left by this fault, if it is one of these, unless it had before.
fn left_if(node: &Node, under: &KeySet, fault: Option<Fault>) -> Node
    ensures { (below : Key → Bool) → ((key : Key) → has under.now key ≡ below key) →
        result ≡ left_as fault below node.now }
{
    left_by(*node, !node.gone && under.has(node.key), fault)
}

// The node, once it left by this fault, if it is taken.
fn left_by(node: Node, taken: bool, fault: Option<Fault>) -> Node
    ensures { result ≡ after_mark fault taken node }
{
    let mut later = node;
    if taken {
        later.gone = true;
        later.fault = fault;
    }
    later
}

// The nodes as they are seen behind an event, whose walk left these.
fn see_again(core: &Core, nodes: &Vec<Node>, later: &Vec<Node>) -> Result<Vec<Node>, AllocError>
    ensures { IfOk result (λ again.
        again.items ≡ map (seen_again core.now later.now.items) nodes.now.items) }
{
    let walk = nodes_by_key(later)?;
    see_each(core, nodes, &walk)
}

// The same, where the nodes of the walk are found by their keys.
fn see_each(core: &Core, nodes: &Vec<Node>, walk: &KeyMap<Node>) -> Result<Vec<Node>, AllocError>
    ensures { IfOk result (λ again. (later : List NodeValue) → FindsNodes walk.now later →
        again.items ≡ map (seen_again core.now later) nodes.now.items) }
{
    let mut again = Vec::new(*nodes.allocator());
    for node in nodes {
        again.push(seen_after(core, node, walk))?;
    }
    Ok(again)
}

// The node as it is seen behind an event. One that was forgotten at the event has the state that the walk
// gave it last, if there was a walk, and its end is spent.
fn seen_after(core: &Core, node: &Node, walk: &KeyMap<Node>) -> Node
    ensures { (later : List NodeValue) → FindsNodes walk.now later →
        result ≡ seen_again core.now later node.now }
{
    if node.gone && has_spent(node) {
        return *node;
    }
    match core.node(node.key) {
        Some(present) => present,
        None => forget(node, walk),
    }
}

// Whether the node's end is spent.
fn has_spent(node: &Node) -> bool
    ensures { result ≡ is_spent node.now.end }
{
    match node.end {
        End::Held(_) | End::InTransit(_) => false,
        End::Spent => true,
    }
}

// The node once it was forgotten.
fn forget(node: &Node, walk: &KeyMap<Node>) -> Node
    ensures { (later : List NodeValue) → FindsNodes walk.now later →
        result ≡ forgotten later node.now }
{
    let mut behind = match walk.get(node.key) {
        Some(walked) => *walked,
        None => *node,
    };
    behind.gone = true;
    behind.end = End::Spent;
    behind
}
