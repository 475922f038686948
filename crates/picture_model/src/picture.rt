//! What a picture shows: the trees behind an event, and what that event did.
ghost use Rattle.std.specs.Prelude.{◌≡◌, ◌++◌, [], ◌∷◌, All, IfOk, List, OnOk, is_some, map, option_map, IfErr};
ghost use Rattle.std.specs.List.{filter};
ghost use Rattle.std.specs.Option.{option_map_or};
ghost use Rattle.sm_names.specs.Marks.{Entry};
ghost use Rattle.forest_store.specs.declared.node.Node.{Node as NodeValue};
ghost use Rattle.forest_store.specs.Forest.{Collection, collection_at};
ghost use Rattle.forest_store.specs.Snapshots.{collection_of};
ghost use Rattle.core_state.specs.Reads.{views_of};
ghost use Rattle.core_state.specs.Shown.{Shows};
ghost use Rattle.core_state.specs.State.{State};
ghost use Rattle.script_labels.specs.Names.{Names};
ghost use Rattle.script_labels.specs.Tables.{Keeps};
ghost use Rattle.event_texts.specs.MarkTexts.{mark_text};
ghost use Rattle.picture_model.specs.PictureStates.{KnowsKept};
ghost use Rattle.picture_model.specs.Kin.{FindsNodes};
ghost use Rattle.picture_model.specs.Seen.{IsTree, held_of_collection, seen_in};
ghost use Rattle.picture_model.specs.Shown.{ShowsEvent, ShowsKept, before_in, first_line, freed_since, has_gone, is_failure, is_shown, left_since, lists_of, told_in, tree_in, trees_of as trees_in, words_of};

use crate::failure_view::{Travel, travels};
use crate::picture_state::PictureState;
use crate::tree_order::nodes_by_key;
use event_facts::keepers::strong_live;
use event_facts::pages::given_back;
use event_facts::{Before, Event, KeyMap, placed_by};
use event_texts::EventWriter;
use forced_marks::{Forced, Moment};
use forest_store::{End, Node, Snapshot};
use lifetime_core::Core;
use script_labels::LineStop;
use script_lines::line_end;
use sm_names::{Buffers, CollectionId, HeldBuffer, NodeKey};
use std::alloc::{AllocError, Global};

/// A tree of a collection.
#[derive(Drop)]
pub struct Tree {
    pub id: CollectionId,
    /// All nodes that were ever born in it, by birth.
    pub nodes: Vec<Node>,
    /// Those that left at the event.
    pub left: Vec<NodeKey>,
    /// Its buffers with pages.
    pub held: Vec<HeldBuffer>,
    /// Those that gave their pages back at the event.
    pub freed: Vec<HeldBuffer>,
    /// The live strong nodes.
    pub strong: Vec<NodeKey>,
}

/// A mark in words, and whether it is a failure.
#[derive(Drop)]
pub struct ToldMark {
    pub fails: bool,
    pub line: Vec<u8>,
}

/// The trees behind an event, its marks, the links that its failures followed, and how many trackers had
/// fired before it.
#[derive(Drop)]
pub struct Picture {
    pub trees: Vec<Tree>,
    pub told: Vec<ToldMark>,
    pub travels: Vec<Travel>,
    pub fired: usize,
}

/// What is to be shown behind the last event, if there was one: a tree for each collection that is kept, or of which
/// the event took a node or gave pages back, in the order of their ids, with each of its nodes that the picture state
/// knows; each mark of the event, in the first line of its text; the links that its failures followed; and how many
/// trackers had fired before it.
///
/// `NoMemory` where memory is refused. Costs O(n log n) for the n nodes that were ever born in each
/// collection, and for those before each mark that is a failure; and the text of each mark.
pub fn picture_of(
    alloc: Global,
    event_writer: &EventWriter,
    picture_state: &PictureState,
    event: Option<&Event>,
) -> Result<Picture, LineStop>
    ensures shows { IfOk result (λ picture. (names : Names) →
        Keeps event_writer.now.session.tables names →
        ShowsEvent event_writer.now.session.core names picture_state.now
        (option_map (λ e. e.now) event.entry) picture) }
    ensures seen { IfOk result (λ picture.
        All (IsTree event_writer.now.session.core) picture.trees.items) }
    // No node that the core keeps is missing, if the picture state knows each.
    ensures kept { IfOk result (λ picture. (history : List Entry) →
        Shows event_writer.now.session.core history → KnowsKept event_writer.now.session.core picture_state.now →
        ShowsKept event_writer.now.session.core picture.trees.items) }
    ensures err { IfErr result (λ stop. stop ≡ LineStop.NoMemory) }
{
    let trees = trees_of(alloc, &event_writer.session.core, picture_state, event)?;
    match event {
        Some(event) => {
            let told = told_marks(alloc, event_writer, event)?;
            let travels = travels(alloc, &event.moments)?;
            Ok(Picture {
                trees,
                told,
                travels,
                fired: event.fired,
            })
        }
        None => Ok(Picture {
            trees,
            told: Vec::new(alloc),
            travels: Vec::new(alloc),
            fired: 0,
        }),
    }
}

// The trees of all collections that are shown.
fn trees_of(
    alloc: Global,
    core: &Core,
    picture_state: &PictureState,
    event: Option<&Event>,
) -> Result<Vec<Tree>, LineStop>
    ensures seen { IfOk result (λ trees. All (IsTree core.now) trees.items) }
    ensures trees { IfOk result (λ trees. map lists_of trees.items ≡ trees_in core.now
        (option_map (λ e. e.now) event.entry) picture_state.now.families.entries) }
    ensures err { IfErr result (λ stop. stop ≡ LineStop.NoMemory) }
{
    let mut trees = Vec::new(alloc);
    for (id, nodes) in &picture_state.families {
        let (kept, tree) = tree_of(alloc, core, *id, nodes, event)?;
        add_shown(&mut trees, kept, tree)?;
    }
    Ok(trees)
}

// Puts the tree behind the others, if it is shown: its collection is kept, or the event took a node of it
// or gave pages of it back.
fn add_shown(trees: &mut Vec<Tree>, kept: bool, tree: Tree) -> Result<(), AllocError>
    ensures seen { OnOk result ((s : State) → All (IsTree s) trees.old.items → IsTree s tree →
        All (IsTree s) trees.new.items) }
    ensures shown { OnOk result ((s : State) → kept ≡ is_some (collection_at s.forest tree.id) →
        map lists_of trees.new.items
        ≡ map lists_of trees.old.items ++ filter (is_shown s) (lists_of tree ∷ [])) }
{
    if is_drawn(kept, &tree) {
        trees.push(tree)?;
    }
    Ok(())
}

// Whether the tree is shown, of a collection that is kept or not.
fn is_drawn(kept: bool, tree: &Tree) -> bool
    ensures { (s : State) → kept ≡ is_some (collection_at s.forest tree.now.id) →
        result ≡ is_shown s (lists_of tree.now) }
{
    kept || 0 < tree.left.len() || 0 < tree.freed.len()
}

// The marks of the event, each in the first line of its fact.
fn told_marks(
    alloc: Global,
    event_writer: &EventWriter,
    event: &Event,
) -> Result<Vec<ToldMark>, AllocError>
    ensures { IfOk result (λ told. (names : Names) → Keeps event_writer.now.session.tables names →
        map words_of told.items ≡ told_in names (views_of event_writer.now.session.core).free
        event.now.after event.now.moments.items) }
{
    let mut told = Vec::new(alloc);
    let mut rest = event.moments.as_slice();
    'marks: while let Some((moment, later)) = rest.split_first() {
        let mark = told_mark(alloc, event_writer, moment, placed_by(later, event))?;
        told.push(mark)?;
        rest = later;
    }
    Ok(told)
}

// The mark in the first line of its fact.
fn told_mark(
    alloc: Global,
    event_writer: &EventWriter,
    moment: &Moment,
    placed: Option<(Buffers, &[HeldBuffer])>,
) -> Result<ToldMark, AllocError>
    ensures { IfOk result (λ told. (names : Names) → Keeps event_writer.now.session.tables names →
        words_of told ≡ (
          is_failure moment.now.mark,
          first_line (mark_text names
              (views_of event_writer.now.session.core).free (option_map (λ p. (p.0, p.1.now)) placed.entry)
              moment.now),
        )) }
{
    let mut line = Vec::new(alloc);
    event_writer.push_mark(moment, placed, &mut line)?;
    cut_to_line(&mut line);
    Ok(ToldMark {
        fails: fails(moment.mark),
        line,
    })
}

// Leaves the first line of the text, without its end.
fn cut_to_line(text: &mut Vec<u8>)
    ensures { text.new.items ≡ first_line text.old.items }
{
    if let Some(at) = line_end(text) {
        text.truncate(at);
    }
}

// Whether the mark is a failure.
fn fails(mark: Forced) -> bool
    ensures { result ≡ is_failure mark }
{
    match mark {
        Forced::Loss(_) => true,
        Forced::Allocated(_) | Forced::Ended(_) => false,
    }
}

// The tree of the collection with this id and these nodes, and whether it is kept.
fn tree_of(
    alloc: Global,
    core: &Core,
    id: CollectionId,
    known: &Vec<Node>,
    event: Option<&Event>,
) -> Result<(bool, Tree), LineStop>
    ensures seen { IfOk result (λ told. IsTree core.now told.1) }
    ensures kept { IfOk result (λ told. told.0 ≡ is_some (collection_at core.now.forest id)) }
    ensures lists { IfOk result (λ told. lists_of told.1 ≡ tree_in core.now
        (option_map (λ e. e.now) event.entry) id known.now.items) }
    ensures err { IfErr result (λ stop. stop ≡ LineStop.NoMemory) }
{
    let copied = core.collection(id)?;
    let kept = copied.is_some();
    let tree = grow(alloc, core, id, known, held_of(alloc, copied), event)?;
    Ok((kept, tree))
}

// The tree of the collection with this id and these nodes, with these buffers.
fn grow(
    alloc: Global,
    core: &Core,
    id: CollectionId,
    known: &Vec<Node>,
    held: Vec<HeldBuffer>,
    event: Option<&Event>,
) -> Result<Tree, AllocError>
    ensures seen { IfOk result (λ tree. held.items ≡ held_of_collection core.now id →
        IsTree core.now tree) }
    ensures lists { IfOk result (λ tree. held.items ≡ held_of_collection core.now id →
        lists_of tree ≡ tree_in core.now (option_map (λ e. e.now) event.entry) id known.now.items) }
{
    let (left, freed) = changed(alloc, id, known, &held, event)?;
    let nodes = seen_now(core, known)?;
    let strong = strong_live(&nodes)?;
    Ok(Tree {
        id,
        nodes,
        left,
        held,
        freed,
        strong,
    })
}

// The nodes as the core has them.
fn seen_now(core: &Core, nodes: &Vec<Node>) -> Result<Vec<Node>, AllocError>
    ensures { IfOk result (λ seen. seen.items ≡ map (seen_in core.now) nodes.now.items) }
{
    let mut seen = Vec::new(*nodes.allocator());
    for node in nodes {
        seen.push(at_present(core, node))?;
    }
    Ok(seen)
}

// The node as the core has it. One that the core forgot stands as it did, gone, and its end spent.
fn at_present(core: &Core, node: &Node) -> Node
    ensures { result ≡ seen_in core.now node.now }
{
    match core.node(node.key) {
        Some(present) => present,
        None => {
            let mut forgotten = *node;
            forgotten.gone = true;
            forgotten.end = End::Spent;
            forgotten
        }
    }
}

// Those of the nodes of the collection with this id that left at the event, and the buffers that gave their
// pages back.
fn changed(
    alloc: Global,
    id: CollectionId,
    known: &Vec<Node>,
    held: &[HeldBuffer],
    event: Option<&Event>,
) -> Result<(Vec<NodeKey>, Vec<HeldBuffer>), AllocError>
    ensures left { IfOk result (λ found. found.0.items ≡ option_map_or (left_since known.now.items)
        (before_in (option_map (λ e. e.now) event.entry) id) []) }
    ensures freed { IfOk result (λ found. found.1.items ≡ option_map_or (freed_since held.now)
        (before_in (option_map (λ e. e.now) event.entry) id) []) }
{
    match before_of(event, id) {
        Some(before) => Ok((
            left_at(known, &before.copied.nodes)?,
            given_back(&before.copied.held, held)?,
        )),
        None => Ok((Vec::new(alloc), Vec::new(alloc))),
    }
}

// The collection before the event, if the event changed this one.
fn before_of(event: Option<&Event>, id: CollectionId) -> Option<&Before>
    ensures { option_map (λ b. b.now) result
        ≡ before_in (option_map (λ e. e.now) event.entry) id }
{
    let before = event?.before.as_ref()?;
    if before.copied.id == id {
        Some(before)
    } else {
        None
    }
}

// The buffers of the copy, if there is one.
fn held_of(alloc: Global, copied: Option<Snapshot>) -> Vec<HeldBuffer>
    ensures { result.items
        ≡ option_map_or (λ (c : Collection). c.held) (option_map collection_of copied) [] }
{
    match copied {
        Some(copied) => copied.held,
        None => Vec::new(alloc),
    }
}

// The nodes that are gone, and were among these earlier ones and not gone. Costs O(n log n) for n nodes.
fn left_at(nodes: &Vec<Node>, earlier: &Vec<Node>) -> Result<Vec<NodeKey>, AllocError>
    ensures { IfOk result (λ left. left.items
        ≡ map (λ n. n.key) (filter (has_gone earlier.now.items) nodes.now.items)) }
{
    let found = nodes_by_key(earlier)?;
    left_among(nodes, &found)
}

// The same, where the earlier nodes are found by their keys.
fn left_among(nodes: &Vec<Node>, earlier: &KeyMap<Node>) -> Result<Vec<NodeKey>, AllocError>
    ensures { IfOk result (λ left. (found : List NodeValue) → FindsNodes earlier.now found →
        left.items ≡ map (λ n. n.key) (filter (has_gone found) nodes.now.items)) }
{
    let mut left = Vec::new(*nodes.allocator());
    for node in nodes {
        if went(node, earlier) {
            left.push(node.key)?;
        }
    }
    Ok(left)
}

// Whether the node is gone, and was among these and not gone.
fn went(node: &Node, earlier: &KeyMap<Node>) -> bool
    ensures { (found : List NodeValue) → FindsNodes earlier.now found →
        result ≡ has_gone found node.now }
{
    match earlier.get(node.key) {
        Some(before) => node.gone && !before.gone,
        None => false,
    }
}
