//! A picture in the language of Graphviz.
ghost use Rattle.std.specs.Prelude.{◌≡◌, ◌++◌, List, OnOk, IfErr};
ghost use Rattle.std.specs.List.{flat_map};
ghost use Rattle.script_labels.specs.Names.{Names};
ghost use Rattle.script_labels.specs.Tables.{Keeps};
ghost use Rattle.event_texts.specs.Called.{Calls};
ghost use Rattle.picture_model.specs.declared.failure_view.Travel.{Travel as Link};
ghost use Rattle.picture_model.specs.Travels.{FindsTravels};
ghost use Rattle.picture_dot.specs.DotPictures.{box_words, cluster_text, dot_text, dot_tree, firing_text, graph_foot, graph_head, graph_words, link_words, pool_words, rank_text};

use crate::boxes::push_boxes;
use crate::legend::push_legend;
use crate::links::push_links;
use crate::tables::{has_table, push_table_of};
use event_facts::KeyMap;
use event_texts::EventWriter;
use lifetime_core::Core;
use picture_model::{
    Picture, Travel, Tree, push_fired, push_free_pages, push_header, travels_by_node,
};
use script_labels::{LineStop, Tables};
use script_lines::{Part, push, push_number, push_parts};
use sm_names::{ClientId, Fired};
use std::alloc::AllocError;

/// Appends the picture, and what its signs stand for; the last event has this line.
///
/// `NoMemory` where memory is refused. Costs O(n log n) for the n nodes of each tree and the n links that
/// failures followed, a look-up of each label, and for each buffer a look-up for each client and
/// strength.
#[tactic(auto, unfolding(crate::specs::DotPictures::dot_text))]
pub fn push_dot(
    text: &mut Vec<u8>,
    event_writer: &EventWriter,
    picture: &Picture,
    line: &[u8],
) -> Result<(), LineStop>
    ensures text { OnOk result ((names : Names) → Keeps event_writer.now.session.tables names →
        Calls event_writer.now.labels names → text.new.items ≡ text.old.items
        ++ dot_text event_writer.now.session.core names line.now
        picture.now.trees.items picture.now.travels.items) }
    ensures err { IfErr result (λ stop. stop ≡ LineStop.NoMemory) }
{
    push_head(text, event_writer.session.core.events(), line)?;
    let clients = event_writer.session.core.clients()?;
    let travels = travels_by_node(*text.allocator(), &picture.travels)?;
    push_trees(text, event_writer, &clients, &picture.trees, &travels)?;
    push_legend(text)?;
    push_foot(
        text,
        &event_writer.session.core,
        &event_writer.session.tables,
        &picture.trees,
    )?;
    Ok(())
}

// Appends the begin of the graph.
fn push_head(text: &mut Vec<u8>, event: u64, line: &[u8]) -> Result<(), AllocError>
    ensures { OnOk result (text.new.items ≡ text.old.items ++ graph_head event line.now) }
{
    push(text, "digraph sysmem {\n  graph [label=\"")?;
    push_header(text, event, line)?;
    push_parts(
        text,
        &[
            Part::Word(words_for_graph()),
            Part::Word(words_for_boxes()),
            Part::Word(words_for_links()),
        ],
    )
}

// What is set for the graph, behind its title.
#[tactic(auto, unfolding(crate::specs::DotPictures::graph_words))]
fn words_for_graph() -> &'static str
    ensures { result.now ≡ graph_words }
{
    "\\n \", labelloc=t, labeljust=l, fontsize=18, fontname=\"DejaVu Sans Mono\", nodesep=0.3, \
     ranksep=0.55];\n"
}

// What is set for all boxes.
#[tactic(auto, unfolding(crate::specs::DotPictures::box_words))]
fn words_for_boxes() -> &'static str
    ensures { result.now ≡ box_words }
{
    "  node [shape=box, fontname=\"DejaVu Sans Mono\", fontsize=11, margin=\"0.14,0.08\"];\n"
}

// What is set for all links.
#[tactic(auto, unfolding(crate::specs::DotPictures::link_words))]
fn words_for_links() -> &'static str
    ensures { result.now ≡ link_words }
{
    "  edge [fontname=\"DejaVu Sans Mono\", fontsize=11, color=\"#808080\"];\n"
}

// Appends the trees.
fn push_trees(
    text: &mut Vec<u8>,
    event_writer: &EventWriter,
    clients: &Vec<ClientId>,
    trees: &[Tree],
    travels: &KeyMap<Travel>,
) -> Result<(), AllocError>
    ensures { OnOk result ((names : Names) → Keeps event_writer.now.session.tables names →
        Calls event_writer.now.labels names → (links : List Link) → FindsTravels travels.now links →
        text.new.items ≡ text.old.items
        ++ flat_map (dot_tree event_writer.now.session.core names clients.now.items links) trees.now) }
{
    for tree in trees {
        push_tree(text, event_writer, clients, tree, travels)?;
    }
    Ok(())
}

// Appends a tree and its links.
#[tactic(auto, unfolding(crate::specs::DotPictures::dot_tree))]
fn push_tree(
    text: &mut Vec<u8>,
    event_writer: &EventWriter,
    clients: &Vec<ClientId>,
    tree: &Tree,
    travels: &KeyMap<Travel>,
) -> Result<(), AllocError>
    ensures { OnOk result ((names : Names) → Keeps event_writer.now.session.tables names →
        Calls event_writer.now.labels names → (links : List Link) → FindsTravels travels.now links →
        text.new.items ≡ text.old.items
        ++ dot_tree event_writer.now.session.core names clients.now.items links tree.now) }
{
    push_cluster(text, event_writer, clients, tree)?;
    push_links(text, tree, travels)
}

// Appends the boxes of a tree and the table of its buffers.
#[tactic(auto, unfolding(crate::specs::DotPictures::cluster_text))]
fn push_cluster(
    text: &mut Vec<u8>,
    event_writer: &EventWriter,
    clients: &Vec<ClientId>,
    tree: &Tree,
) -> Result<(), AllocError>
    ensures { OnOk result ((names : Names) → Keeps event_writer.now.session.tables names →
        Calls event_writer.now.labels names → text.new.items ≡ text.old.items
        ++ cluster_text event_writer.now.session.core names clients.now.items tree.now) }
{
    push(text, "  subgraph cluster_")?;
    push_number(text, tree.id)?;
    push(text, " {\n    color=\"#BBBBBB\"; label=\"\";\n")?;
    push_boxes(text, event_writer, &tree.nodes, &tree.left)?;
    push_table_of(text, event_writer, clients, tree)?;
    push(text, "  }\n")
}

// Appends the line of the pool and the firings, and the end of the graph.
#[tactic(auto, unfolding(crate::specs::DotPictures::graph_foot))]
fn push_foot(
    text: &mut Vec<u8>,
    core: &Core,
    tables: &Tables,
    trees: &[Tree],
) -> Result<(), AllocError>
    ensures { OnOk result ((names : Names) → Keeps tables.now names →
        text.new.items ≡ text.old.items ++ graph_foot core.now names trees.now) }
{
    push_pool(text, core)?;
    push_firings(text, tables, core.fired())?;
    push(text, "\"];\n")?;
    push_ranks(text, trees)?;
    push(text, "}\n")
}

// Appends how many pages of the pool are free.
fn push_pool(text: &mut Vec<u8>, core: &Core) -> Result<(), AllocError>
    ensures { OnOk result (text.new.items ≡ text.old.items ++ pool_words core.now) }
{
    push(text, "  foot [shape=plaintext, label=\"pool ")?;
    push_free_pages(text, core.free_pages(), core.pages())
}

// Appends the trackers that fired so far, each in a line of its own.
fn push_firings(text: &mut Vec<u8>, tables: &Tables, fired: &[Fired]) -> Result<(), AllocError>
    ensures { OnOk result ((names : Names) → Keeps tables.now names →
        text.new.items ≡ text.old.items ++ flat_map (firing_text names) fired.now) }
{
    for firing in fired {
        push_firing(text, tables, *firing)?;
    }
    Ok(())
}

// Appends the line of a tracker that fired.
#[tactic(auto, unfolding(crate::specs::DotPictures::firing_text))]
fn push_firing(text: &mut Vec<u8>, tables: &Tables, firing: Fired) -> Result<(), AllocError>
    ensures { OnOk result ((names : Names) → Keeps tables.now names →
        text.new.items ≡ text.old.items ++ firing_text names firing) }
{
    push(text, "\\n")?;
    push_fired(text, tables, firing)
}

// Appends that the foot stands below each table.
fn push_ranks(text: &mut Vec<u8>, trees: &[Tree]) -> Result<(), AllocError>
    ensures { OnOk result (text.new.items ≡ text.old.items ++ flat_map rank_text trees.now) }
{
    for tree in trees {
        push_rank(text, tree)?;
    }
    Ok(())
}

// Appends that the foot stands below the table of the tree, if it has one.
#[tactic(auto, unfolding(crate::specs::DotPictures::rank_text))]
fn push_rank(text: &mut Vec<u8>, tree: &Tree) -> Result<(), AllocError>
    ensures { OnOk result (text.new.items ≡ text.old.items ++ rank_text tree.now) }
{
    if !has_table(tree) {
        return Ok(());
    }
    push_parts(
        text,
        &[
            Part::Word("  b"),
            Part::Number(tree.id),
            Part::Word(" -> foot [style=invis];\n"),
        ],
    )
}
