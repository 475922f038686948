//! What pictures say of a node and of a buffer, whatever their format.
ghost use Rattle.std.specs.Prelude.{◌≡◌, ◌++◌, OnOk};
ghost use Rattle.script_labels.specs.Names.{Names};
ghost use Rattle.script_labels.specs.Tables.{Keeps};
ghost use Rattle.event_texts.specs.Called.{Calls};
ghost use Rattle.event_texts.specs.KeeperTexts.{keepers_words};
ghost use Rattle.picture_model.specs.Features.{class_of as class_in, free_words, kind_text, link_of as link_in, pages_text, place_text, sign_text};

use event_texts::{EventWriter, Labels};
use forest_store::{End, Node};
use script_lines::{Part, push, push_parts};
use sm_names::{BufferName, ClientId, Interval, NodeKey};
use std::alloc::AllocError;

/// What a node is drawn as.
#[derive(Clone, Copy)]
pub enum Class {
    /// Neither released nor gone.
    Live,
    /// Released, and not gone.
    Orphan,
    /// Gone by its own failure.
    Origin,
    /// Gone by the failure of another.
    Taken,
    /// Gone without a failure.
    Ended,
}

/// What the node is drawn as. Costs O(1).
pub fn class_of(node: &Node) -> Class
    ensures { result ≡ class_in node.now }
{
    if !node.gone {
        return if node.released {
            Class::Orphan
        } else {
            Class::Live
        };
    }
    match node.fault {
        Some(fault) => {
            if fault.origin == node.key {
                Class::Origin
            } else {
                Class::Taken
            }
        }
        None => Class::Ended,
    }
}

/// The sign of what a node is drawn as: none for a live one. Costs O(1).
pub fn class_sign(class: Class) -> &'static str
    ensures { result.now ≡ sign_text class }
{
    match class {
        Class::Live => "",
        Class::Orphan => "○",
        Class::Origin | Class::Taken => "✗",
        Class::Ended => "·",
    }
}

/// How the link of a node to its parent is drawn.
#[derive(Clone, Copy)]
pub enum LinkStyle {
    /// A failure of the node climbs it.
    Normal,
    /// The node is attached: no failure climbs it.
    Attached,
    /// The node is dispensable: no failure climbs it once its unit is allocated.
    Dispensable,
}

/// How the link of the node to its parent is drawn: that of an attached node as attached, also if the node
/// is dispensable. Costs O(1).
pub fn link_of(node: &Node) -> LinkStyle
    ensures { result ≡ link_in node.now }
{
    if node.attached {
        LinkStyle::Attached
    } else if node.dispensable {
        LinkStyle::Dispensable
    } else {
        LinkStyle::Normal
    }
}

/// The name of what the node's end is. Costs O(1).
pub fn kind_name(node: &Node) -> &'static str
    ensures { result.now ≡ kind_text node.now }
{
    if node.bound { "collection" } else { "token" }
}

/// Appends where the node's end is. Costs O(n) for n bytes of text.
pub fn push_place(text: &mut Vec<u8>, labels: &Labels, node: &Node) -> Result<(), AllocError>
    ensures { OnOk result ((names : Names) → Calls labels.now names →
        text.new.items ≡ text.old.items ++ place_text names node.now.end) }
{
    match node.end {
        End::Held(client) => push_parts(
            text,
            &[Part::Word("held by "), Part::Name(labels.client(client))],
        ),
        End::InTransit(_) => push(text, "end in a parcel"),
        End::Spent => push(text, "end spent"),
    }
}

/// Appends the pages. Costs O(n) for n bytes of text.
pub fn push_pages(text: &mut Vec<u8>, pages: Interval) -> Result<(), AllocError>
    ensures { OnOk result (text.new.items ≡ text.old.items ++ pages_text pages) }
{
    let start = pages.start as u64;
    if pages.pages == 1 {
        return push_parts(text, &[Part::Word("page "), Part::Number(start)]);
    }
    let last = (start + pages.pages as u64).saturating_sub(1);
    push_parts(
        text,
        &[
            Part::Word("pages "),
            Part::Number(start),
            Part::Word(" to "),
            Part::Number(last),
        ],
    )
}

/// Appends how many of this many pages are free. Costs O(n) for n bytes of text.
#[tactic(auto, unfolding(crate::specs::Features::free_words))]
pub fn push_free_pages(text: &mut Vec<u8>, free: u32, pages: u32) -> Result<(), AllocError>
    ensures { OnOk result (text.new.items ≡ text.old.items ++ free_words free pages) }
{
    push_parts(
        text,
        &[
            Part::Number(free as u64),
            Part::Word(" of "),
            Part::Counted(pages as u64, "page"),
            Part::Word(" free"),
        ],
    )
}

/// Appends who keeps the buffer, as `event_texts::push_keepers` does.
pub fn push_keepers(
    text: &mut Vec<u8>,
    event_writer: &EventWriter,
    clients: &Vec<ClientId>,
    strong: &[NodeKey],
    buffer: BufferName,
) -> Result<(), AllocError>
    ensures { OnOk result ((names : Names) → Keeps event_writer.now.session.tables names →
        Calls event_writer.now.labels names → text.new.items ≡ text.old.items
        ++ keepers_words event_writer.now.session.core names clients.now.items strong.now buffer) }
{
    let (session, labels) = (&event_writer.session, &event_writer.labels);
    event_texts::push_keepers(
        text,
        &session.core,
        &session.tables,
        labels,
        clients,
        strong,
        buffer,
    )
}
