//! What nodes and trackers are called in a script for all clients: as their clients call them, but for labels that
//! several clients use.
ghost use Rattle.std.specs.Prelude.{◌≡◌, slice_get};
ghost use Rattle.std.specs.Option.{option_map};
ghost use Rattle.outcome_texts.specs.Plays.{line_bound, line_named, named, object_named, other_name, request_named};

use crate::lines::StepLine;
use indexmap::IndexSet;
use script_lines::{
    BufferLabel, Label, LabelHash, Line, Request, push_label, push_number, read_line,
};
use sm_names::{CallKind, Object};
use std::alloc::{AllocError, Global};
use std::collections::HashMap;

/// The other labels of nodes and trackers of each actor, where several clients use a label, and labels that no client uses:
/// one for each end or handle that can be collected.
#[derive(Drop)]
pub struct LabelNames {
    others: Vec<HashMap<Label, Label, LabelHash>>,
    fresh: Vec<Label>,
}

// The labels that actors use, those that several use, and how many lines give or collect.
#[derive(Drop)]
struct Uses {
    all: IndexSet<(usize, Label), LabelHash>,
    first: HashMap<Label, usize, LabelHash>,
    shared: IndexSet<Label, LabelHash>,
    taken: IndexSet<Label, LabelHash>,
    parcels: usize,
}

fn add_to(set: &mut IndexSet<Label, LabelHash>, label: Label) -> Result<bool, AllocError> {
    match set.insert_full(label) {
        Ok((_, is_new)) => Ok(is_new),
        Err(_) => Err(AllocError),
    }
}

impl Uses {
    fn new(alloc: Global, hash: LabelHash) -> Uses {
        Uses {
            all: IndexSet::with_hasher(alloc, hash),
            first: HashMap::with_hasher(alloc, hash),
            shared: IndexSet::with_hasher(alloc, hash),
            taken: IndexSet::with_hasher(alloc, hash),
            parcels: 0,
        }
    }

    fn note(&mut self, actor: usize, label: Label) -> Result<(), AllocError> {
        match self.all.insert_full((actor, label)) {
            Ok(_) => {}
            Err(_) => return Err(AllocError),
        }
        add_to(&mut self.taken, label)?;
        match self.first.get(&label).copied() {
            Some(other) => {
                if other != actor {
                    add_to(&mut self.shared, label)?;
                }
                Ok(())
            }
            None => {
                self.first.insert(label, actor)?;
                Ok(())
            }
        }
    }

    fn note_request(
        &mut self,
        actor: usize,
        request: &Request<Label, BufferLabel>,
    ) -> Result<(), AllocError> {
        if is_of_parcel(request.kind) {
            self.parcels = self.parcels.saturating_add(1);
        }
        match request.object {
            Object::Nothing => {}
            Object::Node(label) => self.note(actor, label)?,
            Object::Buffer(buffer) => self.note(actor, buffer.node)?,
        }
        match request.binds {
            Some(label) => self.note(actor, label),
            None => Ok(()),
        }
    }

    fn note_line(&mut self, actor: usize, line: &[u8]) -> Result<(), AllocError> {
        match read_line(line) {
            Some(Line::Ask { request, .. }) => self.note_request(actor, &request),
            Some(Line::Poll { tracker, .. }) => self.note(actor, tracker),
            _ => Ok(()),
        }
    }
}

// Whether calls of this kind fill a parcel, or collect one.
fn is_of_parcel(kind: CallKind) -> bool {
    matches!(
        kind,
        CallKind::Give | CallKind::GiveHandle | CallKind::Collect
    )
}

// The client's label with this one behind it, if it is a label.
fn joined(alloc: Global, client: Label, label: Label) -> Result<Option<Label>, AllocError> {
    let mut text = Vec::new(alloc);
    push_label(&mut text, Some(client))?;
    push_label(&mut text, Some(label))?;
    Ok(Label::new(&text))
}

// The label of a number.
fn numbered(alloc: Global, number: u64) -> Result<Option<Label>, AllocError> {
    let mut text = Vec::new(alloc);
    text.push(b'x')?;
    push_number(&mut text, number)?;
    Ok(Label::new(&text))
}

// A label that is not taken: this one, or else one of a number from the counter on.
fn free_label(
    alloc: Global,
    taken: &mut IndexSet<Label, LabelHash>,
    counter: &mut u64,
    wanted: Option<Label>,
) -> Result<Option<Label>, AllocError> {
    if let Some(label) = wanted {
        if add_to(taken, label)? {
            return Ok(Some(label));
        }
    }
    for _ in 0..taken.len().saturating_add(1) {
        *counter = counter.saturating_add(1);
        if let Some(label) = numbered(alloc, *counter)? {
            if add_to(taken, label)? {
                return Ok(Some(label));
            }
        }
    }
    Ok(None)
}

// For each of so many actors, no other labels.
fn no_names(alloc: Global, hash: LabelHash, actors: usize) -> Result<LabelNames, AllocError> {
    let mut others = Vec::new(alloc);
    for _ in 0..actors {
        others.push(HashMap::with_hasher(alloc, hash))?;
    }
    Ok(LabelNames {
        others,
        fresh: Vec::new(alloc),
    })
}

// Notes the labels that each actor uses.
fn note_uses(uses: &mut Uses, steps: &[StepLine<'_>]) -> Result<(), AllocError> {
    for step in steps {
        uses.note_line(step.actor, step.line)?;
    }
    Ok(())
}

// The label that the client's one gets, if several use it: with the client's in front, if that is free.
fn wanted(
    alloc: Global,
    labels: &[Label],
    actor: usize,
    label: Label,
) -> Result<Option<Label>, AllocError> {
    match labels.get(actor) {
        Some(client) => joined(alloc, *client, label),
        None => Ok(None),
    }
}

impl Uses {
    // Adds the other labels of those that several actors use.
    fn add_names(
        &mut self,
        alloc: Global,
        labels: &[Label],
        counter: &mut u64,
        names: &mut LabelNames,
    ) -> Result<(), AllocError> {
        for (actor, label) in self.all.as_slice() {
            if self.shared.contains(label) {
                let wanted = wanted(alloc, labels, *actor, *label)?;
                if let Some(other) = free_label(alloc, &mut self.taken, counter, wanted)? {
                    names.add(*actor, *label, other)?;
                }
            }
        }
        Ok(())
    }

    // Adds a label that is not taken for each line that gives or collects.
    fn add_fresh(
        &mut self,
        alloc: Global,
        counter: &mut u64,
        names: &mut LabelNames,
    ) -> Result<(), AllocError> {
        for _ in 0..self.parcels {
            if let Some(label) = free_label(alloc, &mut self.taken, counter, None)? {
                names.fresh.push(label)?;
            }
        }
        Ok(())
    }
}

/// What nodes and trackers are called where all clients have one table of labels: as their clients call them, but with
/// the client's label in front where several clients use one. An end or a handle that a client collects as it leaves gets
/// a label that no client uses: `x` and a number.
///
/// `AllocError` where memory is refused. Costs O(n) for n lines.
pub fn names_of(
    alloc: Global,
    hash: LabelHash,
    labels: &[Label],
    steps: &[StepLine<'_>],
) -> Result<LabelNames, AllocError> {
    let mut uses = Uses::new(alloc, hash);
    note_uses(&mut uses, steps)?;
    let mut names = no_names(alloc, hash, labels.len())?;
    let mut counter: u64 = 0;
    uses.add_names(alloc, labels, &mut counter, &mut names)?;
    uses.add_fresh(alloc, &mut counter, &mut names)?;
    Ok(names)
}

impl LabelNames {
    // The actor's label is called otherwise.
    fn add(&mut self, actor: usize, label: Label, other: Label) -> Result<(), AllocError> {
        if actor < self.others.len() {
            self.others[actor].insert(label, other)?;
        }
        Ok(())
    }

    // The actor's other label, if there is one.
    pub(crate) fn other(&self, actor: usize, label: Label) -> Option<Label>
        ensures { result ≡ other_name self.now actor label }
    {
        match self.others.get(actor) {
            Some(table) => table.get(&label).copied(),
            None => None,
        }
    }

    /// What the actor's node or tracker of this label is called. Costs O(1).
    pub fn name(&self, actor: usize, label: Label) -> Label
        ensures { result ≡ named self.now actor label }
    {
        match self.other(actor, label) {
            Some(other) => other,
            None => label,
        }
    }

    // The label of this number among those that no client uses.
    pub(crate) fn fresh(&self, number: usize) -> Option<Label>
        ensures { result ≡ slice_get self.now.fresh.items number }
    {
        self.fresh.get(number).copied()
    }

    fn object(&self, actor: usize, object: Object<Label, BufferLabel>) -> Object<Label, BufferLabel>
        ensures { result ≡ object_named (named self.now actor) object }
    {
        match object {
            Object::Nothing => Object::Nothing,
            Object::Node(label) => Object::Node(self.name(actor, label)),
            Object::Buffer(buffer) => Object::Buffer(BufferLabel {
                node: self.name(actor, buffer.node),
                index: buffer.index,
            }),
        }
    }

    fn binds(&self, actor: usize, label: Option<Label>) -> Option<Label>
        ensures { result ≡ option_map (named self.now actor) label }
    {
        match label {
            Some(label) => Some(self.name(actor, label)),
            None => None,
        }
    }

    fn request(
        &self,
        actor: usize,
        request: Request<Label, BufferLabel>,
    ) -> Request<Label, BufferLabel>
        ensures { result ≡ request_named (named self.now actor) request }
    {
        Request {
            kind: request.kind,
            object: self.object(actor, request.object),
            argument: request.argument,
            binds: self.binds(actor, request.binds),
        }
    }

    /// The actor's line in a script for all clients. Costs O(1).
    pub fn line(&self, actor: usize, line: Line) -> Line
        ensures { result ≡ line_named (named self.now actor) line }
    {
        match line {
            Line::Ask { client, request } => Line::Ask {
                client,
                request: self.request(actor, request),
            },
            Line::Poll { client, tracker } => Line::Poll {
                client,
                tracker: self.name(actor, tracker),
            },
            other => other,
        }
    }

    // What the line's step makes is called so.
    pub(crate) fn bound(&self, actor: usize, line: &[u8]) -> Option<Label>
        ensures { result ≡ line_bound (named self.now actor) line.now }
    {
        match read_line(line) {
            Some(Line::Ask { request, .. }) => self.binds(actor, request.binds),
            _ => None,
        }
    }
}
