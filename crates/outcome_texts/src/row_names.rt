//! What rows call nodes and trackers: as the script does.
use crate::makers::line_label;
use crate::telling::{Subject, Telling, subject_at};
use indexmap::IndexSet;
use script_lines::{Label, LabelHash, Part, push, push_label, push_parts};
use std::alloc::{AllocError, Global};
use std::collections::HashMap;

// A step that makes a node or a tracker: its place in its actor's plan, the number of its line, and the label that this binds.
#[derive(Clone, Copy)]
struct Made {
    actor: usize,
    at: usize,
    number: u64,
    label: Label,
}

// What nodes and trackers are called, by the actors and the places of the steps that make them.
#[derive(Drop)]
pub(crate) struct RowNames {
    texts: HashMap<(usize, usize), Vec<u8>>,
}

// The actors' labels that several of these steps bind.
fn rebound(
    alloc: Global,
    hash: LabelHash,
    made: &[Made],
) -> Result<IndexSet<(usize, Label), LabelHash>, AllocError> {
    let mut bound = IndexSet::with_hasher(alloc, hash);
    let mut again = IndexSet::with_hasher(alloc, hash);
    for one in made {
        let is_new = match bound.insert_full((one.actor, one.label)) {
            Ok((_, is_new)) => is_new,
            Err(_) => return Err(AllocError),
        };
        if !is_new && again.insert_full((one.actor, one.label)).is_err() {
            return Err(AllocError);
        }
    }
    Ok(again)
}

impl Telling<'_> {
    // The step at this place, if it makes a node or a tracker.
    fn made(&self, actor: usize, at: usize) -> Option<Made> {
        match subject_at(self.plans.get(actor)?, actor, at) {
            Some(Subject::Node(..)) | Some(Subject::Tracker(..)) => {}
            _ => return None,
        }
        let step = self.line(actor, at)?;
        Some(Made {
            actor,
            at,
            number: step.number,
            label: line_label(step.line)?,
        })
    }

    // Adds the actor's steps that make nodes or trackers.
    fn add_made(&self, made: &mut Vec<Made>, actor: usize) -> Result<(), AllocError> {
        if let Some(plan) = self.plans.get(actor) {
            for at in 0..plan.steps.len() {
                if let Some(one) = self.made(actor, at) {
                    made.push(one)?;
                }
            }
        }
        Ok(())
    }

    // Appends what it is called: its label, behind its client's if several clients use it, and with its line if several lines
    // of the client bind it.
    fn push_made(
        &self,
        text: &mut Vec<u8>,
        made: Made,
        is_rebound: bool,
    ) -> Result<(), AllocError> {
        if self.names.other(made.actor, made.label).is_some() {
            push_label(text, self.labels.get(made.actor).copied())?;
            push(text, ".")?;
        }
        push_label(text, Some(made.label))?;
        if is_rebound {
            push_parts(
                text,
                &[
                    Part::Word(" (line "),
                    Part::Number(made.number),
                    Part::Word(")"),
                ],
            )?;
        }
        Ok(())
    }
}

impl RowNames {
    // Those of the steps of all actors.
    pub(crate) fn of(alloc: Global, telling: &Telling<'_>) -> Result<RowNames, AllocError> {
        let mut made = Vec::new(alloc);
        for actor in 0..telling.plans.len() {
            telling.add_made(&mut made, actor)?;
        }
        let again = rebound(alloc, telling.hash, &made)?;
        let mut texts = HashMap::new(alloc);
        for one in &made {
            let mut text = Vec::new(alloc);
            telling.push_made(&mut text, *one, again.contains(&(one.actor, one.label)))?;
            texts.insert((one.actor, one.at), text)?;
        }
        Ok(RowNames { texts })
    }

    // Appends what the node or tracker is called that the step makes.
    pub(crate) fn push(
        &self,
        text: &mut Vec<u8>,
        actor: usize,
        at: usize,
    ) -> Result<(), AllocError> {
        match self.texts.get(&(actor, at)) {
            Some(name) => text.extend_from_slice(name),
            None => Ok(()),
        }
    }
}
