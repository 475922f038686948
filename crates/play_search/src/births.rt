//! The steps that made nodes and collections, each by its number.
use crate::numbers::small;
use crate::replay::Ground;
use actor_plays::{Actor, Play};
use actor_scripts::Step;
use explore_model::Plan;
use sm_names::{CallKind, CollectionId, NodeKey, Reply};
use std::alloc::{AllocError, Global};
use std::collections::HashMap;

/// The number of each plan's first step, where the steps of all plans are numbered one after another.
pub(crate) fn bases_of(alloc: Global, plans: &[Plan]) -> Result<Vec<u32>, AllocError> {
    let mut bases = Vec::new(alloc);
    let mut base: u32 = 0;
    for plan in plans {
        bases.push(base)?;
        base = base.wrapping_add(small(plan.steps.len()));
    }
    Ok(bases)
}

// The number of the actor's step at this place of its plan.
pub(crate) fn number_at(bases: &[u32], actor: usize, at: usize) -> u32 {
    match bases.get(actor) {
        Some(base) => base.wrapping_add(small(at)),
        None => u32::MAX,
    }
}

// The kind of the call that the actor's step at this place makes, if it makes one.
fn kind_at(plans: &[Plan], actor: usize, at: usize) -> Option<CallKind> {
    match plans.get(actor)?.steps.get(at)?.step {
        Step::Ask { request } => Some(request.kind),
        Step::Poll { .. } => None,
    }
}

// Whether the actor's step at this place makes a call.
pub(crate) fn is_call(plans: &[Plan], actor: usize, at: usize) -> bool {
    kind_at(plans, actor, at).is_some()
}

// Whether the actor's step at this place opens a collection.
fn opens(plans: &[Plan], actor: usize, at: usize) -> bool {
    matches!(kind_at(plans, actor, at), Some(CallKind::OpenRoot))
}

// Whether the actor's step at this place gives it an object, if the answer is Done.
pub(crate) fn gains(plans: &[Plan], actor: usize, at: usize) -> bool {
    matches!(
        kind_at(plans, actor, at),
        Some(CallKind::Bind | CallKind::DupHandle)
    )
}

// The number of the step that made each node and each collection of a play, and the collections in the order of
// their numbers.
#[derive(Drop)]
pub(crate) struct Births {
    pub(crate) alloc: Global,
    nodes: HashMap<NodeKey, u32>,
    collections: HashMap<CollectionId, u32>,
    pub(crate) opened: Vec<CollectionId>,
}

impl Births {
    // Adds what a call of the actor made.
    fn note(
        &mut self,
        ground: &Ground<'_>,
        actor: usize,
        at: usize,
        reply: Reply,
    ) -> Result<(), AllocError> {
        let Reply::Token { key, collection } = reply else {
            return Ok(());
        };
        let number = number_at(ground.bases, actor, at);
        self.nodes.insert(key, number)?;
        if opens(ground.plans, actor, at) {
            self.collections.insert(collection, number)?;
            self.opened.push(collection)?;
        }
        Ok(())
    }

    // Adds what the actor's calls made.
    fn note_all(
        &mut self,
        ground: &Ground<'_>,
        actor: usize,
        made: &[(usize, Reply)],
    ) -> Result<(), AllocError> {
        for (at, reply) in made {
            self.note(ground, actor, *at, *reply)?;
        }
        Ok(())
    }

    // Adds what these actors made.
    fn note_actors(&mut self, ground: &Ground<'_>, actors: &[Actor]) -> Result<(), AllocError> {
        for actor in 0..actors.len() {
            self.note_all(ground, actor, &actors[actor].made)?;
        }
        Ok(())
    }

    // All that were made in the play.
    pub(crate) fn of(ground: &Ground<'_>, play: &Play) -> Result<Births, AllocError> {
        let mut births = Births {
            alloc: ground.alloc,
            nodes: HashMap::new(ground.alloc),
            collections: HashMap::new(ground.alloc),
            opened: Vec::new(ground.alloc),
        };
        births.note_actors(ground, play.actors())?;
        Ok(births)
    }

    // The number of the step that made the node.
    pub(crate) fn node(&self, key: NodeKey) -> u32 {
        match self.nodes.get(&key) {
            Some(number) => *number,
            None => u32::MAX,
        }
    }

    // The number of the step that made the collection.
    pub(crate) fn collection(&self, id: CollectionId) -> u32 {
        match self.collections.get(&id) {
            Some(number) => *number,
            None => u32::MAX,
        }
    }
}
