//! What a search through all plays found.
use crate::outcome::Outcome;
use sm_names::{Call, ClientId, Reply};

/// A turn, which makes one call: of the actor of this place.
#[derive(Clone, Copy, PartialEq, Eq)]
pub enum Turn {
    /// The call of its next step.
    Step(usize),
    /// The call by which it leaves, or goes on to leave.
    Leave(usize),
}

/// An outcome, with a play of it: of the fewest calls, and of these with the fewest changes of the actor.
#[derive(Drop)]
pub struct Found {
    /// The turns of the play, each of one call.
    pub turns: Vec<Turn>,
    /// The calls of the play with their replies: the joins of all clients, then one call for each turn.
    pub entries: Vec<(ClientId, Call, Reply)>,
    /// For each actor, the places of the steps in its plan whose calls it made, in order.
    pub steps: Vec<Vec<usize>>,
    /// The places of the actors that left before their end.
    pub vanished: Vec<usize>,
    pub outcome: Outcome,
    pub figures: Figures,
}

/// What is known of an outcome beside its play.
#[derive(Clone, Copy)]
pub struct Figures {
    /// How many times the actor changes, the first turn among them.
    pub changes: usize,
    /// The number of the first call, from 1, behind which no other outcome is possible; 0 if there never is another, or
    /// another is possible to the end.
    pub decided: usize,
    /// The share of runs that come to it, where each turn is drawn evenly among the actors that have one. It says nothing
    /// where an actor may leave before its end.
    pub share: f64,
}

/// Why a search that was to certify did not.
#[derive(Clone, Copy)]
pub enum Doubt {
    /// Not all values were met.
    Incomplete,
    /// To make each play again would cost more calls than a search of so many values may make.
    Costly,
    /// After so many calls the step at this place of the actor's plan, or the call by which it leaves, leads to a play that is
    /// not seen to be like the one of its value. It is the first such turn.
    Turn {
        calls: usize,
        actor: usize,
        at: usize,
        leaves: bool,
    },
    /// A play of so many calls does not end as the outcome says that was noted for it. It is the first such play.
    Outcome {
        calls: usize,
    },
}

/// What a search found.
#[derive(Drop)]
pub struct Exploration {
    /// The outcomes: by how many actors left before their end, by who they are, and then those of the greatest share first.
    pub outcomes: Vec<Found>,
    /// How many values of plays were met, that of the play without a turn among them: at most as many as
    /// were asked for.
    pub states: usize,
    /// All values were met.
    pub complete: bool,
    /// How many orders of turns there are.
    pub orders: f64,
    /// For sure no outcome is missing. Only a search that is asked to certifies.
    pub certified: bool,
    /// The steps whose call no play makes, each by the places of its actor and of it; none where not all values were met.
    pub unmade: Vec<(usize, usize)>,
    /// Why the search did not certify, where it was to.
    pub doubt: Option<Doubt>,
}

/// Which actors may leave at any point, how many of them at most, and whether each leaves at its end.
#[derive(Clone, Copy)]
pub struct Vanishing<'a> {
    /// For each plan, whether its actor may leave before its end; one for which nothing is said may not.
    pub who: &'a [bool],
    /// So many at most leave before their end.
    pub most: usize,
    /// Each actor leaves once all its steps are behind it. That is its end; if it is not so, an actor has no end at which it
    /// leaves, and whoever leaves does so before it.
    pub at_end: bool,
}
