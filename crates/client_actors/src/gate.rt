//! What a program hears of actors while they run, and at their end.
use client_ends::{Client, Held};
use client_vanish::Wreck;
use service_lock::Setup;
use sm_names::{ClientId, Reply, StepFault};
use std::sync::ledger::Ledger;

/// Hears of each step of each actor, outside the lock. Steps are numbered from 1, those that are
/// skipped and looks at trackers too. A step that is tried again is heard of again, with its number.
pub trait Gate {
    /// The actor is about to make the step.
    fn before(&self, client: ClientId, step: u64);

    /// The actor has made the step: the reply to its call, or `None` where it made none.
    fn after(&self, client: ClientId, step: u64, reply: &Option<Reply>);
}

/// How an actor ended. It must be spent.
pub enum ActorEnd<E: Setup, S: Ledger, W: Ledger> {
    /// It made all its steps, and vanished.
    Wrecked(Wreck<E, S, W>),
    /// It was stopped by a fault, and what it has comes back.
    Stopped(Client<E, S, W>, Held<E, S, W>, StepFault),
    /// The system gave it no thread: its client joined, and made no event since.
    NotStarted(Client<E, S, W>),
}
