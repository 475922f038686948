//! Actors: clients that make the steps of their scripts through the typed calls, and vanish at the
//! end, each in a thread of its own.
#![tactic(auto)]

mod actor;
mod actor_run;
mod actor_threads;
mod gate;
pub mod laws;
mod lent_objects;
mod new_objects;
mod patience;
mod slots;
mod spent_objects;
mod start;
mod stored_objects;

pub use actor_run::{Playing, run_actor};
pub use actor_scripts::{ActorScript, Step};
pub use actor_threads::run_actors;
pub use gate::{ActorEnd, Gate};
