//! Scripts of actors: the lines of all clients, read as the steps of each.
#![tactic(auto)]

mod actor_list;
mod actor_state;
mod builder;
mod calls;
mod fault;
mod halt;
mod input;
mod labels;
mod object;
mod queues;
mod replies;
mod script;
mod step;

pub use actor_list::ActorList;
pub use actor_state::ActorState;
pub use fault::ActorScriptFault;
pub use object::{ActorObject, StepCall};
pub use script::read_actors;
pub use script_lines::Request;
pub use step::{ActorScript, Step, StepBuffer};
