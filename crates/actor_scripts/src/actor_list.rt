//! The actors of a script.
use crate::ActorScript;
use script_lines::Label;

/// The clients of a script, and what each is to do.
#[derive(Drop)]
pub struct ActorList {
    /// The labels of the clients, in the order of their joins.
    pub labels: Vec<Label>,
    /// The steps of each, in the same order.
    pub scripts: Vec<ActorScript>,
}
