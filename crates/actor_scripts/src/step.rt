//! What an actor's script says. Labels are numbers: those of nodes and of trackers are the actor's
//! own, and a client's is its place among the scripts.
use script_lines::Request;

/// A buffer in a step: one of the collection of the node of this label, and its index.
#[derive(Clone, Copy)]
pub struct StepBuffer {
    pub node: u32,
    pub index: u8,
}

/// One step of a script.
#[derive(Clone, Copy)]
pub enum Step {
    /// A call.
    Ask { request: Request<u32, StepBuffer> },
    /// A look at the tracker of this label. It is no call.
    Poll { tracker: u32 },
}

/// The steps of one actor, in order.
#[derive(Drop)]
pub struct ActorScript {
    pub steps: Vec<Step>,
}
