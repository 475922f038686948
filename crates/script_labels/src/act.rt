//! What a line asks for, once its labels are looked up.
use script_lines::{Label, Query};
use sm_names::{Call, ClientId, TrackerId};

/// What a label is to stand for, if the call makes it.
#[derive(Clone, Copy)]
pub enum Binds {
    Nothing,
    Client(Label),
    Node(Label),
    Tracker(Label),
}

/// What a line asks for.
#[derive(Clone, Copy)]
pub enum Act {
    Nothing,
    /// A call by this client.
    Ask {
        client: ClientId,
        call: Call,
        binds: Binds,
    },
    /// A look at the reader of this tracker. It is no event.
    Poll(TrackerId),
    /// A look at the state. It is no event.
    Show(Query),
}
