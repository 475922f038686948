//! Steps, and a gate that tells nobody.
use actor_scripts::{Request, Step};
use client_actors::Gate;
use sm_names::{Argument, CallKind, ClientId, Object, Reply};

/// Tells nobody.
pub struct Silent;

impl Gate for Silent {
    fn before(&self, _client: ClientId, _step: u64) {}

    fn after(&self, _client: ClientId, _step: u64, _reply: &Option<Reply>) {}
}

/// A new collection, whose root is to have this label.
pub fn open(root: u32) -> Step {
    Step::Ask {
        request: Request {
            kind: CallKind::OpenRoot,
            object: Object::Nothing,
            argument: Argument::Nothing,
            binds: Some(root),
        },
    }
}

/// The next parcel, whose node is to have this label.
pub fn collect(node: u32) -> Step {
    Step::Ask {
        request: Request {
            kind: CallKind::Collect,
            object: Object::Nothing,
            argument: Argument::Nothing,
            binds: Some(node),
        },
    }
}

/// A call on the node of this label.
pub fn ask(kind: CallKind, argument: Argument<u32>, node: u32) -> Step {
    Step::Ask {
        request: Request {
            kind,
            object: Object::Node(node),
            argument,
            binds: None,
        },
    }
}
