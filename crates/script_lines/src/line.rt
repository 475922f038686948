//! What a line of a script says.
ghost use Rattle.std.specs.Prelude.{◌≡◌, ⊤};

use crate::buffer_label::BufferLabel;
use crate::label::Label;
use sm_names::{Argument, CallKind, Object};
use std::alloc::AllocError;

/// What a client asks: a call, in which `L` names clients, nodes and trackers, and `B` names buffers.
#[derive(Copy)]
pub struct Request<L, B> {
    pub kind: CallKind,
    pub object: Object<L, B>,
    pub argument: Argument<L>,
    /// What names the end or the tracker that the call makes or brings.
    pub binds: Option<L>,
}

// The proof of a derived clone takes ten times as long.
impl<L: Copy, B: Copy> Clone for Request<L, B> {
    ghost is_clone = { λ request copy. copy ≡ request };

    ghost is_infallible = { λ _. ⊤ };

    fn clone(&self) -> Result<Request<L, B>, AllocError> {
        Ok(*self)
    }
}

/// What a script may look at. It is no event.
#[derive(Clone, Copy, PartialEq, Eq)]
pub enum Query {
    /// The live nodes.
    Live,
    /// The held buffers.
    Held,
    /// The trackers that fired.
    Fired,
    /// The free pages.
    Free,
}

/// What a line says, before its labels are looked up.
#[derive(Clone, Copy)]
pub enum Line {
    /// The line is empty, or a remark.
    Nothing,
    /// `C join`
    Join {
        client: Label,
    },
    /// `C sync N` and the like: any call but a join.
    Ask {
        client: Label,
        request: Request<Label, BufferLabel>,
    },
    /// `C poll T`
    Poll {
        client: Label,
        tracker: Label,
    },
    /// `show live` and the like
    Show {
        view: Query,
    },
}
