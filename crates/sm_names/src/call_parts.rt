//! What a call is made of, and what the table of calls says of a kind.
ghost use Rattle.std.specs.Prelude.{◌≡◌, ⊤};
ghost use Rattle.sm_names.specs.CallRows.{brings_end as is_end, is_tracker as is_new_tracker};

use crate::call_rows::CallKind;
use crate::demands::Constraints;
use crate::keys::{BufferName, ClientId, NodeKey, Strength};
use std::alloc::AllocError;

/// What a call is made on. `N` is what names a node, and `B` what names a buffer.
#[derive(Copy)]
pub enum Object<N, B> {
    Nothing,
    Node(N),
    Buffer(B),
}

// The proof of a derived clone of such a generic type takes ten times as long.
impl<N: Copy, B: Copy> Clone for Object<N, B> {
    ghost is_clone = { λ object copy. copy ≡ object };

    ghost is_infallible = { λ _. ⊤ };

    fn clone(&self) -> Result<Object<N, B>, AllocError> {
        Ok(*self)
    }
}

/// What else a call says. `C` is what names a client.
#[derive(Copy)]
pub enum Argument<C> {
    Nothing,
    Client(C),
    /// For children too, or for the node alone.
    Children(bool),
    Constraints(Constraints),
    /// At most this many buffers.
    Most(u32),
    Strength(Strength),
    /// A handle of this strength, for this client.
    Gift(Strength, C),
}

impl<C: Copy> Clone for Argument<C> {
    ghost is_clone = { λ argument copy. copy ≡ argument };

    ghost is_infallible = { λ _. ⊤ };

    fn clone(&self) -> Result<Argument<C>, AllocError> {
        Ok(*self)
    }
}

/// A call, taken apart.
#[derive(Clone, Copy)]
pub struct CallParts {
    pub kind: CallKind,
    pub object: Object<NodeKey, BufferName>,
    pub argument: Argument<ClientId>,
}

/// What calls of a kind are made on.
#[derive(Clone, Copy, PartialEq, Eq)]
pub enum Target {
    Nothing,
    Token,
    Collection,
    /// A token or a collection.
    End,
    Handle,
}

/// Which form the argument of calls of a kind has.
#[derive(Clone, Copy, PartialEq, Eq)]
pub enum ArgumentForm {
    Nothing,
    Client,
    Children,
    Constraints,
    Most,
    Strength,
    Gift,
}

/// What calls of a kind make or bring, if they take effect.
#[derive(Clone, Copy, PartialEq, Eq)]
pub enum Product {
    Nothing,
    Client,
    /// A collection, with its root.
    Collection,
    Node,
    /// What the first parcel has: an end or a handle.
    Parcel,
    Handles,
    Tracker,
}

impl Product {
    /// Whether it is an end, or may be one. Costs O(1), as does `is_tracker`.
    pub fn brings_end(self) -> bool
        ensures { result ≡ is_end self }
    {
        matches!(self, Product::Collection | Product::Node | Product::Parcel)
    }

    /// Whether it is a tracker.
    pub fn is_tracker(self) -> bool
        ensures { result ≡ is_new_tracker self }
    {
        matches!(self, Product::Tracker)
    }
}

/// When calls of a kind spend what they are made on.
#[derive(Clone, Copy, PartialEq, Eq)]
pub enum Spends {
    Never,
    /// If the reply is Done.
    IfDone,
    /// If the reply is Done or PeerClosed.
    IfMet,
}

/// What calls of a kind are answered, if they take effect.
#[derive(Clone, Copy, PartialEq, Eq)]
pub enum Answer {
    Done,
    Joined,
    Shut,
    Token,
    /// Collected, CollectedHandle or Empty.
    Parcel,
    /// Allocated or Pending.
    Allocated,
    /// Taken or Pending.
    Taken,
    Tracker,
}

/// What is true of each call of a kind. A kind that brings nothing, spends nothing and is answered
/// Done or Allocated may be a query, which changes nothing.
#[derive(Clone, Copy, PartialEq, Eq)]
pub struct CallRow {
    pub on: Target,
    pub says: ArgumentForm,
    pub brings: Product,
    pub spends: Spends,
    pub answers: Answer,
}
