//! The values that a client holds.
ghost use Rattle.std.specs.Prelude.{◌≡◌, []};

use crate::ends::{CollectionEnd, TokenEnd};
use crate::handle::Handle;
use service_lock::Setup;
use std::alloc::Global;
use std::sync::ledger::Ledger;

/// The content of a parcel: an end of either kind, or a handle. It must be spent.
pub enum ParcelContent<E: Setup, S: Ledger, W: Ledger> {
    Token(TokenEnd<E>),
    Collection(CollectionEnd<E>),
    Handle(Handle<E, S, W>),
}

/// The values that a client holds. Each of them must be spent.
pub struct Held<E: Setup, S: Ledger, W: Ledger> {
    pub tokens: Vec<TokenEnd<E>>,
    pub collections: Vec<CollectionEnd<E>>,
    pub handles: Vec<Handle<E, S, W>>,
}

impl<E: Setup, S: Ledger, W: Ledger> Held<E, S, W> {
    /// No values: three empty lists. Takes no memory. Costs O(1).
    pub fn new(alloc: Global) -> Held<E, S, W>
        ensures tokens { result.tokens.items ≡ [] }
        ensures collections { result.collections.items ≡ [] }
        ensures handles { result.handles.items ≡ [] }
    {
        Held {
            tokens: Vec::new(alloc),
            collections: Vec::new(alloc),
            handles: Vec::new(alloc),
        }
    }
}
