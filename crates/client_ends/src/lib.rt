//! Clients of the service, and the values that they hold: linear values, which must be spent.
//!
//! Each call that takes the service makes one event, unless its comment says otherwise. The client's share
//! of the book counts the event, the client's own list gets an entry with the call and the reply, and the
//! call answers by this reply. A call that ends in a `StepFault` is no event, and changes neither share
//! nor list: `HistoryFull` if the record is full, also if memory would be refused; otherwise `NoMemory` if
//! memory is refused.
//!
//! One event costs the lock, the core's step, and a place at the end of the record and of the own list,
//! which grow by doubling. No call searches a list.
#![tactic(auto)]

mod client;
mod collections;
mod draft;
mod ended;
mod ends;
mod handle;
mod held;
mod syncing;
mod taking;
mod tokens;
mod why;

pub use client::{Client, join};
pub use draft::{Draft, DraftPart, Synced};
pub use ended::{EndedService, end};
pub use ends::{Bound, CollectionEnd, EndOf, TokenEnd, Unbound};
pub use event_laws::Own;
pub use handle::Handle;
pub use held::{Held, ParcelContent};
pub use service_lock::memory_fault;
pub use why::{Kept, Why};
