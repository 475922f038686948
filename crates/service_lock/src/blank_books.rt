//! The books before they are opened.
use std::sync::ledger::Blank;

/// The number of parts of each book. Each `Units` has one part of each book, and the lock keeps one: so
/// the number of clients and open handles together is below this number at any time.
pub const MAX_SHARES: u64 = 1 << 40;

/// A blank for each book: that of the events, of the open strong handles and of the open weak handles.
#[derive(Drop)]
pub struct BlankBooks {
    pub events: Blank,
    pub strong: Blank,
    pub weak: Blank,
}
