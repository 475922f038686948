//! Where look-ups found their counts.
use std::cell::Cell;

// Where the last look-ups found a client's page and the sum of a part. These are looked at first, and no
// clause knows of them.
#[derive(Drop)]
pub(crate) struct Last {
    pub(crate) row: Cell<usize>,
    pub(crate) sum: Cell<usize>,
}

impl Last {
    // Before the first look-up.
    pub(crate) fn new() -> Last {
        Last {
            row: Cell::new(0),
            sum: Cell::new(0),
        }
    }
}
