//! How far a search goes.

/// How many values of plays a search meets at most, and whether it plays each of them again, so that it is known whether
/// an outcome is missing.
#[derive(Clone, Copy)]
pub struct Effort {
    pub most: usize,
    pub certifies: bool,
}
