//! How far a search is.

/// Who is told how far a search is. Nothing comes back, so no answer of a search depends on it.
pub trait Progress {
    /// So many values of plays were met so far.
    fn met(&self, states: usize);

    /// The search is over.
    fn ended(&self);
}

/// Nobody is told.
#[derive(Clone, Copy)]
pub struct Silent;

impl Progress for Silent {
    fn met(&self, _states: usize) {}

    fn ended(&self) {}
}

/// How many values are met, at least, from one time that it is told to the next.
pub const PROGRESS_STEP: usize = 4096;

// Tells how many values were met, if so many are new since it was told, and answers how many were told of.
pub(crate) fn tell_met<P: Progress>(progress: &P, met: usize, told: usize) -> usize {
    if met.saturating_sub(told) < PROGRESS_STEP {
        return told;
    }
    progress.met(met);
    met
}
