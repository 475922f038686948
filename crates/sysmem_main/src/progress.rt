//! The line that tells how far a search is.
ghost use Rattle.std.specs.Prelude.{◌≡◌};

use play_search::Progress;
use std::cell::Cell;
use std::fmt;
use std::time::{Clock, Instant};

// How far a search is: how many states it met, and how many seconds it took, if the clock says so.
#[derive(Clone, Copy)]
struct StatesMet {
    states: usize,
    seconds: Option<u64>,
}

impl fmt::Display for StatesMet {
    ghost use Rattle.std.specs.Prelude.{Some};
    ghost use Rattle.sysmem_main.specs.Messages.{reached_text};

    ghost output = { λ reached. Some (reached_text reached.states reached.seconds) };

    fn fmt<W: fmt::Write>(&self, f: &mut fmt::Formatter<W>) -> fmt::Result {
        let states = self.states;
        match self.seconds {
            Some(seconds) => write!(f, "\r{states} states, {seconds} s"),
            None => write!(f, "\r{states} states"),
        }
    }
}

// What covers the longest such line, and leaves the cursor at its start.
const BLANK: &str = "\r                                                   \r";

/// The line on standard error that tells how far a search is: each time in place of the one before. Nothing is written
/// where standard error is no terminal.
#[derive(Drop)]
pub(crate) struct ProgressLine<'a, R> {
    rt: &'a R,
    is_terminal: bool,
    begun: Option<Instant>,
    is_written: Cell<bool>,
}

impl<'a, R: Eprint + Clock> ProgressLine<'a, R> {
    /// Of a search that begins now.
    pub(crate) fn new(rt: &'a R, is_terminal: bool) -> ProgressLine<'a, R>
        ensures { result.is_terminal ≡ is_terminal }
    {
        ProgressLine {
            rt,
            is_terminal,
            begun: Instant::now(rt).ok(),
            is_written: Cell::new(false),
        }
    }

    // How many seconds the search took.
    fn seconds(&self) -> Option<u64> {
        let begun = self.begun?;
        let time = begun.elapsed(self.rt).ok()?;
        Some(time.as_secs())
    }
}

impl<R: Eprint + Clock> Progress for ProgressLine<'_, R> {
    fn met(&self, states: usize) {
        if self.is_terminal {
            let seconds = self.seconds();
            let _ = self.rt.eprint(StatesMet { states, seconds });
            self.is_written.set(true);
        }
    }

    fn ended(&self) {
        if self.is_written.get() {
            let _ = self.rt.eprint(BLANK);
        }
    }
}
