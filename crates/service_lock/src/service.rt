//! The service, and its lock.
ghost use Rattle.std.specs.Prelude.{◌≡◌, ◌≤◌};
ghost use Rattle.std.specs.Sync.Mutex.{mutex_guard_value};
ghost use Rattle.service_lock.specs.States.{IsSetUpWith};
ghost use Rattle.service_lock.specs.Units.{AreFor};

use crate::blank_books::BlankBooks;
use crate::setup::Setup;
use crate::state::State;
use sm_names::{Limits, MAX_PAGES, NoMemory};
use std::alloc::Global;
use std::sync::ledger::Ledger;
use std::sync::{Mutex, MutexGuard, Wait};

/// The service: one lock round its state. It must be ended.
///
/// Whenever a thread takes the lock, the record under it is a legal history, the core shows this history,
/// and the books count its events and open handles. The contracts of `entries`, `core` and `books` state
/// this of each state.
pub struct Service<E: Setup, S: Ledger, W: Ledger> {
    state: Mutex<State<E, S, W>>,
}

/// The held lock. The drop of the guard releases it.
///
/// It is a type of its own, so that no crate above works with a guard over the state's own fields.
pub struct Guard<'a, E: Setup, S: Ledger, W: Ledger> {
    lock: MutexGuard<'a, State<E, S, W>>,
}

impl<'a, E: Setup, S: Ledger, W: Ledger> Guard<'a, E, S, W> {
    /// The state, to read it. Costs nothing.
    pub fn state(&self) -> &State<E, S, W>
        ensures { result.now ≡ mutex_guard_value self.now.lock }
    {
        &*self.lock
    }

    /// The state, to change it. Costs nothing.
    pub fn state_mut(&mut self) -> &mut State<E, S, W>
        ensures { result.now ≡ mutex_guard_value self.old.lock }
    {
        &mut *self.lock
    }
}

impl<E: Setup, S: Ledger, W: Ledger> Drop for Guard<'_, E, S, W> {
    fn drop(self) {
        let Guard { lock } = self;
        drop(lock);
    }
}

impl<E: Setup, S: Ledger, W: Ledger> Service<E, S, W> {
    /// Makes a service without an event, with these limits, a pool of `pages` pages of 4,096 bytes, 1 to
    /// 1,048,576, and books of `MAX_SHARES` parts each. The seed of its hash table of handles is zeros.
    ///
    /// `NoMemory` if the pool's memory is refused. Costs O(pages).
    pub fn new(
        alloc: Global,
        blanks: BlankBooks,
        pages: u32,
        limits: Limits,
    ) -> Result<Service<E, S, W>, NoMemory>
        requires pages { (1 ≤ pages) × (pages ≤ MAX_PAGES) }
        requires blanks { AreFor E.name E.parts S.name S.parts W.name W.parts blanks }
        requires asked { IsSetUpWith E.pages E.limits pages limits }
    {
        Service::with_seed(alloc, blanks, pages, limits, [0; 16])
    }

    /// Does what `new` does, with this seed for the hash table of handles, as in `Core::with_seed`.
    pub fn with_seed(
        alloc: Global,
        blanks: BlankBooks,
        pages: u32,
        limits: Limits,
        seed: [u8; 16],
    ) -> Result<Service<E, S, W>, NoMemory>
        requires pages { (1 ≤ pages) × (pages ≤ MAX_PAGES) }
        requires blanks { AreFor E.name E.parts S.name S.parts W.name W.parts blanks }
        requires asked { IsSetUpWith E.pages E.limits pages limits }
    {
        Ok(Service {
            state: Mutex::new(State::new(alloc, blanks, pages, limits, seed)?),
        })
    }

    /// Waits for the lock. The thread that holds the lock has the state. Costs an exchange of one word if
    /// no thread holds the lock.
    pub fn lock<R: Wait>(&self, rt: &R) -> Guard<'_, E, S, W> {
        Guard {
            lock: self.state.lock(rt),
        }
    }

    /// Ends the service, and drops the record and the core. It takes no lock, since no other thread has
    /// the service any more.
    pub fn end(self) {
        let Service { state } = self;
        state.into_inner().end();
    }
}
