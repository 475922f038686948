//! Two actors, each of whom waits for the other.
use super::together::{gather_and_end, two};
use client_actors::Gate;
use service_lock::{Service, Setup};
use sm_names::{ClientId, Reply};
use std::alloc::Global;
use std::process::Abort;
use std::sync::Wait;
use std::sync::atomic::{AtomicBool, Ordering};
use std::sync::ledger::Ledger;
use std::thread;
use std::thread::Threads;
use std::time::{Clock, Instant};

// Holds the first step of one actor until that of the other is answered, and the other's until the
// one is at its own.
struct Meet<'a, R: Clock> {
    rt: &'a R,
    is_there: AtomicBool,
    is_answered: AtomicBool,
    gave_up: AtomicBool,
}

// The client that comes first.
const FIRST: ClientId = 1;

// How often it looks, and for how many seconds.
const TURNS: u64 = 100_000_000;

const SECONDS: u64 = 10;

impl<R: Clock> Meet<'_, R> {
    // Waits for so long at most.
    fn wait_for(&self, word: &AtomicBool) {
        let Ok(began) = Instant::now(self.rt) else {
            self.gave_up.store(true, Ordering::SeqCst);
            return;
        };
        for _ in 0..TURNS {
            if word.load(Ordering::SeqCst) {
                return;
            }
            match began.elapsed(self.rt) {
                Ok(passed) if passed.as_secs() < SECONDS => thread::yield_now(),
                _ => break,
            }
        }
        self.gave_up.store(true, Ordering::SeqCst);
    }
}

impl<R: Clock> Gate for Meet<'_, R> {
    fn before(&self, client: ClientId, step: u64) {
        if step != 1 {
            return;
        }
        if client == FIRST {
            self.is_there.store(true, Ordering::SeqCst);
            self.wait_for(&self.is_answered);
        } else {
            self.wait_for(&self.is_there);
        }
    }

    fn after(&self, client: ClientId, step: u64, reply: &Option<Reply>) {
        if step == 1 && client != FIRST && reply.is_some() {
            self.is_answered.store(true, Ordering::SeqCst);
        }
    }
}

/// Both begin, and both end.
pub fn meeting<
    E: Setup + Send + Sync,
    S: Ledger + Send + Sync,
    W: Ledger + Send + Sync,
    R: Threads + Wait + Clock + Abort + Sync,
>(rt: &R, alloc: Global, service: Service<E, S, W>) {
    let gate = Meet {
        rt,
        is_there: AtomicBool::new(false),
        is_answered: AtomicBool::new(false),
        gave_up: AtomicBool::new(false),
    };
    let parts = two(rt, alloc, &service, &gate);
    let Meet {
        rt: _,
        is_there: _,
        is_answered,
        gave_up,
    } = gate;
    assert!(rt; is_answered.load(Ordering::SeqCst) && !gave_up.load(Ordering::SeqCst));
    gather_and_end(rt, alloc, service, parts);
}
