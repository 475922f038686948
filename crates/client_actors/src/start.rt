//! Where threads wait for one another before they start.
use std::sync::{Condvar, Mutex, Wait};
use std::time::{Clock, Duration};

// For how many seconds the threads that have started wait for the next one.
const PATIENCE: u64 = 10;

// A thread that the system refuses never starts. So the threads that have started begin without
// the others once no thread was added for a while.
#[derive(Drop)]
pub(crate) struct StartBarrier {
    // How many threads have not started yet, or `None` once the others have begun.
    awaited: Mutex<Option<usize>>,
    begun: Condvar,
}

impl StartBarrier {
    // Where this many are to come.
    pub(crate) fn new(count: usize) -> StartBarrier {
        StartBarrier {
            awaited: Mutex::new(Some(count)),
            begun: Condvar::new(),
        }
    }

    // Waits until all have come, or nobody came for a while: whether the caller came before that.
    pub(crate) fn come<R: Wait + Clock>(&self, rt: &R) -> bool {
        let mut awaited = self.awaited.lock(rt);
        let Some(count) = *awaited else {
            return false;
        };
        let patience = Duration::from_secs(PATIENCE);
        let mut left = count.saturating_sub(1);
        *awaited = Some(left);
        for _ in rt.forever() {
            if left == 0 {
                *awaited = None;
                self.begun.notify_all();
                return true;
            }
            let (guard, waited) = self.begun.wait_timeout(rt, awaited, patience);
            awaited = guard;
            match *awaited {
                None => return true,
                Some(now) if now == left && waited.timed_out() => left = 0,
                Some(now) => left = now,
            }
        }
        unreachable!()
    }
}
