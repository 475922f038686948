//! A client asks for two buffers, takes them, and keeps them until its service ends.
ghost use Rattle.service_lock.specs.States.{IsSetUpWith};
ghost use Rattle.service_lock.specs.Units.{AreFor};

use client_ends::{Kept, end, join};
use service_lock::{BlankBooks, MAX_SHARES, Service, Setup};
use sm_names::{Constraints, Limits};
use std::alloc::Global;
use std::marker::Brand;
use std::sync::Wait;
use std::sync::ledger::{Blank, Ledger};

/// How many buffers the client got.
pub fn program<R: Wait>(rt: &R, alloc: Global) -> usize {
    let blanks = BlankBooks {
        events: Blank::new(MAX_SHARES),
        strong: Blank::new(MAX_SHARES),
        weak: Blank::new(MAX_SHARES),
    };
    play::<Brand, Brand, Brand, _>(rt, alloc, blanks, Limits::full())
}

fn play<E: Setup, S: Ledger, W: Ledger, R: Wait>(
    rt: &R,
    alloc: Global,
    blanks: BlankBooks,
    limits: Limits,
) -> usize
    requires blanks { AreFor E.name E.parts S.name S.parts W.name W.parts blanks }
    requires asked { IsSetUpWith E.pages E.limits 16 limits }
{
    let Ok(service) = Service::<E, S, W>::new(alloc, blanks, 16, limits) else {
        return 0;
    };
    let Ok(mut client) = join(rt, alloc, &service) else {
        service.end();
        return 0;
    };
    let bound = match client.open_root(rt, &service) {
        Ok(root) => Some(root.bind(rt, &service, &mut client)),
        Err(_) => None,
    };
    let taken = match (&bound, Constraints::new(2, 0, 4096)) {
        (Some(Ok(mine)), Some(two)) => {
            let _ = mine.set_constraints(rt, &service, &mut client, two);
            mine.take(rt, alloc, &service, &mut client)
        }
        _ => Ok(Vec::new(alloc)),
    };
    let ended = end(service);
    match bound {
        Some(Ok(mine)) => mine.spend(&ended),
        Some(Err(Kept { value, why: _ })) => value.spend(&ended),
        None => {}
    }
    client.spend(&ended);
    let Ok(mut handles) = taken else {
        return 0;
    };
    let count = handles.len();
    while let Some(handle) = handles.pop() {
        handle.spend(&ended);
    }
    handles.destroy_empty();
    count
}
