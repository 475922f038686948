//! That what is undone takes no memory.
use buffer_holds::{HoldFault, Holds};
use sm_names::{BufferName, ClientId, NoMemory, Strength};
use std::alloc::Global;

const BUFFER: BufferName = BufferName {
    collection: 7,
    index: 0,
};

// Whether a handle of the client goes into a parcel, lands with another client and is closed there.
fn lands(holds: &mut Holds, client: ClientId) -> bool {
    if let Err(NoMemory) = holds.reserve_landing() {
        return true;
    }
    holds.lift(client, BUFFER, Strength::Weak);
    let other = client.wrapping_add(40);
    if holds.moving(BUFFER, Strength::Weak) > 0
        && holds.land(other, BUFFER, Strength::Weak).is_err()
    {
        return false;
    }
    holds.sub(other, BUFFER, Strength::Weak)
}

// Whether a handle of the client is opened, closed and opened again, and then lands.
fn is_undone(holds: &mut Holds, client: ClientId) -> bool {
    if let Err(fault) = holds.add(client, BUFFER, Strength::Weak) {
        return fault == HoldFault::NoMemory;
    }
    holds.sub(client, BUFFER, Strength::Weak)
        && holds.add(client, BUFFER, Strength::Weak).is_ok()
        && lands(holds, client)
}

// Whether that is so of each of forty clients.
fn all_are_undone(holds: &mut Holds) -> bool {
    for client in 1..=40 {
        if !is_undone(holds, client) {
            return false;
        }
    }
    true
}

// Whether that is so from the start on.
fn is_all_undone(alloc: Global) -> bool {
    let mut holds = Holds::new(alloc, 9);
    all_are_undone(&mut holds)
}

// Run with the Nth allocation refused, this shows that undoing asks for no memory, nor does landing
// what was lifted, once there is a place for it, whoever lands it.
#[test]
fn undoing_a_count_takes_no_memory(rt: HostRuntime) {
    assert!(rt; is_all_undone(rt.alloc()));
}
