//! Clients in threads of their own at one service. Half-way each vanishes, and its thread has another join.
use super::asking::{made, put};
use super::vanishing::{gathered, gone, last_client};
use client_ends::{Client, Held, join};
use client_vanish::{Holding, end_service};
use service_lock::{Service, Setup, core};
use std::alloc::Global;
use std::process::Abort;
use std::sync::Wait;
use std::sync::ledger::Ledger;
use std::thread;
use std::thread::Threads;

// How many threads there are, and how many roots each of their two clients opens and closes.
const THREADS: usize = 4;

const ROOTS: u64 = 250;

/// How many pages the pool of their service has.
pub const PAGES: u32 = 8;

// Opens and closes the roots.
fn open_and_close<E: Setup, S: Ledger, W: Ledger, R: Wait + Abort>(
    rt: &R,
    service: &Service<E, S, W>,
    client: &mut Client<E, S, W>,
) {
    for _ in 0..ROOTS {
        let root = made(rt, client.open_root(rt, service));
        made(rt, root.close(rt, service, client));
    }
    assert!(rt; client.own().len() as u64 == 2 * ROOTS);
}

// The same, and vanishes.
fn play<E: Setup, S: Ledger, W: Ledger, R: Wait + Abort>(
    rt: &R,
    alloc: Global,
    service: &Service<E, S, W>,
    client: Client<E, S, W>,
) -> Holding<E, S, W> {
    let mut client = client;
    open_and_close(rt, service, &mut client);
    Holding::Wrecked(gone(rt, alloc, service, client))
}

// The thread's client plays, and then a second one.
fn play_both<E: Setup, S: Ledger, W: Ledger, R: Wait + Abort>(
    rt: &R,
    alloc: Global,
    service: &Service<E, S, W>,
    parts: &mut Vec<Holding<E, S, W>>,
) {
    let first = last_client(rt, parts);
    put(rt, parts, play(rt, alloc, service, first));
    let second = made(rt, join(rt, alloc, service));
    put(rt, parts, play(rt, alloc, service, second));
}

// A client for each thread.
fn seats<E: Setup, S: Ledger, W: Ledger, R: Wait + Abort>(
    rt: &R,
    alloc: Global,
    service: &Service<E, S, W>,
) -> Vec<Vec<Holding<E, S, W>>> {
    let mut seats = Vec::new(alloc);
    for _ in 0..THREADS {
        let client = made(rt, join(rt, alloc, service));
        let mut parts = Vec::new(alloc);
        put(rt, &mut parts, Holding::Present(client, Held::new(alloc)));
        put(rt, &mut seats, parts);
    }
    seats
}

// All parts of all threads.
fn parts_of<E: Setup, S: Ledger, W: Ledger, R: Abort>(
    rt: &R,
    alloc: Global,
    seats: Vec<Vec<Holding<E, S, W>>>,
) -> Vec<Holding<E, S, W>> {
    let mut seats = seats;
    let mut all = Vec::new(alloc);
    while let Some(seat) = seats.pop() {
        let mut parts = seat;
        while let Some(part) = parts.pop() {
            put(rt, &mut all, part);
        }
        parts.destroy_empty();
    }
    seats.destroy_empty();
    all
}

// No node is live, and no page is held.
fn is_clear<E: Setup, S: Ledger, W: Ledger, R: Wait + Abort>(
    rt: &R,
    service: &Service<E, S, W>,
) -> bool {
    let guard = service.lock(rt);
    let core = core(guard.state());
    core.free_pages() == PAGES
        && made(rt, core.live()).is_empty()
        && made(rt, core.held()).is_empty()
}

/// All clients play and vanish: the record has all their events, and nothing is left.
pub fn crowd<
    E: Setup + Send + Sync,
    S: Ledger + Send + Sync,
    W: Ledger + Send + Sync,
    R: Threads + Wait + Abort + Sync,
>(rt: &R, alloc: Global, service: Service<E, S, W>) {
    let mut seats = seats(rt, alloc, &service);
    thread::for_each_mut(
        rt,
        seats.as_mut_slice(),
        THREADS,
        &|_, parts| play_both(rt, alloc, &service, parts),
    );
    let (parts, answer) = gathered(rt, alloc, &service, parts_of(rt, alloc, seats));
    let report = made(rt, answer);
    assert!(rt; report.lines.len() == 2 * THREADS);
    // Each client joins, plays and is shut.
    assert!(rt; report.events == 2 * THREADS as u64 * (2 * ROOTS + 2));
    assert!(rt; (report.strong, report.weak) == (0, 0) && is_clear(rt, &service));
    end_service(service, parts);
}
