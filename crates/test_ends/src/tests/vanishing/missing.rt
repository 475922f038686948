//! What is gathered, and what is missed.
use super::{gathered, is_missed};
use crate::tests::asking::{last_of, made, put};
use crate::tests::retrying::filled_again;
use client_ends::{Client, Handle, Held, join};
use client_vanish::{GatherFault, Holding, Report, end_service};
use service_lock::{Service, Setup};
use sm_names::ClientId;
use std::alloc::Global;
use std::process::Abort;
use std::sync::Wait;
use std::sync::ledger::Ledger;

// A client with a collection of two buffers and a handle on each: 5 events.
fn owner<E: Setup, S: Ledger, W: Ledger, R: Wait + Abort>(
    rt: &R,
    alloc: Global,
    service: &Service<E, S, W>,
) -> (Client<E, S, W>, Held<E, S, W>) {
    let mut client = made(rt, join(rt, alloc, service));
    let (root, handles) = filled_again(rt, alloc, service, &mut client, 2);
    let mut held = Held {
        tokens: Vec::new(alloc),
        collections: Vec::new(alloc),
        handles,
    };
    put(rt, &mut held.collections, root);
    (client, held)
}

// The handles of the first part.
fn handles_of<'a, E: Setup, S: Ledger, W: Ledger, R: Abort>(
    rt: &R,
    parts: &'a mut Vec<Holding<E, S, W>>,
) -> &'a mut Vec<Handle<E, S, W>> {
    match parts.first_mut() {
        Some(Holding::Present(_, held)) => &mut held.handles,
        _ => panic!(rt; "no part"),
    }
}

// The report is of 5 events and two strong handles, all of them this client's.
fn is_all(report: &Report, client: ClientId) -> bool {
    match report.lines.as_slice() {
        [line] => {
            (report.events, report.strong, report.weak) == (5, 2, 0)
                && (line.client, line.events) == (client, 4)
                && (line.strong, line.weak) == (2, 0)
        }
        _ => false,
    }
}

/// With no part, with a handle kept back, and with all.
pub fn all_gathered<E: Setup, S: Ledger, W: Ledger, R: Wait + Abort>(
    rt: &R,
    alloc: Global,
    service: Service<E, S, W>,
) {
    let (client, held) = owner(rt, alloc, &service);
    let id = client.id();
    let (mut parts, missed) = gathered(rt, alloc, &service, Vec::new(alloc));
    assert!(rt; is_missed(&missed, GatherFault::MissingClient(id)));
    put(rt, &mut parts, Holding::Present(client, held));
    let back = last_of(rt, handles_of(rt, &mut parts));
    let (mut parts, missed) = gathered(rt, alloc, &service, parts);
    assert!(rt; is_missed(&missed, GatherFault::OpenValues { strong: 1, weak: 0 }));
    put(rt, handles_of(rt, &mut parts), back);
    let (parts, answer) = gathered(rt, alloc, &service, parts);
    assert!(rt; is_all(&made(rt, answer), id));
    end_service(service, parts);
}
