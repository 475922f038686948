//! A record that is full.
ghost use Rattle.std.specs.Prelude.{◌≡◌};

use super::asking::{made, none_left, stands};
use client_ends::{Client, Draft, DraftPart, TokenEnd, Why, end, join};
use service_lock::{Service, Setup};
use sm_names::StepFault;
use std::alloc::Global;
use std::process::Abort;
use std::sync::Wait;
use std::sync::ledger::Ledger;

// A draft that is not made comes back as it was, and nothing was told.
fn stopped<E: Setup, S: Ledger, W: Ledger, R: Wait + Abort>(
    rt: &R,
    alloc: Global,
    service: &Service<E, S, W>,
    client: &mut Client<E, S, W>,
    draft: Draft<E>,
) -> TokenEnd<E>
    requires { draft.token.client ≡ client.old.id }
{
    match draft.sync(rt, alloc, service, client) {
        Err((draft, part, StepFault::HistoryFull)) => {
            let DraftPart { made, replies } = part;
            assert!(rt; replies.is_empty());
            none_left(rt, made);
            draft.abandon()
        }
        _ => panic!(rt; "a Sync more"),
    }
}

/// After as many events as may be no client joins and none makes an event, and all stays as it was.
pub fn last_event<E: Setup, S: Ledger, W: Ledger, R: Wait + Abort>(
    rt: &R,
    alloc: Global,
    service: Service<E, S, W>,
) {
    let mut client = made(rt, join(rt, alloc, &service));
    let root = made(rt, client.open_root(rt, &service));
    match join(rt, alloc, &service) {
        Err(StepFault::HistoryFull) => {}
        _ => panic!(rt; "one client more"),
    }
    match client.collect(rt, &service) {
        Err(Why::Fault(StepFault::HistoryFull)) => {}
        _ => panic!(rt; "one event more"),
    }
    let root = stopped(rt, alloc, &service, &mut client, root.draft(alloc));
    assert!(rt; stands(rt, &service, &client, 2, 0, 0));
    let ended = end(service);
    root.spend(&ended);
    client.spend(&ended);
}
