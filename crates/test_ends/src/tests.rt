//! What no contract says: that calls succeed, that trackers tell without the lock, and that what was gathered is all.
use client_vanish::GatherFault;
use crowd::PAGES;
use example::program;
use stage::{Scene, stage};
use std::test::Fail;

mod actors;
mod asking;
mod crowd;
mod drafting;
mod example;
mod limits;
mod lock;
mod memory;
mod remains;
mod retried;
mod retrying;
mod stage;
mod typed;
mod vanishing;

#[test]
fn sync_makes_the_drafted_calls(rt: HostRuntime) {
    stage(&rt, rt.alloc(), Scene::Drafts, 2)
}

#[test]
fn every_typed_call_succeeds_after_out_of_memory(rt: HostRuntime) {
    stage(&rt, rt.alloc(), Scene::Typed, 64)
}

#[test]
fn each_typed_call_after_the_last_event_is_answered_history_full(rt: HostRuntime) {
    stage(&rt, rt.alloc(), Scene::LastEvent, 1)
}

#[test]
fn nothing_is_left_of_clients_in_threads(rt: HostRuntime) {
    stage(&rt, rt.alloc(), Scene::Crowd, PAGES)
}

#[test]
fn values_are_spent_once_the_service_has_ended(rt: HostRuntime) {
    stage(&rt, rt.alloc(), Scene::Remains, 4)
}

#[test]
fn drafts_and_gifts_succeed_after_out_of_memory(rt: HostRuntime) {
    stage(&rt, rt.alloc(), Scene::Memory, 16)
}

#[test]
fn the_program_of_the_page_gets_two_buffers(rt: HostRuntime) {
    assert_eq!(&rt; program(&rt, rt.alloc()), 2)
}

#[test]
fn a_client_that_vanishes_closes_the_ends_in_its_parcels(rt: HostRuntime) {
    stage(&rt, rt.alloc(), Scene::Vanished, 2)
}

#[test]
fn gather_finds_missing_parts_and_handles(rt: HostRuntime) {
    stage(&rt, rt.alloc(), Scene::Gathered, 32)
}

#[test]
fn a_handle_in_a_parcel_is_open_until_its_receiver_vanishes(rt: HostRuntime) {
    stage(&rt, rt.alloc(), Scene::Handed, 4)
}

#[test]
fn vanish_and_gather_succeed_after_out_of_memory(rt: HostRuntime) {
    stage(&rt, rt.alloc(), Scene::MemoryOfTwo, 16)
}

#[test]
fn faults_have_texts(rt: HostRuntime) -> Result<(), Fail> {
    let texts = [
        (GatherFault::NoMemory, "no memory"),
        (GatherFault::MissingClient(7), "missing client 7"),
        (
            GatherFault::OpenValues {
                strong: 2,
                weak: 10,
            },
            "open values 2 10",
        ),
        (GatherFault::RecordMismatch(12), "record differs at 12"),
    ];
    for (fault, text) in texts {
        let told = format!(in rt.alloc(); "{fault}")?;
        assert_eq!(rt; told.as_str(), text);
    }
    Ok(())
}
