//! What is left of actors.
ghost use Rattle.std.specs.Prelude.{◌≡◌, ◌+◌, ◌≤◌, [], vec_len, vec_capacity};
ghost use Rattle.std.specs.List.{AllZip};
ghost use Rattle.thread_runs.specs.Gathered.{IsLeft, end_fault, first_fault, step_fault};

use crate::fault::ThreadsFault;
use client_actors::ActorEnd;
use client_ends::Held;
use client_vanish::Holding;
use service_lock::Setup;
use sm_names::StepFault;
use std::alloc::Global;
use std::sync::ledger::Ledger;

// Why a call was not made, as a fault of the run.
pub(crate) fn fault_of(fault: StepFault) -> ThreadsFault
    ensures { result ≡ step_fault fault }
{
    match fault {
        StepFault::HistoryFull => ThreadsFault::HistoryFull,
        StepFault::NoMemory => ThreadsFault::NoMemory,
    }
}

// What is left of an actor, and why it did not vanish, if it did not.
fn part_of<E: Setup, S: Ledger, W: Ledger>(
    alloc: Global,
    end: ActorEnd<E, S, W>,
) -> (Holding<E, S, W>, Option<ThreadsFault>)
    ensures part { IsLeft end result.0 }
    ensures fault { result.1 ≡ end_fault end }
{
    match end {
        ActorEnd::Wrecked(wreck) => (Holding::Wrecked(wreck), None),
        ActorEnd::Stopped(client, held, fault) => {
            (Holding::Present(client, held), Some(fault_of(fault)))
        }
        ActorEnd::NotStarted(client) => (
            Holding::Present(client, Held::new(alloc)),
            Some(ThreadsFault::NoThread),
        ),
    }
}

// Puts the part of each actor into the list, in order, and answers why the first of those that
// did not vanish did not.
pub(crate) fn part_all<E: Setup, S: Ledger, W: Ledger>(
    alloc: Global,
    ends: Vec<ActorEnd<E, S, W>>,
    parts: &mut Vec<Holding<E, S, W>>,
) -> Option<ThreadsFault>
    requires none { parts.old.items ≡ [] }
    requires room { vec_len parts.old + vec_len ends ≤ vec_capacity parts.old }
    ensures left { AllZip IsLeft ends.items parts.new.items }
    ensures fault { result ≡ first_fault ends.items }
{
    let mut ends = ends;
    let mut found = None;
    ends.reverse();
    'vanishing: while let Some(end) = ends.pop() {
        let (part, fault) = part_of(alloc, end);
        parts.push_reserved(part);
        found = found.or(fault);
    }
    ends.destroy_empty();
    found
}
