//! Own lists that are parts of a record, and lists that are not.
use event_laws::{Own, Parts};
use sm_names::{Call, ClientId, Reply};
use std::alloc::Global;

// Clients 1 and 3 join; client 1 makes events 2 and 5, client 3 event 4.
const RECORD: [(ClientId, Call, Reply); 5] = [
    (0, Call::Join, Reply::Joined(1)),
    (1, Call::Collect, Reply::Empty),
    (0, Call::Join, Reply::Joined(3)),
    (3, Call::Shut, Reply::Shut(0)),
    (1, Call::Shut, Reply::Shut(0)),
];

// A call of the client's at this event, which is answered so.
macro_rules! own {
    ($event:literal $call:ident $reply:ident) => {
        Own {
            event: $event,
            call: Call::$call,
            reply: Reply::$reply,
        }
    };
    ($event:literal $call:ident Shut $waiting:literal) => {
        Own {
            event: $event,
            call: Call::$call,
            reply: Reply::Shut($waiting),
        }
    };
}

const COLLECT_2: Own = own!(2 Collect Empty);

const COLLECT_9: Own = own!(9 Collect Empty);

const SHUT_4: Own = own!(4 Shut Shut 0);

const SHUT_5: Own = own!(5 Shut Shut 0);

// Event 5 with another reply, and with another call.
const MISTOLD_5: Own = own!(5 Shut Shut 1);

const MISCALLED_5: Own = own!(5 Collect Shut 0);

// The events at which lists differ from the client's part of the record.
fn found(parts: &Parts) -> [Option<u64>; 12] {
    [
        parts.differ(1, &[COLLECT_2, SHUT_5]),
        parts.differ(3, &[SHUT_4]),
        parts.differ(9, &[]),
        // The event of the record, where the list has another one or is over.
        parts.differ(1, &[COLLECT_2, MISTOLD_5]),
        parts.differ(1, &[COLLECT_2, MISCALLED_5]),
        parts.differ(1, &[SHUT_5, COLLECT_2]),
        parts.differ(1, &[COLLECT_2, COLLECT_9]),
        parts.differ(1, &[COLLECT_2]),
        parts.differ(1, &[]),
        parts.differ(3, &[SHUT_5]),
        // The event of the list, where the record has no more.
        parts.differ(1, &[COLLECT_2, SHUT_5, COLLECT_9]),
        parts.differ(9, &[COLLECT_9]),
    ]
}

// The events of the lists above.
const FOUND: [Option<u64>; 12] = [
    None,
    None,
    None,
    Some(5),
    Some(5),
    Some(2),
    Some(5),
    Some(5),
    Some(2),
    Some(4),
    Some(9),
    Some(9),
];

fn are_told_apart(alloc: Global) -> bool {
    match Parts::new(alloc, &RECORD) {
        Ok(parts) => found(&parts) == FOUND,
        Err(_) => false,
    }
}

#[test]
fn differ_answers_the_first_event_that_differs(rt: HostRuntime) {
    assert!(rt; are_told_apart(rt.alloc()));
}
