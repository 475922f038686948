//! Numbers on a core that starts late. Each client, collection, tracker and event has a number that is greater than in the
//! rows, by as many events as came before.
use sm_names::{BufferName, Call, Fired, HeldBuffer, Reply};

/// From here on the sixth event has a number of more than 32 bits.
pub const LATE: u64 = 4_294_967_290;

/// The number on a core that starts after so many events. 0 stands for nobody.
pub fn later(start: u64, number: u64) -> u64 {
    if number == 0 {
        0
    } else {
        number.saturating_add(start)
    }
}

// The number in the rows.
fn earlier(start: u64, number: u64) -> u64 {
    number.saturating_sub(start)
}

fn later_buffer(start: u64, buffer: BufferName) -> BufferName {
    BufferName {
        collection: later(start, buffer.collection),
        index: buffer.index,
    }
}

/// The firing, by these numbers.
pub fn later_firing(start: u64, fired: Fired) -> Fired {
    Fired {
        tracker: later(start, fired.tracker),
        event: later(start, fired.event),
    }
}

/// The buffer that holds pages, by these numbers.
pub fn later_held(start: u64, held: HeldBuffer) -> HeldBuffer {
    HeldBuffer {
        buffer: later_buffer(start, held.buffer),
        pages: held.pages,
    }
}

/// The call, by these numbers.
pub fn later_call(start: u64, call: Call) -> Call {
    match call {
        Call::Give(key, to) => Call::Give(key, later(start, to)),
        Call::DupHandle(buffer, strength) => Call::DupHandle(later_buffer(start, buffer), strength),
        Call::DropHandle(buffer, strength) => {
            Call::DropHandle(later_buffer(start, buffer), strength)
        }
        Call::GiveHandle(buffer, strength, to) => {
            Call::GiveHandle(later_buffer(start, buffer), strength, later(start, to))
        }
        Call::TrackWeak(buffer) => Call::TrackWeak(later_buffer(start, buffer)),
        _ => call,
    }
}

/// The reply, by the numbers in the rows.
pub fn earlier_reply(start: u64, reply: Reply) -> Reply {
    match reply {
        Reply::Joined(id) => Reply::Joined(earlier(start, id)),
        Reply::Token { key, collection } => Reply::Token {
            key,
            collection: earlier(start, collection),
        },
        Reply::Collected {
            key,
            kind,
            collection,
        } => Reply::Collected {
            key,
            kind,
            collection: earlier(start, collection),
        },
        Reply::CollectedHandle { buffer, strength } => Reply::CollectedHandle {
            buffer: BufferName {
                collection: earlier(start, buffer.collection),
                index: buffer.index,
            },
            strength,
        },
        Reply::Taken {
            collection,
            strength,
            set,
        } => Reply::Taken {
            collection: earlier(start, collection),
            strength,
            set,
        },
        Reply::Tracker(id) => Reply::Tracker(earlier(start, id)),
        _ => reply,
    }
}
