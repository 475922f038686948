//! What an event does to the open handles of one strength.
ghost use Rattle.std.specs.Prelude.{◌≡◌};
ghost use Rattle.sm_names.specs.declared.messages.Reply.{Reply};
ghost use Rattle.service_lock.specs.Counting.{moves_by};

use event_laws::amounts::{count_one, count_set};
use sm_names::{Call, Reply, Strength};

/// How many handles of one strength an event opens, drops, puts into parcels, and takes out of parcels.
#[derive(Clone, Copy)]
pub(crate) struct HandleMoves {
    pub opened: u64,
    pub dropped: u64,
    pub sent: u64,
    pub got: u64,
}

const NO_MOVES: HandleMoves = HandleMoves {
    opened: 0,
    dropped: 0,
    sent: 0,
    got: 0,
};

// What the call does to the handles of this strength if it is answered Done.
fn moves_when_done(strength: Strength, call: &Call) -> HandleMoves
    ensures { result ≡ moves_by strength call.now Reply.Done }
{
    match *call {
        Call::DupHandle(_, dup) => HandleMoves {
            opened: count_one(strength, dup),
            ..NO_MOVES
        },
        Call::DropHandle(_, dropped) => HandleMoves {
            dropped: count_one(strength, dropped),
            ..NO_MOVES
        },
        Call::GiveHandle(_, given, _) => HandleMoves {
            sent: count_one(strength, given),
            ..NO_MOVES
        },
        _ => NO_MOVES,
    }
}

/// What the call with this reply does to the handles of this strength. Costs O(1).
pub(crate) fn moves_of(strength: Strength, call: &Call, reply: &Reply) -> HandleMoves
    ensures { result ≡ moves_by strength call.now reply.now }
{
    match *reply {
        Reply::Done => moves_when_done(strength, call),
        Reply::Taken {
            collection: _,
            strength: taken,
            set,
        } => match *call {
            Call::Take(_) => HandleMoves {
                opened: count_set(strength, taken, set),
                ..NO_MOVES
            },
            _ => NO_MOVES,
        },
        Reply::CollectedHandle {
            buffer: _,
            strength: got,
        } => match *call {
            Call::Collect => HandleMoves {
                got: count_one(strength, got),
                ..NO_MOVES
            },
            _ => NO_MOVES,
        },
        _ => NO_MOVES,
    }
}
