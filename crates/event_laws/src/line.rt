//! What is said of each client.
ghost use Rattle.std.specs.Prelude.{◌≡◌, ◌<◌, ◌+◌, ◌^◌};
ghost use Rattle.event_laws.specs.Lines.{gained_by, lost_by};

use crate::amounts::{count_one, count_set};
use crate::own::Own;
use sm_names::{Call, ClientId, Reply, Strength};

/// A client: how many events it made after its Join, and how many handles of each strength it has
/// open.
#[derive(Clone, Copy, PartialEq, Eq)]
pub struct ClientLine {
    pub client: ClientId,
    pub events: u64,
    pub strong: u64,
    pub weak: u64,
}

// How many handles of this strength the event brought its client.
fn gained(strength: Strength, own: &Own) -> u64
    ensures { result ≡ gained_by strength own.now.call own.now.reply }
{
    match own.call {
        Call::Take(_) => {
            if let Reply::Taken {
                collection: _,
                strength: taken,
                set,
            } = own.reply
            {
                return count_set(strength, taken, set);
            }
        }
        Call::DupHandle(_, dup) => {
            if let Reply::Done = own.reply {
                return count_one(strength, dup);
            }
        }
        Call::Collect => {
            if let Reply::CollectedHandle {
                buffer: _,
                strength: got,
            } = own.reply
            {
                return count_one(strength, got);
            }
        }
        _ => {}
    }
    0
}

// How many it took from its client.
fn lost(strength: Strength, own: &Own) -> u64
    ensures { result ≡ lost_by strength own.now.call own.now.reply }
{
    match own.call {
        Call::DropHandle(_, dropped) => {
            if let Reply::Done = own.reply {
                return count_one(strength, dropped);
            }
        }
        Call::GiveHandle(_, given, _) => {
            if let Reply::Done = own.reply {
                return count_one(strength, given);
            }
        }
        _ => {}
    }
    0
}

/// How many handles of one strength a client was brought, and how many were taken from it.
#[derive(Clone, Copy)]
pub(crate) struct Balance {
    pub gained: u64,
    pub lost: u64,
}

pub(crate) const NOTHING: Balance = Balance { gained: 0, lost: 0 };

impl Balance {
    /// Counts one event.
    pub fn count(&mut self, strength: Strength, own: &Own)
        requires gained { self.old.gained + gained_by strength own.now.call own.now.reply < 2 ^ 64 }
        requires lost { self.old.lost + lost_by strength own.now.call own.now.reply < 2 ^ 64 }
        ensures gained { self.new.gained
            ≡ self.old.gained + gained_by strength own.now.call own.now.reply }
        ensures lost { self.new.lost ≡ self.old.lost + lost_by strength own.now.call own.now.reply }
    {
        self.gained += gained(strength, own);
        self.lost += lost(strength, own);
    }
}
