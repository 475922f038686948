//! Cores that are lent to what plays on them, and what is often asked of one by client 1.
use super::forgetting::{Leaving, leave_beside};
use super::lasting::{collects, forgets_firings, lasts};
use super::lending::on_core;
use super::limits::{has_rounds, stops};
use super::strangers::knows_nobody;
use super::vanishing::come_and_go;
use lifetime_core::Core;
use sm_names::{Call, NodeKey, Refusal, Reply};
use std::alloc::Global;

/// What is played on a core that has seen nothing.
#[derive(Clone, Copy)]
pub enum Play {
    Strangers,
    Keys,
    LastEvent,
    Lasting,
    Forgotten,
    Collected,
    Vanish,
    /// Units of this many nodes come and go.
    Units(u8, Leaving),
}

impl Play {
    // Whether all goes well on this core.
    fn goes_well(self, alloc: Global, core: &mut Core) -> bool {
        match self {
            Play::Strangers => knows_nobody(core),
            Play::Keys => has_rounds(alloc, core),
            Play::LastEvent => stops(alloc, core),
            Play::Lasting => lasts(core),
            Play::Forgotten => forgets_firings(core),
            Play::Collected => collects(core),
            Play::Vanish => come_and_go(alloc, core),
            Play::Units(nodes, leaving) => leave_beside(alloc, core, nodes, leaving),
        }
    }
}

fn is_played(alloc: Global, limits: [u32; 5], play: Play) -> bool {
    on_core(alloc, limits, |core| play.goes_well(alloc, core))
}

/// Whether all goes well on a new core with these limits. It is played once more where memory was refused.
pub fn goes_well(alloc: Global, limits: [u32; 5], play: Play) -> bool {
    is_played(alloc, limits, play) || is_played(alloc, limits, play)
}

/// Whether the first client joins.
pub fn joins(core: &mut Core) -> bool {
    core.step(0, Call::Join) == Ok(Reply::Joined(1))
}

/// Whether the call is answered Done.
pub fn is_done(core: &mut Core, call: Call) -> bool {
    core.step(1, call) == Ok(Reply::Done)
}

/// Whether the call is so refused.
pub fn is_refused(core: &mut Core, call: Call, refusal: Refusal) -> bool {
    core.step(1, call) == Ok(Reply::Refused(refusal))
}

/// The token that the call makes.
pub fn token(core: &mut Core, call: Call) -> Option<NodeKey> {
    match core.step(1, call) {
        Ok(Reply::Token { key, .. }) => Some(key),
        _ => None,
    }
}

/// The root that the client opens once it has joined.
pub fn first_root(core: &mut Core) -> Option<NodeKey> {
    if joins(core) {
        token(core, Call::OpenRoot)
    } else {
        None
    }
}

/// Whether this many such calls each make a token or a tracker.
pub fn makes(core: &mut Core, call: &Call, count: u32) -> bool {
    for _ in 0..count {
        match core.step(1, *call) {
            Ok(Reply::Token { .. } | Reply::Tracker(_)) => {}
            _ => return false,
        }
    }
    true
}
