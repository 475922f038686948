//! What is seen of a core.
use super::late::{later_firing, later_held};
use super::player::Player;
use super::scripts::{Look, Script};
use lifetime_core::Core;
use sm_names::{Cause, Fired, HeldBuffer, NodeKey};

// The live nodes. Where memory is refused, it is asked for again.
fn live(core: &Core) -> Option<Vec<NodeKey>> {
    match core.live() {
        Ok(live) => Some(live),
        Err(_) => core.live().ok(),
    }
}

// The buffers that hold pages. Where memory is refused, it is asked for again.
fn held(core: &Core) -> Option<Vec<HeldBuffer>> {
    match core.held() {
        Ok(held) => Some(held),
        Err(_) => core.held().ok(),
    }
}

// Whether these nodes are live.
fn sees_live(core: &Core, wanted: &[NodeKey]) -> bool {
    match live(core) {
        Some(live) => live.as_slice() == wanted,
        None => false,
    }
}

// Whether these buffers hold pages, and this many pages are free.
fn sees_pages(core: &Core, wanted: &[HeldBuffer], free: u32) -> bool {
    match held(core) {
        Some(held) => held.as_slice() == wanted && core.free_pages() == free,
        None => false,
    }
}

/// Whether nothing is live in the core and nothing held.
pub fn is_empty(core: &Core) -> bool {
    sees_live(core, &[]) && sees_pages(core, &[], 16)
}

// Whether two cores see the same live nodes.
fn see_the_same_live(core: &Core, other: &Core) -> bool {
    match live(core) {
        Some(live) => sees_live(other, &live),
        None => false,
    }
}

// Whether they see the same pages.
fn see_the_same_pages(core: &Core, other: &Core) -> bool {
    match held(core) {
        Some(held) => sees_pages(other, &held, core.free_pages()),
        None => false,
    }
}

/// Whether two cores see the same, but for the number of events.
pub fn see_the_same(core: &Core, other: &Core) -> bool {
    see_the_same_live(core, other)
        && see_the_same_pages(core, other)
        && core.fired() == other.fired()
}

// Whether these buffers hold pages.
fn are_held(player: &Player, wanted: &[HeldBuffer]) -> bool {
    let Some(held) = held(player.core()) else {
        return false;
    };
    for (seen, one) in held.iter().zip(wanted) {
        if *seen != later_held(player.start(), *one) {
            return false;
        }
    }
    held.len() == wanted.len()
}

/// Whether all is seen that is to be seen after this many calls.
pub fn looks_so(player: &Player, looks: &[Look]) -> bool {
    for (made, free, held) in looks {
        let is_then = *made == player.made();
        if is_then && !(are_held(player, held) && player.core().free_pages() == *free) {
            return false;
        }
    }
    true
}

/// Whether these are all firings.
pub fn are_fired(player: &Player, wanted: &[Fired]) -> bool {
    let fired = player.core().fired();
    for (seen, one) in fired.iter().zip(wanted) {
        if *seen != later_firing(player.start(), *one) {
            return false;
        }
    }
    fired.len() == wanted.len()
}

// Whether the calls of these numbers made these nodes.
fn are_numbered(player: &Player, keys: &[NodeKey], numbers: &[u64]) -> bool {
    for (key, number) in keys.iter().zip(numbers) {
        if player.key_of(*number) != *key {
            return false;
        }
    }
    keys.len() == numbers.len()
}

fn are_live(player: &Player, numbers: &[u64]) -> bool {
    match live(player.core()) {
        Some(live) => are_numbered(player, &live, numbers),
        None => false,
    }
}

// Why and where the node failed, by the script.
fn failure_of(player: &Player, script: &Script, number: u64) -> Option<(Cause, NodeKey)> {
    for (failed, cause, origin) in script.failed {
        if *failed == number {
            return Some((*cause, player.key_of(*origin)));
        }
    }
    None
}

// Whether the node of this number is live, and failed, as the script says.
fn is_node(player: &Player, script: &Script, number: u64) -> bool {
    let key = player.key_of(number);
    player.core().is_live(key) == script.live.contains(&number)
        && player.core().cause(key) == failure_of(player, script, number)
}

// Whether each node is so. A call that made none has a key that no node has.
fn are_nodes(player: &Player, script: &Script) -> bool {
    for number in 0..64 {
        if !is_node(player, script, number) {
            return false;
        }
    }
    true
}

/// Whether the core ends as the script says.
pub fn ends_so(player: &Player, script: &Script) -> bool {
    are_live(player, script.live) && are_nodes(player, script) && are_fired(player, script.fired)
}
