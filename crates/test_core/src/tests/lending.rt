//! Cores and players that are lent to what plays on them. Each is owned here alone: at each exit of an
//! owner the check shows its drop.
use super::late::LATE;
use super::player::{Player, limits_of};
use super::plays::plays;
use super::running::ends_well;
use super::scripts::Script;
use super::tracking::tells;
use lifetime_core::Core;
use std::alloc::Global;

/// Whether all goes well on a core of 16 pages that has seen nothing, with these limits. It does not where memory for
/// the core is refused.
pub fn on_core<F: FnOnce(&mut Core) -> bool>(alloc: Global, limits: [u32; 5], play: F) -> bool
    requires { F.IsAlwaysCallable play }
{
    let Some(limits) = limits_of(limits) else {
        return false;
    };
    match Core::new(alloc, 16, limits) {
        Ok(mut core) => play(&mut core),
        Err(_) => false,
    }
}

/// The same for a player of a core that has seen nothing but so many refused calls.
pub fn on_player<F: FnOnce(&mut Player) -> bool>(
    alloc: Global,
    limits: [u32; 5],
    start: u64,
    play: F,
) -> bool
    requires { F.IsAlwaysCallable play }
{
    match Player::new(alloc, limits, start) {
        Some(mut player) => play(&mut player),
        None => false,
    }
}

/// What is asked of a player.
#[derive(Clone, Copy)]
pub enum Question<'a> {
    /// Whether the script is answered, and leaves, as it says.
    Plays(&'a Script),
    /// Whether all clients vanish cleanly after this many of its calls, and if that is asked, runs answer as the steps.
    EndsWell(&'a Script, usize, bool),
    /// Whether trackers tell of their firings.
    Tells,
}

impl Question<'_> {
    fn holds(self, alloc: Global, player: &mut Player) -> bool {
        match self {
            Question::Plays(script) => plays(alloc, player, script),
            Question::EndsWell(script, count, is_run) => {
                ends_well(alloc, player, script, count, is_run)
            }
            Question::Tells => tells(player),
        }
    }
}

/// Whether that holds of a player of a core that has seen nothing, with these limits, and of one whose events soon
/// have numbers of more than 32 bits.
pub fn holds(alloc: Global, limits: [u32; 5], question: Question) -> bool {
    for start in [0, LATE] {
        if !on_player(alloc, limits, start, |player| question.holds(alloc, player)) {
            return false;
        }
    }
    true
}
