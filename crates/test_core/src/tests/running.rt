//! Scripts as runs: `Core::run` answers as the steps did, wherever a script is cut, and once all its
//! clients have vanished nothing is left.
use super::lending::{Question, holds, on_core};
use super::player::{Log, Player, ROOM};
use super::plays::scripts;
use super::scripts::Script;
use super::views::is_empty;
use lifetime_core::Core;
use sm_names::{Call, ClientId, Reply};
use std::alloc::Global;

// Whether the readers of the trackers that the replies tell of are taken once, and no others.
fn are_taken_once(core: &mut Core, replies: &[Reply]) -> bool {
    for id in 0..100 {
        let is_told = replies.contains(&Reply::Tracker(id));
        if core.take_tracker(id).is_some() != is_told || core.take_tracker(id).is_some() {
            return false;
        }
    }
    true
}

// Whether the core that runs these calls answers so.
fn answers(alloc: Global, core: &mut Core, calls: &[(ClientId, Call)], replies: &[Reply]) -> bool {
    match core.run(alloc, calls) {
        Ok(said) => said.as_slice() == replies,
        Err(_) => false,
    }
}

// Whether a core that runs the first calls, and then the others, answers as they were answered.
fn repeats(alloc: Global, core: &mut Core, log: &Log, count: usize) -> bool {
    let made = log.count.min(ROOM);
    let (calls, replies) = (&log.calls[..made], &log.replies[..made]);
    let cut = count.min(made);
    let (first, first_replies) = (&calls[..cut], &replies[..cut]);
    let (others, other_replies) = (&calls[cut..], &replies[cut..]);
    answers(alloc, core, first, first_replies)
        && answers(alloc, core, others, other_replies)
        && is_empty(core)
        && are_taken_once(core, replies)
}

/// Whether all clients vanish cleanly after this many calls, and if that is asked, a core that runs the calls answers as
/// they were answered.
pub fn ends_well(
    alloc: Global,
    player: &mut Player,
    script: &Script,
    count: usize,
    is_run: bool,
) -> bool {
    player.keeps_to(script.rows, count)
        && player.all_vanish()
        && is_empty(player.core())
        && (!is_run
            || on_core(
                alloc,
                script.limits,
                |core| repeats(alloc, core, player.log(), count),
            ))
}

// Whether that is so wherever the script is cut.
fn is_cut_anywhere(alloc: Global, script: &Script, is_run: bool) -> bool {
    for count in 0..=script.rows.len() {
        if !holds(
            alloc,
            script.limits,
            Question::EndsWell(script, count, is_run),
        ) {
            return false;
        }
    }
    true
}

/// The place of the first script that can't be cut anywhere, if there is one. Each is played once more where memory was
/// refused.
pub fn first_uncut(alloc: Global, is_run: bool) -> Option<usize> {
    for (place, script) in scripts().iter().enumerate() {
        if !is_cut_anywhere(alloc, script, is_run) && !is_cut_anywhere(alloc, script, is_run) {
            return Some(place);
        }
    }
    None
}

#[test]
fn a_run_answers_as_its_steps(rt: HostRuntime) {
    assert_eq!(rt; first_uncut(rt.alloc(), true), None);
}
