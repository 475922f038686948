//! Each script is answered, and leaves, as it says. So it does where memory is refused to one of its
//! calls, which is then made again, and wherever it is cut, all clients vanish cleanly.
use super::acts::Row;
use super::failing::{
    CLOSED_AFTER_A_LOSS, FAILING_SUBTREES, LOSS_PAST_A_RELEASED_PARENT, NESTED_LOSS, ORPHAN_SHARE,
    SECOND_CONSTRAINTS, TREE_LOSS,
};
use super::giving::{
    HANDLE_OF_ONE_THAT_VANISHES, HANDLE_PARCEL, HANDLE_TO_A_SHUT_CLIENT, LOST_PARCEL, PARCEL,
    REFUSALS, SHUT_RECEIVER,
};
use super::holding::{
    LAST_OF_ALL, LAST_WEAK, ONE_COLLECTION, ONE_HANDLE, ONE_NODE, ONE_TRACKER, WEAK_HOLDERS,
};
use super::lending::{Question, holds, on_player};
use super::placing::{HOLES, RELEASED_PARENT, RELEASED_TREE, TWO_BUFFERS};
use super::player::Player;
use super::running::first_uncut;
use super::scripts::Script;
use super::views::{ends_so, looks_so, see_the_same};
use sm_names::StepFault;
use std::alloc::Global;

const SCRIPTS: &[&Script] = &[
    &TREE_LOSS,
    &CLOSED_AFTER_A_LOSS,
    &LOSS_PAST_A_RELEASED_PARENT,
    &SECOND_CONSTRAINTS,
    &TWO_BUFFERS,
    &RELEASED_TREE,
    &RELEASED_PARENT,
    &ONE_TRACKER,
    &ONE_HANDLE,
    &ONE_COLLECTION,
    &ONE_NODE,
    &LOST_PARCEL,
    &HANDLE_TO_A_SHUT_CLIENT,
    &HANDLE_OF_ONE_THAT_VANISHES,
    &REFUSALS,
    &NESTED_LOSS,
    &FAILING_SUBTREES,
    &ORPHAN_SHARE,
    &WEAK_HOLDERS,
    &LAST_WEAK,
    &LAST_OF_ALL,
    &HOLES,
    &SHUT_RECEIVER,
    &PARCEL,
    &HANDLE_PARCEL,
];

/// All scripts. They are data that each function that names them carries, so all others call this one.
pub fn scripts() -> &'static [&'static Script] {
    SCRIPTS
}

// Whether the player sees what one sees that made this many of the calls.
fn has_made(alloc: Global, player: &Player, script: &Script, made: usize) -> bool {
    on_player(alloc, script.limits, player.start(), |other| {
        other.keeps_to(script.rows, made)
            && player.made() == other.made()
            && see_the_same(player.core(), other.core())
    })
}

// Whether the call of the row at this place is answered as it says. Where memory is refused, nothing is changed and the
// call is made again.
fn takes(alloc: Global, player: &mut Player, script: &Script, place: usize, row: &Row) -> bool {
    match player.takes(row) {
        Ok(is_so) => is_so,
        Err(StepFault::NoMemory) => {
            has_made(alloc, player, script, place) && player.takes(row) == Ok(true)
        }
        Err(StepFault::HistoryFull) => false,
    }
}

/// Whether the player goes through the script, and all is as the script says.
pub fn plays(alloc: Global, player: &mut Player, script: &Script) -> bool {
    for (place, row) in script.rows.iter().enumerate() {
        if !takes(alloc, player, script, place, row) || !looks_so(player, script.looks) {
            return false;
        }
    }
    ends_so(player, script)
}

// Whether all is as the script says.
fn told(alloc: Global, script: &Script) -> bool {
    holds(alloc, script.limits, Question::Plays(script))
}

// The place of the first script that is not answered as it says, if there is one.
fn first_untold(alloc: Global) -> Option<usize> {
    for (place, script) in scripts().iter().enumerate() {
        if !told(alloc, script) {
            return Some(place);
        }
    }
    None
}

#[test]
fn scripts_are_answered_as_they_say(rt: HostRuntime) {
    assert_eq!(rt; first_untold(rt.alloc()), None);
}

#[test]
fn clients_vanish_cleanly_after_any_call(rt: HostRuntime) {
    assert_eq!(rt; first_uncut(rt.alloc(), false), None);
}
