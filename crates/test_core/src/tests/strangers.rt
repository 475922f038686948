//! Forged keys, names of no handle, and callers who never joined: all is refused, and nothing changes.
use super::acts::{Act, Deed, Row, Said};
use super::cores::{Play, goes_well};
use super::lending::on_player;
use super::player::Player;
use super::scripts::{DONE, FULL, ONE_PAGE, STRONG, WEAK};
use super::views::see_the_same;
use lifetime_core::Core;
use sm_names::{Call, ClientId, Refusal, Reply};
use std::alloc::Global;

// Client 1 has a released node below which one is live, and a lost one. Client 2 has a token, and a
// collection with a buffer.
const BEFORE: &[Row] = &[
    (0, Act::Join, Said::Just(Reply::Joined(1))),
    (0, Act::Join, Said::Just(Reply::Joined(2))),
    (1, Act::Open, Said::Token(3)),
    (1, Act::On(3, Deed::Duplicate), Said::Token(3)),
    (1, Act::On(3, Deed::Release), DONE),
    (1, Act::Open, Said::Token(6)),
    (
        1,
        Act::On(6, Deed::TrackNode),
        Said::Just(Reply::Tracker(7)),
    ),
    (1, Act::On(6, Deed::Close), DONE),
    (2, Act::Open, Said::Token(9)),
    (2, Act::Open, Said::Token(10)),
    (2, Act::On(10, Deed::Bind), DONE),
    (2, Act::On(10, ONE_PAGE), DONE),
];

// Each call that takes a key, made on the node of this number.
macro_rules! deeds {
    ($node:literal) => {
        &[
            Act::On($node, Deed::Duplicate),
            Act::On($node, Deed::Attach),
            Act::On($node, Deed::Sync),
            Act::On($node, Deed::Give(1)),
            Act::On($node, Deed::Give(2)),
            Act::On($node, Deed::Bind),
            Act::On($node, Deed::Dispensable),
            Act::On($node, Deed::Weak),
            Act::On($node, Deed::WeakOk(false)),
            Act::On($node, Deed::WeakOk(true)),
            Act::On($node, ONE_PAGE),
            Act::On($node, Deed::Check),
            Act::On($node, Deed::Take),
            Act::On($node, Deed::Release),
            Act::On($node, Deed::Close),
            Act::On($node, Deed::TrackNode),
            Act::On($node, Deed::TrackLifetime(0)),
        ]
    };
}

// Each call that names a handle.
const HANDLES: &[Act] = &[
    Act::DupHandle(0, 63, STRONG),
    Act::DupHandle(0, 63, WEAK),
    Act::DropHandle(0, 63, STRONG),
    Act::DropHandle(0, 63, WEAK),
    Act::GiveHandle(0, 63, STRONG, 2),
    Act::GiveHandle(0, 63, WEAK, 2),
    Act::TrackWeak(0, 63),
];

// The calls that name neither, but Join.
const OTHERS: &[Act] = &[Act::Shut, Act::Open, Act::Collect];

// Gifts to nobody, of a token and of a handle.
const TO_NOBODY: &[Act] = &[
    Act::On(4, Deed::Give(0)),
    Act::On(4, Deed::Give(99)),
    Act::GiveHandle(0, 63, STRONG, 0),
    Act::GiveHandle(0, 63, STRONG, 99),
];

// Clients with calls that are refused, and how.
type Asked = (ClientId, &'static [Act], Refusal);

// Keys of no node, of spent ends, and of ends of another.
const OF_NO_END: &[Asked] = &[
    (1, deeds!(0), Refusal::NoSuchEnd),
    (1, deeds!(3), Refusal::NoSuchEnd),
    (1, deeds!(6), Refusal::NoSuchEnd),
    (1, deeds!(9), Refusal::NoSuchEnd),
    (1, deeds!(10), Refusal::NoSuchEnd),
];

const OF_NO_HANDLE: &[Asked] = &[(1, HANDLES, Refusal::NoSuchHandle)];

// Those who never joined are nobody, whatever they ask. Nobody joins but by client 0, and nothing is given to nobody.
const NOBODY: &[Asked] = &[
    (0, OTHERS, Refusal::NoSuchClient),
    (0, HANDLES, Refusal::NoSuchClient),
    (0, deeds!(4), Refusal::NoSuchClient),
    (99, OTHERS, Refusal::NoSuchClient),
    (99, HANDLES, Refusal::NoSuchClient),
    (99, deeds!(4), Refusal::NoSuchClient),
    (99, &[Act::Join], Refusal::NoSuchClient),
    (1, &[Act::Join], Refusal::NoSuchClient),
    (1, TO_NOBODY, Refusal::NoSuchClient),
];

// Whether each of the calls is so refused, and nothing changes: both players see the same. The idle one makes no
// further call.
fn are_refused(player: &mut Player, idle: &Player, asked: &Asked) -> bool {
    let (client, acts, refusal) = *asked;
    for act in acts {
        let row = (client, *act, Said::Just(Reply::Refused(refusal)));
        if player.takes(&row) != Ok(true) || !see_the_same(player.core(), idle.core()) {
            return false;
        }
    }
    true
}

// Whether that is so of all that is asked, where both have those calls behind them.
fn change_nothing(player: &mut Player, idle: &mut Player, asked: &[Asked]) -> bool {
    if !player.keeps_to(BEFORE, BEFORE.len()) || !idle.keeps_to(BEFORE, BEFORE.len()) {
        return false;
    }
    for one in asked {
        if !are_refused(player, idle, one) {
            return false;
        }
    }
    true
}

// The same for two new players.
fn is_all_refused(alloc: Global, asked: &[Asked]) -> bool {
    on_player(alloc, FULL, 0, |player| {
        on_player(alloc, FULL, 0, |idle| change_nothing(player, idle, asked))
    })
}

/// On a core that has seen nothing there is no client, and each refusal is an event.
pub fn knows_nobody(core: &mut Core) -> bool {
    for (client, call) in [(0, Call::OpenRoot), (1, Call::Join), (9, Call::OpenRoot)] {
        if core.step(client, call) != Ok(Reply::Refused(Refusal::NoSuchClient)) {
            return false;
        }
    }
    core.events() == 3
}

// Once more where memory was refused.
fn all_refused(alloc: Global, asked: &[Asked]) -> bool {
    is_all_refused(alloc, asked) || is_all_refused(alloc, asked)
}

#[test]
fn forged_keys_name_no_end(rt: HostRuntime) {
    assert!(rt; all_refused(rt.alloc(), OF_NO_END));
}

#[test]
fn forged_names_are_of_no_handle(rt: HostRuntime) {
    assert!(rt; all_refused(rt.alloc(), OF_NO_HANDLE));
}

#[test]
fn strangers_are_nobody(rt: HostRuntime) {
    assert!(rt; all_refused(rt.alloc(), NOBODY));
}

#[test]
fn a_new_core_knows_nobody(rt: HostRuntime) {
    assert!(rt; goes_well(rt.alloc(), FULL, Play::Strangers));
}
