//! Handles and trackers, and limits.
use super::acts::{Act, Deed, Said};
use super::scripts::{DONE, FULL, NOTHING, ONE_PAGE, STRONG, Script, WEAK, held};
use sm_names::{Cause, Fired, Refusal, Reply};

/// A buffer is doomed once nothing strong keeps it, and its pages come back once nobody holds it.
/// Once all are doomed, the collection fails.
pub const WEAK_HOLDERS: Script = Script {
    limits: FULL,
    rows: &[
        (0, Act::Join, Said::Just(Reply::Joined(1))),
        (1, Act::Open, Said::Token(2)),
        (1, Act::On(2, Deed::Duplicate), Said::Token(2)),
        (1, Act::On(3, Deed::Weak), DONE),
        (1, Act::On(2, Deed::Bind), DONE),
        (1, Act::On(3, Deed::Bind), DONE),
        (1, Act::On(2, Deed::Constrain(2, 0, 4096)), DONE),
        (1, Act::On(3, NOTHING), DONE),
        (
            1,
            Act::On(2, Deed::Take),
            Said::Just(Reply::Taken {
                collection: 2,
                strength: STRONG,
                set: 3,
            }),
        ),
        (
            1,
            Act::On(3, Deed::Take),
            Said::Just(Reply::Taken {
                collection: 2,
                strength: WEAK,
                set: 3,
            }),
        ),
        (
            1,
            Act::On(3, Deed::TrackLifetime(0)),
            Said::Just(Reply::Tracker(11)),
        ),
        (1, Act::TrackWeak(2, 1), Said::Just(Reply::Tracker(12))),
        (1, Act::On(2, Deed::Release), DONE),
        (1, Act::DropHandle(2, 0, STRONG), DONE),
        (
            1,
            Act::On(3, Deed::Take),
            Said::Just(Reply::Taken {
                collection: 2,
                strength: WEAK,
                set: 2,
            }),
        ),
        (1, Act::DropHandle(2, 1, STRONG), DONE),
        (1, Act::On(3, Deed::Check), Said::Closed(Cause::NoStrong, 2)),
        (1, Act::DropHandle(2, 0, WEAK), DONE),
        (1, Act::DropHandle(2, 1, WEAK), DONE),
        (1, Act::DropHandle(2, 1, WEAK), DONE),
    ],
    looks: &[
        (14, 14, held![(2, 0, 0, 1), (2, 1, 1, 1)]),
        (17, 14, held![(2, 0, 0, 1), (2, 1, 1, 1)]),
        (18, 15, held![(2, 1, 1, 1)]),
        (19, 15, held![(2, 1, 1, 1)]),
        (20, 16, held![]),
    ],
    live: &[],
    failed: &[(3, Cause::NoStrong, 2)],
    fired: &[
        Fired {
            tracker: 12,
            event: 16,
        },
        Fired {
            tracker: 11,
            event: 20,
        },
    ],
};

/// The last weak handle of a buffer sends it nowhere while a strong one is open. The last strong
/// handle of a buffer does while one of another buffer is open, and then the last of all fails the
/// collection.
pub const LAST_WEAK: Script = Script {
    limits: FULL,
    rows: &[
        (0, Act::Join, Said::Just(Reply::Joined(1))),
        (1, Act::Open, Said::Token(2)),
        (1, Act::On(2, Deed::Duplicate), Said::Token(2)),
        (1, Act::On(3, Deed::Weak), DONE),
        (1, Act::On(2, Deed::Bind), DONE),
        (1, Act::On(3, Deed::Bind), DONE),
        (1, Act::On(2, Deed::Constrain(2, 0, 4096)), DONE),
        (1, Act::On(3, NOTHING), DONE),
        (
            1,
            Act::On(2, Deed::Take),
            Said::Just(Reply::Taken {
                collection: 2,
                strength: STRONG,
                set: 3,
            }),
        ),
        (
            1,
            Act::On(3, Deed::Take),
            Said::Just(Reply::Taken {
                collection: 2,
                strength: WEAK,
                set: 3,
            }),
        ),
        (1, Act::On(2, Deed::Release), DONE),
        (1, Act::DropHandle(2, 0, WEAK), DONE),
        (1, Act::DropHandle(2, 0, STRONG), DONE),
        (1, Act::On(3, Deed::Sync), DONE),
        (1, Act::DropHandle(2, 1, STRONG), DONE),
        (1, Act::On(3, Deed::Check), Said::Closed(Cause::NoStrong, 2)),
        (1, Act::DropHandle(2, 1, WEAK), DONE),
    ],
    looks: &[
        (12, 14, held![(2, 0, 0, 1), (2, 1, 1, 1)]),
        (13, 15, held![(2, 1, 1, 1)]),
        (15, 15, held![(2, 1, 1, 1)]),
        (17, 16, held![]),
    ],
    live: &[],
    failed: &[(3, Cause::NoStrong, 2)],
    fired: &[],
};

/// Once a collection failed, each of its buffers goes home with its own last handle, whichever comes
/// first.
pub const LAST_OF_ALL: Script = Script {
    limits: FULL,
    rows: &[
        (0, Act::Join, Said::Just(Reply::Joined(1))),
        (1, Act::Open, Said::Token(2)),
        (1, Act::On(2, Deed::Bind), DONE),
        (1, Act::On(2, Deed::Constrain(3, 0, 4096)), DONE),
        (
            1,
            Act::On(2, Deed::Take),
            Said::Just(Reply::Taken {
                collection: 2,
                strength: STRONG,
                set: 7,
            }),
        ),
        (1, Act::DupHandle(2, 1, STRONG), DONE),
        (1, Act::On(2, Deed::Close), DONE),
        (1, Act::DropHandle(2, 1, STRONG), DONE),
        (1, Act::DropHandle(2, 2, STRONG), DONE),
        (1, Act::DropHandle(2, 1, STRONG), DONE),
        (1, Act::DropHandle(2, 0, STRONG), DONE),
    ],
    looks: &[
        (8, 13, held![(2, 0, 0, 1), (2, 1, 1, 1), (2, 2, 2, 1)]),
        (9, 14, held![(2, 0, 0, 1), (2, 1, 1, 1)]),
        (10, 15, held![(2, 0, 0, 1)]),
        (11, 16, held![]),
    ],
    live: &[],
    failed: &[],
    fired: &[],
};

/// As many trackers wait as may, and one that fired waits no more.
pub const ONE_TRACKER: Script = Script {
    limits: [100, 9, 9, 1, 9],
    rows: &[
        (0, Act::Join, Said::Just(Reply::Joined(1))),
        (1, Act::Open, Said::Token(2)),
        (
            1,
            Act::On(2, Deed::TrackNode),
            Said::Just(Reply::Tracker(3)),
        ),
        (
            1,
            Act::On(2, Deed::TrackNode),
            Said::Just(Reply::Refused(Refusal::TrackersFull)),
        ),
        (1, Act::On(2, Deed::Close), DONE),
        (1, Act::Open, Said::Token(6)),
        (
            1,
            Act::On(6, Deed::TrackNode),
            Said::Just(Reply::Tracker(7)),
        ),
    ],
    looks: &[],
    live: &[6],
    failed: &[],
    fired: &[Fired {
        tracker: 3,
        event: 5,
    }],
};

/// As many handles of one buffer and strength are open as may.
pub const ONE_HANDLE: Script = Script {
    limits: [100, 9, 9, 9, 1],
    rows: &[
        (0, Act::Join, Said::Just(Reply::Joined(1))),
        (1, Act::Open, Said::Token(2)),
        (1, Act::On(2, Deed::Bind), DONE),
        (1, Act::On(2, ONE_PAGE), DONE),
        (
            1,
            Act::On(2, Deed::Take),
            Said::Just(Reply::Taken {
                collection: 2,
                strength: STRONG,
                set: 1,
            }),
        ),
        (
            1,
            Act::On(2, Deed::Take),
            Said::Just(Reply::Refused(Refusal::TooManyHandles)),
        ),
        (
            1,
            Act::DupHandle(2, 0, STRONG),
            Said::Just(Reply::Refused(Refusal::TooManyHandles)),
        ),
        (1, Act::DropHandle(2, 0, STRONG), DONE),
        (
            1,
            Act::On(2, Deed::Take),
            Said::Just(Reply::Taken {
                collection: 2,
                strength: STRONG,
                set: 1,
            }),
        ),
    ],
    looks: &[(9, 15, held![(2, 0, 0, 1)])],
    live: &[2],
    failed: &[],
    fired: &[],
};

/// As many collections are kept as may.
pub const ONE_COLLECTION: Script = Script {
    limits: [100, 9, 1, 9, 9],
    rows: &[
        (0, Act::Join, Said::Just(Reply::Joined(1))),
        (1, Act::Open, Said::Token(2)),
        (
            1,
            Act::Open,
            Said::Just(Reply::Refused(Refusal::TooManyCollections)),
        ),
        (1, Act::On(2, Deed::Close), DONE),
        (1, Act::Open, Said::Token(5)),
    ],
    looks: &[],
    live: &[5],
    failed: &[],
    fired: &[],
};

/// As many nodes are kept as may.
pub const ONE_NODE: Script = Script {
    limits: [100, 1, 9, 9, 9],
    rows: &[
        (0, Act::Join, Said::Just(Reply::Joined(1))),
        (1, Act::Open, Said::Token(2)),
        (
            1,
            Act::On(2, Deed::Duplicate),
            Said::Just(Reply::Refused(Refusal::TooManyNodes)),
        ),
        (
            1,
            Act::Open,
            Said::Just(Reply::Refused(Refusal::TooManyNodes)),
        ),
    ],
    looks: &[],
    live: &[2],
    failed: &[],
    fired: &[],
};
