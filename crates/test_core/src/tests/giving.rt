//! Ends and handles that are given, and calls that are refused.
use super::acts::{Act, Deed, Said};
use super::scripts::{DONE, FULL, ONE_PAGE, PENDING, STRONG, Script, held};
use sm_names::{BufferName, Cause, Kind, Refusal, Reply};

/// Nothing is given to a client that is shut. A client may give an end to itself.
pub const SHUT_RECEIVER: Script = Script {
    limits: FULL,
    rows: &[
        (0, Act::Join, Said::Just(Reply::Joined(1))),
        (0, Act::Join, Said::Just(Reply::Joined(2))),
        (1, Act::Open, Said::Token(3)),
        (2, Act::Shut, Said::Just(Reply::Shut(0))),
        (
            1,
            Act::On(3, Deed::Give(2)),
            Said::Just(Reply::Refused(Refusal::ClientShut)),
        ),
        (1, Act::On(3, Deed::Bind), DONE),
        (1, Act::On(3, Deed::Give(1)), DONE),
        (1, Act::Collect, Said::End(3, Kind::Collection, 3)),
        (1, Act::On(3, Deed::Check), PENDING),
    ],
    looks: &[],
    live: &[3],
    failed: &[],
    fired: &[],
};

/// An end in a parcel is nobody's, and its receiver collects it also once it is shut.
pub const PARCEL: Script = Script {
    limits: FULL,
    rows: &[
        (0, Act::Join, Said::Just(Reply::Joined(1))),
        (0, Act::Join, Said::Just(Reply::Joined(2))),
        (1, Act::Open, Said::Token(3)),
        (1, Act::On(3, Deed::Duplicate), Said::Token(3)),
        (1, Act::On(4, Deed::Give(2)), DONE),
        (
            1,
            Act::On(4, Deed::Sync),
            Said::Just(Reply::Refused(Refusal::InTransit)),
        ),
        (
            2,
            Act::On(4, Deed::Sync),
            Said::Just(Reply::Refused(Refusal::InTransit)),
        ),
        (
            2,
            Act::On(3, Deed::Sync),
            Said::Just(Reply::Refused(Refusal::NoSuchEnd)),
        ),
        (2, Act::Shut, Said::Just(Reply::Shut(1))),
        (2, Act::Collect, Said::End(4, Kind::Token, 3)),
        (2, Act::On(4, Deed::Close), DONE),
        (2, Act::Collect, Said::Just(Reply::Empty)),
        (1, Act::On(3, Deed::Sync), Said::Closed(Cause::Lost, 4)),
    ],
    looks: &[],
    live: &[],
    failed: &[(3, Cause::Lost, 4)],
    fired: &[],
};

/// An end whose node is gone is still collected, and is given to nobody any more.
pub const LOST_PARCEL: Script = Script {
    limits: FULL,
    rows: &[
        (0, Act::Join, Said::Just(Reply::Joined(1))),
        (0, Act::Join, Said::Just(Reply::Joined(2))),
        (1, Act::Open, Said::Token(3)),
        (1, Act::On(3, Deed::Duplicate), Said::Token(3)),
        (1, Act::On(4, Deed::Give(2)), DONE),
        (1, Act::On(3, Deed::Close), DONE),
        (2, Act::Collect, Said::End(4, Kind::Token, 3)),
        (2, Act::On(4, Deed::Sync), Said::Closed(Cause::Lost, 3)),
        (2, Act::On(4, Deed::Give(2)), Said::Closed(Cause::Lost, 3)),
        (2, Act::Shut, Said::Just(Reply::Shut(0))),
    ],
    looks: &[],
    live: &[],
    failed: &[(4, Cause::Lost, 3)],
    fired: &[],
};

/// A handle in a parcel is nobody's, and keeps its buffer.
pub const HANDLE_PARCEL: Script = Script {
    limits: FULL,
    rows: &[
        (0, Act::Join, Said::Just(Reply::Joined(1))),
        (0, Act::Join, Said::Just(Reply::Joined(2))),
        (1, Act::Open, Said::Token(3)),
        (1, Act::On(3, Deed::Bind), DONE),
        (1, Act::On(3, ONE_PAGE), DONE),
        (
            1,
            Act::On(3, Deed::Take),
            Said::Just(Reply::Taken {
                collection: 3,
                strength: STRONG,
                set: 1,
            }),
        ),
        (1, Act::GiveHandle(3, 0, STRONG, 2), DONE),
        (
            1,
            Act::DropHandle(3, 0, STRONG),
            Said::Just(Reply::Refused(Refusal::NoSuchHandle)),
        ),
        (1, Act::On(3, Deed::Release), DONE),
        (
            2,
            Act::Collect,
            Said::Just(Reply::CollectedHandle {
                buffer: BufferName {
                    collection: 3,
                    index: 0,
                },
                strength: STRONG,
            }),
        ),
        (2, Act::DropHandle(3, 0, STRONG), DONE),
    ],
    looks: &[
        (9, 15, held![(3, 0, 0, 1)]),
        (10, 15, held![(3, 0, 0, 1)]),
        (11, 16, held![]),
    ],
    live: &[],
    failed: &[],
    fired: &[],
};

/// No handle is given to a client that is shut.
pub const HANDLE_TO_A_SHUT_CLIENT: Script = Script {
    limits: FULL,
    rows: &[
        (0, Act::Join, Said::Just(Reply::Joined(1))),
        (0, Act::Join, Said::Just(Reply::Joined(2))),
        (1, Act::Open, Said::Token(3)),
        (1, Act::On(3, Deed::Bind), DONE),
        (1, Act::On(3, ONE_PAGE), DONE),
        (
            1,
            Act::On(3, Deed::Take),
            Said::Just(Reply::Taken {
                collection: 3,
                strength: STRONG,
                set: 1,
            }),
        ),
        (2, Act::Shut, Said::Just(Reply::Shut(0))),
        (
            1,
            Act::GiveHandle(3, 0, STRONG, 2),
            Said::Just(Reply::Refused(Refusal::ClientShut)),
        ),
        (1, Act::DropHandle(3, 0, STRONG), DONE),
    ],
    looks: &[(9, 15, held![(3, 0, 0, 1)])],
    live: &[3],
    failed: &[],
    fired: &[],
};

/// A client that vanishes collects the handle that waits for it, and drops it.
pub const HANDLE_OF_ONE_THAT_VANISHES: Script = Script {
    limits: FULL,
    rows: &[
        (0, Act::Join, Said::Just(Reply::Joined(1))),
        (0, Act::Join, Said::Just(Reply::Joined(2))),
        (1, Act::Open, Said::Token(3)),
        (1, Act::On(3, Deed::Bind), DONE),
        (1, Act::On(3, ONE_PAGE), DONE),
        (
            1,
            Act::On(3, Deed::Take),
            Said::Just(Reply::Taken {
                collection: 3,
                strength: STRONG,
                set: 1,
            }),
        ),
        (1, Act::GiveHandle(3, 0, STRONG, 2), DONE),
        (2, Act::Shut, Said::Just(Reply::Shut(1))),
        (
            2,
            Act::Collect,
            Said::Just(Reply::CollectedHandle {
                buffer: BufferName {
                    collection: 3,
                    index: 0,
                },
                strength: STRONG,
            }),
        ),
        (2, Act::DropHandle(3, 0, STRONG), DONE),
    ],
    looks: &[(10, 15, held![(3, 0, 0, 1)])],
    live: &[3],
    failed: &[],
    fired: &[],
};

/// What is refused: a key that no node has, another's end, a call for an end of the other kind.
pub const REFUSALS: Script = Script {
    limits: FULL,
    rows: &[
        (0, Act::Join, Said::Just(Reply::Joined(1))),
        (0, Act::Join, Said::Just(Reply::Joined(2))),
        (1, Act::Open, Said::Token(3)),
        (1, Act::On(3, Deed::Bind), DONE),
        (1, Act::Open, Said::Token(5)),
        (
            1,
            Act::Join,
            Said::Just(Reply::Refused(Refusal::NoSuchClient)),
        ),
        (
            3,
            Act::Open,
            Said::Just(Reply::Refused(Refusal::NoSuchClient)),
        ),
        (
            0,
            Act::On(3, Deed::Sync),
            Said::Just(Reply::Refused(Refusal::NoSuchClient)),
        ),
        (
            1,
            Act::On(0, Deed::Sync),
            Said::Just(Reply::Refused(Refusal::NoSuchEnd)),
        ),
        (
            2,
            Act::On(3, Deed::Close),
            Said::Just(Reply::Refused(Refusal::NoSuchEnd)),
        ),
        (
            2,
            Act::On(5, Deed::Release),
            Said::Just(Reply::Refused(Refusal::NoSuchEnd)),
        ),
        (
            1,
            Act::On(3, Deed::Bind),
            Said::Just(Reply::Refused(Refusal::WrongKind)),
        ),
        (
            1,
            Act::On(3, Deed::Duplicate),
            Said::Just(Reply::Refused(Refusal::WrongKind)),
        ),
        (
            1,
            Act::On(5, Deed::Check),
            Said::Just(Reply::Refused(Refusal::WrongKind)),
        ),
        (
            1,
            Act::On(5, Deed::Constrain(2, 0, 8192)),
            Said::Just(Reply::Refused(Refusal::WrongKind)),
        ),
    ],
    looks: &[(15, 16, held![])],
    live: &[3, 5],
    failed: &[],
    fired: &[],
};
