//! Buffers that are placed, and pages that come back.
use super::acts::{Act, Deed, Said};
use super::scripts::{DONE, FULL, PENDING, Script, held};
use sm_names::{Cause, Failure, Refusal, Reply};

/// A client gets two buffers.
pub const TWO_BUFFERS: Script = Script {
    limits: FULL,
    rows: &[
        (0, Act::Join, Said::Just(Reply::Joined(1))),
        (1, Act::Open, Said::Token(2)),
        (1, Act::On(2, Deed::Bind), DONE),
        (1, Act::On(2, Deed::Constrain(2, 0, 8192)), DONE),
        (
            1,
            Act::On(2, Deed::Check),
            Said::Just(Reply::Allocated {
                count: 2,
                size: 8192,
            }),
        ),
    ],
    looks: &[(3, 16, held![]), (5, 12, held![(2, 0, 0, 2), (2, 1, 2, 2)])],
    live: &[2],
    failed: &[],
    fired: &[],
};

/// Buffers are placed once every token is bound or released. A collection ends once all its nodes
/// were released.
pub const RELEASED_TREE: Script = Script {
    limits: FULL,
    rows: &[
        (0, Act::Join, Said::Just(Reply::Joined(1))),
        (1, Act::Open, Said::Token(2)),
        (1, Act::On(2, Deed::Duplicate), Said::Token(2)),
        (1, Act::On(2, Deed::Bind), DONE),
        (1, Act::On(2, Deed::Constrain(2, 0, 8192)), DONE),
        (1, Act::On(2, Deed::Check), PENDING),
        (1, Act::On(3, Deed::Release), DONE),
        (1, Act::On(2, Deed::Release), DONE),
    ],
    looks: &[
        (6, 16, held![]),
        (7, 12, held![(2, 0, 0, 2), (2, 1, 2, 2)]),
        (8, 16, held![]),
    ],
    live: &[],
    failed: &[],
    fired: &[],
};

/// A released node is kept while a child is live, and counts as one of the nodes that may be kept.
pub const RELEASED_PARENT: Script = Script {
    limits: [100, 2, 1, 1, 1],
    rows: &[
        (0, Act::Join, Said::Just(Reply::Joined(1))),
        (1, Act::Open, Said::Token(2)),
        (1, Act::On(2, Deed::Duplicate), Said::Token(2)),
        (1, Act::On(2, Deed::Release), DONE),
        (1, Act::On(3, Deed::Sync), DONE),
        (
            1,
            Act::On(3, Deed::Duplicate),
            Said::Just(Reply::Refused(Refusal::TooManyNodes)),
        ),
        (1, Act::On(3, Deed::Close), DONE),
        (1, Act::Open, Said::Token(8)),
    ],
    looks: &[],
    live: &[8],
    failed: &[],
    fired: &[],
};

/// Buffers go into the first hole that is large enough, and one that finds none fails its
/// collection. Holes beside each other become one.
pub const HOLES: Script = Script {
    limits: FULL,
    rows: &[
        (0, Act::Join, Said::Just(Reply::Joined(1))),
        (1, Act::Open, Said::Token(2)),
        (1, Act::On(2, Deed::Bind), DONE),
        (1, Act::On(2, Deed::Constrain(1, 0, 16384)), DONE),
        (1, Act::Open, Said::Token(5)),
        (1, Act::On(5, Deed::Bind), DONE),
        (1, Act::On(5, Deed::Constrain(1, 0, 16384)), DONE),
        (1, Act::Open, Said::Token(8)),
        (1, Act::On(8, Deed::Bind), DONE),
        (1, Act::On(8, Deed::Constrain(1, 0, 32768)), DONE),
        (1, Act::On(5, Deed::Release), DONE),
        (1, Act::Open, Said::Token(12)),
        (1, Act::On(12, Deed::Bind), DONE),
        (1, Act::On(12, Deed::Constrain(1, 0, 20480)), DONE),
        (
            1,
            Act::On(12, Deed::Check),
            Said::Closed(Cause::Failed(Failure::PoolFull), 12),
        ),
        (1, Act::Open, Said::Token(16)),
        (1, Act::On(16, Deed::Bind), DONE),
        (1, Act::On(16, Deed::Constrain(1, 0, 16384)), DONE),
        (1, Act::On(16, Deed::Release), DONE),
        (1, Act::On(2, Deed::Release), DONE),
        (1, Act::Open, Said::Token(21)),
        (1, Act::On(21, Deed::Bind), DONE),
        (1, Act::On(21, Deed::Constrain(1, 0, 32768)), DONE),
    ],
    looks: &[
        (10, 0, held![(2, 0, 0, 4), (5, 0, 4, 4), (8, 0, 8, 8)]),
        (14, 4, held![(2, 0, 0, 4), (8, 0, 8, 8)]),
        (18, 0, held![(2, 0, 0, 4), (16, 0, 4, 4), (8, 0, 8, 8)]),
        (23, 0, held![(21, 0, 0, 8), (8, 0, 8, 8)]),
    ],
    live: &[8, 21],
    failed: &[(12, Cause::Failed(Failure::PoolFull), 12)],
    fired: &[],
};
