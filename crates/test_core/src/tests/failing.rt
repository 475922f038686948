//! Nodes that fail.
use super::acts::{Act, Deed, Said};
use super::scripts::{DONE, FULL, ONE_PAGE, Script, held};
use sm_names::{Cause, Failure, Misuse, Refusal, Reply};

/// A child of a dispensable node is lost once all is allocated: the failure goes no further than
/// that node.
pub const NESTED_LOSS: Script = Script {
    limits: FULL,
    rows: &[
        (0, Act::Join, Said::Just(Reply::Joined(1))),
        (1, Act::Open, Said::Token(2)),
        (1, Act::On(2, Deed::Duplicate), Said::Token(2)),
        (1, Act::On(3, Deed::Dispensable), DONE),
        (1, Act::On(3, Deed::Duplicate), Said::Token(2)),
        (1, Act::On(2, Deed::Bind), DONE),
        (1, Act::On(3, Deed::Bind), DONE),
        (1, Act::On(5, Deed::Bind), DONE),
        (1, Act::On(2, ONE_PAGE), DONE),
        (1, Act::On(3, ONE_PAGE), DONE),
        (1, Act::On(5, ONE_PAGE), DONE),
        (1, Act::On(5, Deed::Close), DONE),
        (1, Act::On(3, Deed::Check), Said::Closed(Cause::Lost, 5)),
        (
            1,
            Act::On(2, Deed::Check),
            Said::Just(Reply::Allocated {
                count: 3,
                size: 4096,
            }),
        ),
    ],
    looks: &[
        (10, 16, held![]),
        (14, 13, held![(2, 0, 0, 1), (2, 1, 1, 1), (2, 2, 2, 1)]),
    ],
    live: &[2],
    failed: &[(3, Cause::Lost, 5)],
    fired: &[],
};

/// A dispensable node is lost after the allocation, which gives its share back: one attached
/// subtree gets it, and the next fails alone.
pub const FAILING_SUBTREES: Script = Script {
    limits: FULL,
    rows: &[
        (0, Act::Join, Said::Just(Reply::Joined(1))),
        (1, Act::Open, Said::Token(2)),
        (1, Act::On(2, Deed::Duplicate), Said::Token(2)),
        (1, Act::On(3, Deed::Dispensable), DONE),
        (1, Act::On(2, Deed::Bind), DONE),
        (1, Act::On(3, Deed::Bind), DONE),
        (1, Act::On(2, ONE_PAGE), DONE),
        (1, Act::On(3, ONE_PAGE), DONE),
        (1, Act::On(3, Deed::Close), DONE),
        (1, Act::On(2, Deed::Attach), Said::Token(2)),
        (1, Act::On(10, Deed::Bind), DONE),
        (1, Act::On(10, ONE_PAGE), DONE),
        (
            1,
            Act::On(10, Deed::Check),
            Said::Just(Reply::Allocated {
                count: 2,
                size: 4096,
            }),
        ),
        (1, Act::On(2, Deed::Attach), Said::Token(2)),
        (1, Act::On(14, Deed::Bind), DONE),
        (1, Act::On(14, ONE_PAGE), DONE),
        (
            1,
            Act::On(14, Deed::Check),
            Said::Closed(Cause::Failed(Failure::TooFew), 14),
        ),
        (
            1,
            Act::On(2, Deed::Check),
            Said::Just(Reply::Allocated {
                count: 2,
                size: 4096,
            }),
        ),
    ],
    looks: &[
        (7, 16, held![]),
        (18, 14, held![(2, 0, 0, 1), (2, 1, 1, 1)]),
    ],
    live: &[2, 10],
    failed: &[(14, Cause::Failed(Failure::TooFew), 14)],
    fired: &[],
};

/// A node that is released keeps its share, so that an attached subtree gets none.
pub const ORPHAN_SHARE: Script = Script {
    limits: FULL,
    rows: &[
        (0, Act::Join, Said::Just(Reply::Joined(1))),
        (1, Act::Open, Said::Token(2)),
        (1, Act::On(2, Deed::Duplicate), Said::Token(2)),
        (1, Act::On(3, Deed::Dispensable), DONE),
        (1, Act::On(2, Deed::Bind), DONE),
        (1, Act::On(3, Deed::Bind), DONE),
        (1, Act::On(2, ONE_PAGE), DONE),
        (1, Act::On(3, ONE_PAGE), DONE),
        (1, Act::On(3, Deed::Release), DONE),
        (1, Act::On(2, Deed::Attach), Said::Token(2)),
        (1, Act::On(10, Deed::Bind), DONE),
        (1, Act::On(10, ONE_PAGE), DONE),
        (
            1,
            Act::On(10, Deed::Check),
            Said::Closed(Cause::Failed(Failure::TooFew), 10),
        ),
    ],
    looks: &[(13, 14, held![(2, 0, 0, 1), (2, 1, 1, 1)])],
    live: &[2],
    failed: &[(10, Cause::Failed(Failure::TooFew), 10)],
    fired: &[],
};

/// A lost token takes the whole tree, and its node is forgotten at once. A Release that finds its
/// node gone spends the end too.
pub const TREE_LOSS: Script = Script {
    limits: FULL,
    rows: &[
        (0, Act::Join, Said::Just(Reply::Joined(1))),
        (1, Act::Open, Said::Token(2)),
        (1, Act::On(2, Deed::Duplicate), Said::Token(2)),
        (1, Act::On(3, Deed::Duplicate), Said::Token(2)),
        (1, Act::On(4, Deed::Close), DONE),
        (1, Act::On(2, Deed::Sync), Said::Closed(Cause::Lost, 4)),
        (1, Act::On(3, Deed::Release), Said::Closed(Cause::Lost, 4)),
        (
            1,
            Act::On(3, Deed::Release),
            Said::Just(Reply::Refused(Refusal::NoSuchEnd)),
        ),
    ],
    looks: &[],
    live: &[],
    failed: &[(2, Cause::Lost, 4)],
    fired: &[],
};

/// A node that is gone is forgotten once its end is closed.
pub const CLOSED_AFTER_A_LOSS: Script = Script {
    limits: FULL,
    rows: &[
        (0, Act::Join, Said::Just(Reply::Joined(1))),
        (1, Act::Open, Said::Token(2)),
        (1, Act::On(2, Deed::Duplicate), Said::Token(2)),
        (1, Act::On(3, Deed::Close), DONE),
        (1, Act::On(2, Deed::Close), DONE),
        (
            1,
            Act::On(2, Deed::Close),
            Said::Just(Reply::Refused(Refusal::NoSuchEnd)),
        ),
    ],
    looks: &[],
    live: &[],
    failed: &[],
    fired: &[],
};

/// A failure passes upward through a node that was released.
pub const LOSS_PAST_A_RELEASED_PARENT: Script = Script {
    limits: FULL,
    rows: &[
        (0, Act::Join, Said::Just(Reply::Joined(1))),
        (1, Act::Open, Said::Token(2)),
        (1, Act::On(2, Deed::Duplicate), Said::Token(2)),
        (1, Act::On(3, Deed::Duplicate), Said::Token(2)),
        (1, Act::On(3, Deed::Release), DONE),
        (1, Act::On(4, Deed::Close), DONE),
    ],
    looks: &[],
    live: &[],
    failed: &[(2, Cause::Lost, 4)],
    fired: &[],
};

/// Constraints are set once: a second set fails the node, and its pages come back.
pub const SECOND_CONSTRAINTS: Script = Script {
    limits: FULL,
    rows: &[
        (0, Act::Join, Said::Just(Reply::Joined(1))),
        (1, Act::Open, Said::Token(2)),
        (1, Act::On(2, Deed::Bind), DONE),
        (1, Act::On(2, Deed::Constrain(2, 0, 8192)), DONE),
        (
            1,
            Act::On(2, Deed::Constrain(2, 0, 8192)),
            Said::Just(Reply::Misused(Misuse::SecondConstraints)),
        ),
        (
            1,
            Act::On(2, Deed::Constrain(2, 0, 8192)),
            Said::Closed(Cause::Misused(Misuse::SecondConstraints), 2),
        ),
    ],
    looks: &[
        (4, 12, held![(2, 0, 0, 2), (2, 1, 2, 2)]),
        (5, 16, held![]),
        (6, 16, held![]),
    ],
    live: &[],
    failed: &[(2, Cause::Misused(Misuse::SecondConstraints), 2)],
    fired: &[],
};
