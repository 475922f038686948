//! What the proofs of sm_names can't say: that the numbers, the names and the ranges are those that
//! are meant.
use sm_names::{
    Answer, Argument, ArgumentForm, Call, CallKind, CallParts, CallRow, Constraints, Limits,
    Misuse, NodeKey, Object, Product, Refusal, Spends, Target, call_of, kind_at, kind_named,
    parts_of, row_of, word_of,
};

// Numbers of constraints, and whether they are in their ranges.
const CONSTRAINTS: &[(u8, u8, u32, bool)] = &[
    (0, 0, 1, true),
    (64, 64, 1_073_741_824, true),
    (65, 0, 1, false),
    (0, 65, 1, false),
    (0, 0, 0, false),
    (0, 0, 1_073_741_825, false),
];

// Whether constraints are made of these numbers exactly if these are in range, and then have them.
fn is_made(camping: u8, at_least: u8, size: u32, in_range: bool) -> bool {
    match Constraints::new(camping, at_least, size) {
        Some(c) => {
            in_range && c.camping() == camping && c.at_least() == at_least && c.size() == size
        }
        None => !in_range,
    }
}

fn are_made() -> bool {
    for (camping, at_least, size, in_range) in CONSTRAINTS {
        if !is_made(*camping, *at_least, *size, *in_range) {
            return false;
        }
    }
    true
}

#[test]
fn constraints_are_made_up_to_their_greatest_numbers(rt: HostRuntime) {
    assert!(rt; are_made());
}

// Numbers of limits: events, nodes, collections, trackers and handles. And whether they are in their ranges.
const LIMITS: &[(u32, u32, u32, u32, u32, bool)] = &[
    (1, 1, 1, 1, 1, true),
    (4_294_967_295, 1_024, 256, 4_096, 4_294_967_295, true),
    (0, 1, 1, 1, 1, false),
    (1, 1_025, 1, 1, 1, false),
    (1, 1, 257, 1, 1, false),
    (1, 1, 1, 4_097, 1, false),
    (1, 1, 1, 1, 0, false),
];

// The greatest numbers.
const FULL: [u64; 5] = [4_294_967_295, 1_024, 256, 4_096, 4_294_967_295];

// The numbers of limits that last.
const LASTING: [u64; 5] = [9_007_199_254_740_991, 1_024, 256, 4_096, 4_294_967_295];

fn numbers(limits: Limits) -> [u64; 5] {
    [
        limits.events(),
        u64::from(limits.nodes()),
        u64::from(limits.collections()),
        u64::from(limits.trackers()),
        u64::from(limits.handles()),
    ]
}

// Whether limits are made of these numbers exactly if these are in range.
fn are_limits() -> bool {
    for (events, nodes, collections, trackers, handles, in_range) in LIMITS {
        let made = Limits::new(*events, *nodes, *collections, *trackers, *handles);
        if made.is_some() != *in_range {
            return false;
        }
    }
    true
}

#[test]
fn limits_are_made_up_to_the_full_ones(rt: HostRuntime) {
    assert!(rt;
        numbers(Limits::full()) == FULL
            && numbers(Limits::full().lasting()) == LASTING
            && are_limits()
    );
}

// All refusals, with their numbers and names.
const REFUSALS: [(u8, Refusal, &str); 10] = [
    (1, Refusal::NoSuchClient, "NoSuchClient"),
    (2, Refusal::ClientShut, "ClientShut"),
    (3, Refusal::NoSuchEnd, "NoSuchEnd"),
    (4, Refusal::InTransit, "InTransit"),
    (5, Refusal::WrongKind, "WrongKind"),
    (6, Refusal::TooManyNodes, "TooManyNodes"),
    (7, Refusal::TooManyCollections, "TooManyCollections"),
    (8, Refusal::TrackersFull, "TrackersFull"),
    (9, Refusal::NoSuchHandle, "NoSuchHandle"),
    (10, Refusal::TooManyHandles, "TooManyHandles"),
];

// All misuses, with their numbers and names.
const MISUSES: [(u8, Misuse, &str); 5] = [
    (1, Misuse::SecondConstraints, "SecondConstraints"),
    (2, Misuse::LateWeak, "LateWeak"),
    (3, Misuse::LateWeakOk, "LateWeakOk"),
    (4, Misuse::WeakNotOk, "WeakNotOk"),
    (5, Misuse::TooManyNodeTrackers, "TooManyNodeTrackers"),
];

fn are_refusals_named() -> bool {
    for (number, refusal, name) in &REFUSALS {
        if refusal.number() != *number || refusal.name() != *name {
            return false;
        }
    }
    true
}

fn are_misuses_named() -> bool {
    for (number, misuse, name) in &MISUSES {
        if misuse.number() != *number || misuse.name() != *name {
            return false;
        }
    }
    true
}

#[test]
fn refusals_and_misuses_are_numbered_and_named(rt: HostRuntime) {
    assert!(rt; are_refusals_named() && are_misuses_named());
}

// The word of a kind of call, what it is made on, what it says, what it brings, when it spends what it is made on, and
// what it is answered.
macro_rules! row {
    ($word:literal $on:ident $says:ident $brings:ident $spends:ident $answers:ident) => {
        (
            $word,
            CallRow {
                on: Target::$on,
                says: ArgumentForm::$says,
                brings: Product::$brings,
                spends: Spends::$spends,
                answers: Answer::$answers,
            },
        )
    };
}

// Of each kind of call, in the order of their numbers.
const ROWS: [(&str, CallRow); 23] = [
    row!("join" Nothing Nothing Client Never Joined),
    row!("shut" Nothing Nothing Nothing Never Shut),
    row!("open" Nothing Nothing Collection Never Token),
    row!("dup" Token Nothing Node Never Token),
    row!("attach" Collection Nothing Node Never Token),
    row!("sync" End Nothing Nothing Never Done),
    row!("give" End Client Nothing IfDone Done),
    row!("collect" Nothing Nothing Parcel Never Parcel),
    row!("bind" Token Nothing Nothing IfDone Done),
    row!("dispensable" Token Nothing Nothing Never Done),
    row!("weak" End Nothing Nothing Never Done),
    row!("weakok" End Children Nothing Never Done),
    row!("constrain" Collection Constraints Nothing Never Done),
    row!("check" Collection Nothing Nothing Never Allocated),
    row!("take" Collection Nothing Handles Never Taken),
    row!("release" End Nothing Nothing IfMet Done),
    row!("close" End Nothing Nothing IfDone Done),
    row!("duph" Handle Strength Handles Never Done),
    row!("droph" Handle Strength Nothing IfDone Done),
    row!("giveh" Handle Gift Nothing IfDone Done),
    row!("tracknode" End Nothing Tracker Never Tracker),
    row!("tracklife" Collection Most Tracker Never Tracker),
    row!("trackweak" Handle Nothing Tracker Never Tracker),
];

// Whether the kind of this number has this word, which names no other, and this row.
fn has_row(number: u32, word: &str, row: CallRow) -> bool {
    match kind_at(number) {
        Some(kind) => {
            (word_of(kind), kind_named(word.as_bytes()), row_of(kind)) == (word, Some(kind), row)
        }
        None => false,
    }
}

// Whether each kind has its row, and there is no other kind.
fn have_rows() -> bool {
    let mut number: u32 = 0;
    for (word, row) in &ROWS {
        if !has_row(number, word, *row) {
            return false;
        }
        number = number.wrapping_add(1);
    }
    kind_at(number).is_none() && kind_named(b"poll").is_none()
}

#[test]
fn each_call_has_its_number_its_word_and_its_row(rt: HostRuntime) {
    assert!(rt; have_rows());
}

const KEY: NodeKey = NodeKey {
    slot: 3,
    generation: 1,
};

// Parts of no call.
const OTHER: CallParts = CallParts {
    kind: CallKind::Sync,
    object: Object::Node(KEY),
    argument: Argument::Client(7),
};

const GIFT: Call = Call::Give(KEY, 7);

#[test]
fn the_parts_of_a_call_make_that_call(rt: HostRuntime) {
    assert!(rt; [call_of(parts_of(GIFT)), call_of(OTHER)] == [Some(GIFT), None]);
}
