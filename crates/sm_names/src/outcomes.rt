//! Why calls are refused, and why nodes and allocations fail.
ghost use Rattle.std.specs.Prelude.{◌≡◌};
ghost use Rattle.sm_names.specs.Numbers.{misuse_name, misuse_number, refusal_name, refusal_number};

use crate::keys::NodeKey;

/// Why an allocation failed. The first four fail the whole collection, the last two an attached
/// subtree alone.
#[derive(Clone, Copy, PartialEq, Eq)]
pub enum Failure {
    /// No strong node of the collection is live.
    NoStrong,
    /// The participants ask for no buffer at all.
    NoBuffers,
    /// They ask for more than 64 buffers.
    TooManyBuffers,
    /// Some buffer has no place in the pool.
    PoolFull,
    /// An attached unit and the nodes of allocated units camp on more buffers than there are, or a
    /// node of the unit wants at least more than there are.
    TooFew,
    /// A node of an attached unit asks for larger buffers than the collection has.
    TooSmall,
}

/// What a client did that fails its node.
#[derive(Clone, Copy, PartialEq, Eq)]
pub enum Misuse {
    /// SetConstraints on a node that has constraints.
    SecondConstraints,
    /// SetWeak on a collection that has constraints.
    LateWeak,
    /// SetWeakOk after a Take on the node gave handles.
    LateWeakOk,
    /// Take on a weak node that is not weak-ok.
    WeakNotOk,
    /// TrackNode on a node that has 64 node trackers.
    TooManyNodeTrackers,
}

impl Misuse {
    /// The misuse's number, from 1. Costs O(1).
    pub fn number(self) -> u8
        ensures { result ≡ misuse_number self }
    {
        match self {
            Misuse::SecondConstraints => 1,
            Misuse::LateWeak => 2,
            Misuse::LateWeakOk => 3,
            Misuse::WeakNotOk => 4,
            Misuse::TooManyNodeTrackers => 5,
        }
    }

    /// The misuse's name, as it is spelled here. Costs O(1).
    pub fn name(self) -> &'static str
        ensures { result.now ≡ misuse_name self }
    {
        match self {
            Misuse::SecondConstraints => "SecondConstraints",
            Misuse::LateWeak => "LateWeak",
            Misuse::LateWeakOk => "LateWeakOk",
            Misuse::WeakNotOk => "WeakNotOk",
            Misuse::TooManyNodeTrackers => "TooManyNodeTrackers",
        }
    }
}

/// Why a node failed.
#[derive(Clone, Copy, PartialEq, Eq)]
pub enum Cause {
    /// An end was closed without Release.
    Lost,
    /// A client misused its end.
    Misused(Misuse),
    /// An allocation failed.
    Failed(Failure),
    /// The collection is allocated, no strong node is live, and no strong handle is open.
    NoStrong,
}

/// Why and where a node failed: the first loss that reached it, and the node of that loss.
#[derive(Clone, Copy, PartialEq, Eq)]
pub struct Fault {
    pub cause: Cause,
    pub origin: NodeKey,
}

/// How many buffers a collection was given, and how many bytes each has.
#[derive(Clone, Copy, PartialEq, Eq)]
pub struct Buffers {
    pub count: u32,
    pub size: u32,
}

/// Why a call was refused. It then changed nothing but the number of events.
#[derive(Clone, Copy, PartialEq, Eq)]
pub enum Refusal {
    /// The caller or the receiver was made by no Join, or a Join was made by a client.
    NoSuchClient,
    /// The receiver is shut, or a shut client asks for an end or a tracker.
    ClientShut,
    /// There is no such end, it was spent, or another client holds it and it is in no parcel.
    NoSuchEnd,
    /// The end lies in a parcel.
    InTransit,
    /// The call is for an end of the other kind.
    WrongKind,
    /// The number of kept nodes is at its limit.
    TooManyNodes,
    /// The number of kept collections is at its limit.
    TooManyCollections,
    /// The number of waiting trackers is at its limit.
    TrackersFull,
    /// The caller has no such handle open.
    NoSuchHandle,
    /// The number of open handles of a buffer and strength is at its limit.
    TooManyHandles,
}

impl Refusal {
    /// The refusal's number, from 1. A call is checked in another order, which `answers_first`
    /// defines: NoSuchHandle precedes the limits. Costs O(1).
    pub fn number(self) -> u8
        ensures { result ≡ refusal_number self }
    {
        match self {
            Refusal::NoSuchClient => 1,
            Refusal::ClientShut => 2,
            Refusal::NoSuchEnd => 3,
            Refusal::InTransit => 4,
            Refusal::WrongKind => 5,
            Refusal::TooManyNodes => 6,
            Refusal::TooManyCollections => 7,
            Refusal::TrackersFull => 8,
            Refusal::NoSuchHandle => 9,
            Refusal::TooManyHandles => 10,
        }
    }

    /// The refusal's name, as it is spelled here. Costs O(1).
    pub fn name(self) -> &'static str
        ensures { result.now ≡ refusal_name self }
    {
        match self {
            Refusal::NoSuchClient => "NoSuchClient",
            Refusal::ClientShut => "ClientShut",
            Refusal::NoSuchEnd => "NoSuchEnd",
            Refusal::InTransit => "InTransit",
            Refusal::WrongKind => "WrongKind",
            Refusal::TooManyNodes => "TooManyNodes",
            Refusal::TooManyCollections => "TooManyCollections",
            Refusal::TrackersFull => "TrackersFull",
            Refusal::NoSuchHandle => "NoSuchHandle",
            Refusal::TooManyHandles => "TooManyHandles",
        }
    }
}

/// Why a step was not made. It is then no event, and nothing changed.
#[derive(Clone, Copy, Debug, PartialEq, Eq)]
pub enum StepFault {
    /// The number of events is at its limit.
    HistoryFull,
    /// Memory was refused.
    NoMemory,
}

/// Memory was refused.
#[derive(Clone, Copy, Debug, PartialEq, Eq)]
pub struct NoMemory;
