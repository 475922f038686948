//! Calls and replies as numbers.
ghost use Rattle.std.specs.Prelude.{◌≡◌};
ghost use Rattle.sysmem.specs.Words.{said, said_strength, blank_reply, reply_words};
ghost use Rattle.sysmem.specs.Words.{strength_number, kind_number, cause_number};

use sm_names::{
    BufferName, Call, CallKind, Cause, Constraints, Failure, Kind, NodeKey, Reply, Strength,
    kind_at,
};

/// A call, by the number of its kind. Each kind reads only the fields that it needs.
#[repr(C)]
#[derive(Clone, Copy)]
pub struct CallWords {
    pub kind: u32,
    pub slot: u32,
    pub generation: u32,
    pub strength: u32,
    pub collection: u64,
    pub client: u64,
    pub size: u32,
    pub left: u32,
    pub index: u8,
    pub camping: u8,
    pub at_least: u8,
    pub children: u8,
}

/// A reply, by the number of its kind. A field that the kind does not have is 0.
#[repr(C)]
#[derive(Clone, Copy)]
pub struct ReplyWords {
    pub kind: u32,
    pub slot: u32,
    pub generation: u32,
    pub detail: u32,
    pub id: u64,
    pub set: u64,
    pub count: u32,
    pub size: u32,
    pub index: u8,
}

// The strength with this number.
pub(crate) fn strength_of(number: u32) -> Option<Strength>
    ensures { result ≡ said_strength number }
{
    match number {
        0 => Some(Strength::Strong),
        1 => Some(Strength::Weak),
        _ => None,
    }
}

// The node that the words name.
fn node_of(words: &CallWords) -> NodeKey
    ensures { result ≡ record { slot = words.now.slot; generation = words.now.generation } }
{
    NodeKey {
        slot: words.slot,
        generation: words.generation,
    }
}

// The buffer that the words name.
fn buffer_of(words: &CallWords) -> BufferName
    ensures { result ≡ record { collection = words.now.collection; index = words.now.index } }
{
    BufferName {
        collection: words.collection,
        index: words.index,
    }
}

// The call that the words encode. `None` if they encode none. One match makes each call: to make it of its parts, by the
// table of calls, takes some 40 instructions more.
pub(crate) fn call_of(words: &CallWords) -> Option<Call>
    ensures { result ≡ said words.now }
{
    let node = node_of(words);
    let buffer = buffer_of(words);
    Some(match kind_at(words.kind)? {
        CallKind::Join => Call::Join,
        CallKind::Shut => Call::Shut,
        CallKind::OpenRoot => Call::OpenRoot,
        CallKind::Duplicate => Call::Duplicate(node),
        CallKind::AttachToken => Call::AttachToken(node),
        CallKind::Sync => Call::Sync(node),
        CallKind::Give => Call::Give(node, words.client),
        CallKind::Collect => Call::Collect,
        CallKind::Bind => Call::Bind(node),
        CallKind::SetDispensable => Call::SetDispensable(node),
        CallKind::SetWeak => Call::SetWeak(node),
        CallKind::SetWeakOk => Call::SetWeakOk(node, words.children != 0),
        CallKind::SetConstraints => {
            let constraints = Constraints::new(words.camping, words.at_least, words.size)?;
            Call::SetConstraints(node, constraints)
        }
        CallKind::Check => Call::Check(node),
        CallKind::Take => Call::Take(node),
        CallKind::Release => Call::Release(node),
        CallKind::Close => Call::Close(node),
        CallKind::DupHandle => Call::DupHandle(buffer, strength_of(words.strength)?),
        CallKind::DropHandle => Call::DropHandle(buffer, strength_of(words.strength)?),
        CallKind::GiveHandle => {
            Call::GiveHandle(buffer, strength_of(words.strength)?, words.client)
        }
        CallKind::TrackNode => Call::TrackNode(node),
        CallKind::TrackLifetime => Call::TrackLifetime(node, words.left),
        CallKind::TrackWeak => Call::TrackWeak(buffer),
    })
}

// The number of the strength.
fn strength_word(strength: Strength) -> u32
    ensures { result ≡ strength_number strength }
{
    match strength {
        Strength::Strong => 0,
        Strength::Weak => 1,
    }
}

// The number of the kind.
fn kind_word(kind: Kind) -> u32
    ensures { result ≡ kind_number kind }
{
    match kind {
        Kind::Token => 0,
        Kind::Collection => 1,
    }
}

// The number of the cause.
pub(crate) fn cause_word(cause: Cause) -> u32
    ensures { result ≡ cause_number cause }
{
    match cause {
        Cause::Lost => 0,
        Cause::NoStrong => 1,
        Cause::Misused(misuse) => 10 + u32::from(misuse.number()),
        Cause::Failed(Failure::NoStrong) => 20,
        Cause::Failed(Failure::NoBuffers) => 21,
        Cause::Failed(Failure::TooManyBuffers) => 22,
        Cause::Failed(Failure::PoolFull) => 23,
        Cause::Failed(Failure::TooFew) => 24,
        Cause::Failed(Failure::TooSmall) => 25,
    }
}

// The words of a reply that has no fields.
const NOTHING: ReplyWords = ReplyWords {
    kind: 0,
    slot: 0,
    generation: 0,
    detail: 0,
    id: 0,
    set: 0,
    count: 0,
    size: 0,
    index: 0,
};

// The words of a reply of this kind that has an id.
fn id_words(kind: u32, id: u64) -> ReplyWords
    ensures { result ≡ record blank_reply { kind = kind; id = id } }
{
    ReplyWords {
        kind,
        id,
        ..NOTHING
    }
}

// The words of a reply of this kind that has a node.
fn node_words(kind: u32, node: NodeKey, detail: u32, id: u64) -> ReplyWords
    ensures { result ≡ record blank_reply {
      kind = kind;
      slot = node.slot;
      generation = node.generation;
      detail = detail;
      id = id;
    } }
{
    ReplyWords {
        kind,
        slot: node.slot,
        generation: node.generation,
        detail,
        id,
        ..NOTHING
    }
}

// The words of a reply of this kind that has only a reason.
fn detail_words(kind: u32, detail: u32) -> ReplyWords
    ensures { result ≡ record blank_reply { kind = kind; detail = detail } }
{
    ReplyWords {
        kind,
        detail,
        ..NOTHING
    }
}

// The words of a reply that has buffers of a strength: their set, or the index of one.
fn buffer_words(kind: u32, collection: u64, strength: Strength, set: u64, index: u8) -> ReplyWords
    ensures { result ≡ record blank_reply {
      kind = kind;
      detail = strength_number strength;
      id = collection;
      set = set;
      index = index;
    } }
{
    ReplyWords {
        kind,
        detail: strength_word(strength),
        id: collection,
        set,
        index,
        ..NOTHING
    }
}

// Writes the words of the reply. Each arm writes for itself: words that are returned are written twice.
#[inline(always)]
pub(crate) fn tell(told: &mut ReplyWords, reply: &Reply)
    ensures { told.new ≡ reply_words reply.now }
{
    match *reply {
        Reply::Done => *told = NOTHING,
        Reply::Joined(id) => *told = id_words(1, id),
        Reply::Shut(left) => *told = id_words(2, left),
        Reply::Token { key, collection } => *told = node_words(3, key, 0, collection),
        Reply::Collected {
            key,
            kind,
            collection,
        } => *told = node_words(4, key, kind_word(kind), collection),
        Reply::CollectedHandle { buffer, strength } => {
            *told = buffer_words(5, buffer.collection, strength, 0, buffer.index);
        }
        Reply::Empty => *told = detail_words(6, 0),
        Reply::Pending => *told = detail_words(7, 0),
        Reply::Allocated { count, size } => {
            *told = ReplyWords {
                kind: 8,
                count,
                size,
                ..NOTHING
            };
        }
        Reply::Taken {
            collection,
            strength,
            set,
        } => *told = buffer_words(9, collection, strength, set, 0),
        Reply::Tracker(id) => *told = id_words(10, id),
        Reply::Refused(refusal) => *told = detail_words(11, u32::from(refusal.number())),
        Reply::Misused(misuse) => *told = detail_words(12, u32::from(misuse.number())),
        Reply::PeerClosed { cause, origin } => {
            *told = node_words(13, origin, cause_word(cause), 0);
        }
    }
}
