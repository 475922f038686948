//! What the call of a line did to an end.
ghost use Rattle.std.specs.Prelude.{◌≡◌};
ghost use Rattle.event_texts.specs.Deeds.{deed_if_done, deed_if_released, deed_if_taken, deed_of as deed_told, deed_on as deed_at};

use sm_names::{Call, NodeKey, Reply};

// The kinds of deeds. The end was spent, put into a parcel, bound or constrained, or handles were taken by it.
pub(crate) const SPENT: u8 = 1;

pub(crate) const GIVEN: u8 = 2;

pub(crate) const BOUND: u8 = 3;

pub(crate) const CONSTRAINED: u8 = 4;

pub(crate) const TAKEN: u8 = 5;

// What was done to the end of a node.
#[derive(Clone, Copy, PartialEq, Eq, Hash)]
pub(crate) struct Deed {
    node: NodeKey,
    kind: u8,
}

// The deed of this kind on the end of the node.
pub(crate) fn deed_on(kind: u8, node: NodeKey) -> Deed
    ensures { result ≡ deed_at kind node }
{
    Deed { node, kind }
}

// What the call did to an end.
pub(crate) fn deed_of(call: Call, reply: Reply) -> Option<Deed>
    ensures { result ≡ deed_told call reply }
{
    match call {
        Call::Release(key) => if_released(reply, deed_on(SPENT, key)),
        Call::Close(key) => if_done(reply, deed_on(SPENT, key)),
        Call::Give(key, _) => if_done(reply, deed_on(GIVEN, key)),
        Call::Bind(key) => if_done(reply, deed_on(BOUND, key)),
        Call::SetConstraints(key, _) => if_done(reply, deed_on(CONSTRAINED, key)),
        Call::Take(key) => if_taken(reply, deed_on(TAKEN, key)),
        _ => None,
    }
}

// The deed, if the reply is that the call was done.
fn if_done(reply: Reply, deed: Deed) -> Option<Deed>
    ensures { result ≡ deed_if_done reply deed }
{
    match reply {
        Reply::Done => Some(deed),
        _ => None,
    }
}

// The deed, if the reply is that the end was released, or that its node had failed: a Release spends the end then too.
fn if_released(reply: Reply, deed: Deed) -> Option<Deed>
    ensures { result ≡ deed_if_released reply deed }
{
    match reply {
        Reply::Done | Reply::PeerClosed { .. } => Some(deed),
        _ => None,
    }
}

// The deed, if the reply is that handles were opened.
fn if_taken(reply: Reply, deed: Deed) -> Option<Deed>
    ensures { result ≡ deed_if_taken reply deed }
{
    match reply {
        Reply::Taken { .. } => Some(deed),
        _ => None,
    }
}
