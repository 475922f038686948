//! Ends, and the calls of both kinds of ends.
ghost use Rattle.std.specs.Prelude.{◌≡◌, MatchResult, true};
ghost use Rattle.sm_names.specs.declared.messages.Call.{Call as Asked};
ghost use Rattle.sm_names.specs.declared.messages.Reply.{Reply as Told};
ghost use Rattle.service_lock.specs.Accounts.{is_done};
ghost use Rattle.client_ends.specs.Clients.{Made, MadeOr, release_spends, is_tracker_reply};

use crate::client::Client;
use crate::ended::EndedService;
use crate::why::{Kept, Why};
use service_lock::{Service, Setup};
use sm_names::{Call, ClientId, CollectionId, NodeKey, Reply, StepFault};
use std::marker::{Model, PhantomData};
use std::sync::Wait;
use std::sync::ledger::Ledger;
use trackers::Tracker;

/// The kind of a token.
pub struct Unbound;

/// The kind of a bound end, a collection.
pub struct Bound;

/// A token (`fuchsia.sysmem2.BufferCollectionToken`), which must be spent.
pub type TokenEnd<E> = EndOf<Unbound, E>;

/// A collection (`fuchsia.sysmem2.BufferCollection`), which must be spent.
pub type CollectionEnd<E> = EndOf<Bound, E>;

/// An end of this kind (`fuchsia.sysmem2.Node`): a linear value, which must be spent. Its type names its
/// service by the ledger of events, as that of its `Client` does: no call takes an end of one service and
/// another service or a client of it.
///
/// A contract sees its holder, its node, and the node's collection. Each call of an end takes the
/// `Client` of its holder, and makes one event of that client.
pub struct EndOf<K, E> {
    client: ClientId,
    key: NodeKey,
    collection: CollectionId,
    kind: PhantomData<K>,
    service: PhantomData<E>,
}

impl<K, E> Model for EndOf<K, E> {
    ghost use Rattle.client_ends.specs.Clients.{Tag};

    ghost Value = { Tag };

    ghost view = { λ t. record { client = t.client; key = t.key; collection = t.collection } };
}

impl<K, E: Setup> EndOf<K, E> {
    pub(crate) fn new(client: ClientId, key: NodeKey, collection: CollectionId) -> EndOf<K, E>
        ensures { result ≡ record { client = client; key = key; collection = collection } }
    {
        EndOf {
            client,
            key,
            collection,
            kind: PhantomData,
            service: PhantomData,
        }
    }

    /// Spends the end without an event, after the end of a service.
    pub fn spend<S: Ledger, W: Ledger>(self, _ended: &EndedService<E, S, W>) {
        self.used_up();
    }

    // Uses up an end that an event has spent.
    pub(crate) fn used_up(self) {
        let EndOf {
            client: _,
            key: _,
            collection: _,
            kind: _,
            service: _,
        } = self;
    }

    /// The client that holds the end. Takes no lock.
    pub fn client(&self) -> ClientId
        ensures { result ≡ self.now.client }
    {
        self.client
    }

    /// Asks only whether the node has failed (`fuchsia.sysmem2.Node.Sync`). All earlier calls were made
    /// before it. Costs one event.
    pub fn sync<S: Ledger, W: Ledger, R: Wait>(
        &self,
        rt: &R,
        service: &Service<E, S, W>,
        client: &mut Client<E, S, W>,
    ) -> Result<Reply, StepFault>
        requires holder { self.now.client ≡ client.old.id }
        ensures { MatchResult result
            (λ r. Made client.old client.new (Asked.Sync self.now.key) r)
            (λ _. client.new ≡ client.old) }
    {
        client.event(rt, service, Call::Sync(self.key))
    }

    /// Makes the node weak, and each child that it gets from now on: they keep no buffer alive
    /// (`fuchsia.sysmem2.Node.SetWeak`). Costs one event.
    pub fn set_weak<S: Ledger, W: Ledger, R: Wait>(
        &self,
        rt: &R,
        service: &Service<E, S, W>,
        client: &mut Client<E, S, W>,
    ) -> Result<Reply, StepFault>
        requires holder { self.now.client ≡ client.old.id }
        ensures { MatchResult result
            (λ r. Made client.old client.new (Asked.SetWeak self.now.key) r)
            (λ _. client.new ≡ client.old) }
    {
        client.event(rt, service, Call::SetWeak(self.key))
    }

    /// Lets the node take weak handles, with `children` also each child that it gets from now on, and
    /// all nodes below these children (`fuchsia.sysmem2.Node.SetWeakOk`). Costs one event.
    pub fn set_weak_ok<S: Ledger, W: Ledger, R: Wait>(
        &self,
        rt: &R,
        service: &Service<E, S, W>,
        client: &mut Client<E, S, W>,
        children: bool,
    ) -> Result<Reply, StepFault>
        requires holder { self.now.client ≡ client.old.id }
        ensures { MatchResult result
            (λ r. Made client.old client.new (Asked.SetWeakOk self.now.key children) r)
            (λ _. client.new ≡ client.old) }
    {
        client.event(rt, service, Call::SetWeakOk(self.key, children))
    }

    /// Makes a tracker that fires once the node is gone (`fuchsia.sysmem2.Node.AttachNodeTracking`). Its
    /// reader takes no lock. Costs one event, and a binary search among all trackers.
    pub fn track_node<S: Ledger, W: Ledger, R: Wait>(
        &self,
        rt: &R,
        service: &Service<E, S, W>,
        client: &mut Client<E, S, W>,
    ) -> Result<Tracker, Why>
        requires holder { self.now.client ≡ client.old.id }
        ensures { MatchResult result
            (λ t. Made client.old client.new
            (Asked.TrackNode self.now.key) (Told.Tracker t.tracker))
            (λ w. MadeOr is_tracker_reply client.old client.new (Asked.TrackNode self.now.key) w) }
    {
        client.tracker(rt, service, Call::TrackNode(self.key))
    }

    /// Puts the end into a parcel for the client `to`. If the answer is not Done, the end comes back
    /// with the reason. Costs one event.
    pub fn give<S: Ledger, W: Ledger, R: Wait>(
        self,
        rt: &R,
        service: &Service<E, S, W>,
        client: &mut Client<E, S, W>,
        to: ClientId,
    ) -> Result<(), Kept<EndOf<K, E>>>
        requires holder { self.client ≡ client.old.id }
        ensures { MatchResult result
            (λ _. Made client.old client.new (Asked.Give self.key to) Told.Done)
            (λ k. (k.value ≡ self)
            × MadeOr is_done client.old client.new (Asked.Give self.key to) k.why) }
    {
        match client.answered_done(rt, service, Call::Give(self.key, to)) {
            Ok(()) => {
                self.used_up();
                Ok(())
            }
            Err(why) => Err(Kept { value: self, why }),
        }
    }

    /// Spends the end without a failure (`fuchsia.sysmem2.Node.Release`): the answer is Done, or
    /// PeerClosed if the node is gone. Otherwise the end comes back with the reason. Costs one event.
    pub fn release<S: Ledger, W: Ledger, R: Wait>(
        self,
        rt: &R,
        service: &Service<E, S, W>,
        client: &mut Client<E, S, W>,
    ) -> Result<Reply, Kept<EndOf<K, E>>>
        requires holder { self.client ≡ client.old.id }
        ensures { MatchResult result
            (λ r. Made client.old client.new (Asked.Release self.key) r × (release_spends r ≡ true))
            (λ k. (k.value ≡ self)
            × MadeOr release_spends client.old client.new (Asked.Release self.key) k.why) }
    {
        match client.released(rt, service, Call::Release(self.key)) {
            Ok(reply) => {
                self.used_up();
                Ok(reply)
            }
            Err(why) => Err(Kept { value: self, why }),
        }
    }

    /// Closes the end: a node that is not gone fails. If the answer is not Done, the end comes back with
    /// the reason. Costs one event.
    pub fn close<S: Ledger, W: Ledger, R: Wait>(
        self,
        rt: &R,
        service: &Service<E, S, W>,
        client: &mut Client<E, S, W>,
    ) -> Result<(), Kept<EndOf<K, E>>>
        requires holder { self.client ≡ client.old.id }
        ensures { MatchResult result
            (λ _. Made client.old client.new (Asked.Close self.key) Told.Done)
            (λ k. (k.value ≡ self)
            × MadeOr is_done client.old client.new (Asked.Close self.key) k.why) }
    {
        match client.answered_done(rt, service, Call::Close(self.key)) {
            Ok(()) => {
                self.used_up();
                Ok(())
            }
            Err(why) => Err(Kept { value: self, why }),
        }
    }

    /// The end's node.
    pub(crate) fn key(&self) -> NodeKey
        ensures { result ≡ self.now.key }
    {
        self.key
    }

    /// The same end, of another kind.
    pub(crate) fn into_kind<L>(self) -> EndOf<L, E>
        ensures { result ≡ self }
    {
        let EndOf {
            client,
            key,
            collection,
            kind: _,
            service: _,
        } = self;
        EndOf::new(client, key, collection)
    }
}
