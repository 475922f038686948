//! The calls of collections.
ghost use Rattle.std.specs.Prelude.{◌≡◌, MatchResult};
ghost use Rattle.sm_names.specs.declared.messages.Call.{Call as Asked};
ghost use Rattle.sm_names.specs.declared.messages.Reply.{Reply as Told};
ghost use Rattle.client_ends.specs.Clients.{Made, MadeOr, is_take_reply, is_token_reply, is_tracker_reply};
ghost use Rattle.client_ends.specs.Taking.{Took};

use crate::client::Client;
use crate::ends::{CollectionEnd, TokenEnd};
use crate::handle::Handle;
use crate::why::Why;
use service_lock::{Service, Setup};
use sm_names::{Call, Constraints, Reply, StepFault};
use std::alloc::Global;
use std::sync::Wait;
use std::sync::ledger::Ledger;
use trackers::Tracker;

impl<E: Setup> CollectionEnd<E> {
    /// Makes an attached child token (`fuchsia.sysmem2.BufferCollection.AttachToken`). Costs one
    /// event.
    pub fn attach_token<S: Ledger, W: Ledger, R: Wait>(
        &self,
        rt: &R,
        service: &Service<E, S, W>,
        client: &mut Client<E, S, W>,
    ) -> Result<TokenEnd<E>, Why>
        requires holder { self.now.client ≡ client.old.id }
        ensures { MatchResult result
            (λ t. (t.client ≡ client.old.id) × Made client.old client.new
            (Asked.AttachToken self.now.key) (Told.Token t.key t.collection))
            (λ w. MadeOr is_token_reply client.old client.new (Asked.AttachToken self.now.key) w) }
    {
        client.new_end(rt, service, Call::AttachToken(self.key()))
    }

    /// Says what the node asks of the buffers (`fuchsia.sysmem2.BufferCollection.SetConstraints`).
    /// Costs one event.
    pub fn set_constraints<S: Ledger, W: Ledger, R: Wait>(
        &self,
        rt: &R,
        service: &Service<E, S, W>,
        client: &mut Client<E, S, W>,
        constraints: Constraints,
    ) -> Result<Reply, StepFault>
        requires holder { self.now.client ≡ client.old.id }
        ensures { MatchResult result
            (λ r. Made client.old client.new (Asked.SetConstraints self.now.key constraints) r)
            (λ _. client.new ≡ client.old) }
    {
        client.event(rt, service, Call::SetConstraints(self.key(), constraints))
    }

    /// Asks whether the node's unit is allocated: Allocated, or Pending
    /// (`fuchsia.sysmem2.BufferCollection.CheckAllBuffersAllocated`). Costs one event.
    pub fn check<S: Ledger, W: Ledger, R: Wait>(
        &self,
        rt: &R,
        service: &Service<E, S, W>,
        client: &mut Client<E, S, W>,
    ) -> Result<Reply, StepFault>
        requires holder { self.now.client ≡ client.old.id }
        ensures { MatchResult result
            (λ r. Made client.old client.new (Asked.Check self.now.key) r)
            (λ _. client.new ≡ client.old) }
    {
        client.event(rt, service, Call::Check(self.key()))
    }

    /// Opens a handle on each buffer that is not doomed, and answers the handles by index
    /// (`fuchsia.sysmem2.BufferCollection.WaitForAllBuffersAllocated`, without the wait). The handles are
    /// strong or weak, as the node is. If the unit is not allocated, the reason is the reply Pending.
    ///
    /// `NoMemory` also if there is no room for `MAX_BUFFERS` handles, which the call asks for before the
    /// event. Costs one event and a look at each bit of a set.
    pub fn take<S: Ledger, W: Ledger, R: Wait>(
        &self,
        rt: &R,
        alloc: Global,
        service: &Service<E, S, W>,
        client: &mut Client<E, S, W>,
    ) -> Result<Vec<Handle<E, S, W>>, Why>
        requires holder { self.now.client ≡ client.old.id }
        ensures { MatchResult result
            (λ hs. Took client.old client.new self.now.key hs.items)
            (λ w. MadeOr is_take_reply client.old client.new (Asked.Take self.now.key) w) }
    {
        client.taken(rt, alloc, service, self.key())
    }

    /// Makes a tracker that fires once the node's unit is allocated and at most this many buffers of
    /// the collection are not home, or once the node is gone before that allocation
    /// (`fuchsia.sysmem2.BufferCollection.AttachLifetimeTracking`). Its reader takes no lock. Costs one
    /// event, and a binary search among all trackers.
    pub fn track_lifetime<S: Ledger, W: Ledger, R: Wait>(
        &self,
        rt: &R,
        service: &Service<E, S, W>,
        client: &mut Client<E, S, W>,
        most: u32,
    ) -> Result<Tracker, Why>
        requires holder { self.now.client ≡ client.old.id }
        ensures { MatchResult result
            (λ t. Made client.old client.new
            (Asked.TrackLifetime self.now.key most) (Told.Tracker t.tracker))
            (λ w. MadeOr is_tracker_reply client.old client.new
            (Asked.TrackLifetime self.now.key most) w) }
    {
        client.tracker(rt, service, Call::TrackLifetime(self.key(), most))
    }
}
