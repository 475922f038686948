//! The calls of tokens.
ghost use Rattle.std.specs.Prelude.{◌≡◌, MatchResult};
ghost use Rattle.sm_names.specs.declared.messages.Call.{Call as Asked};
ghost use Rattle.sm_names.specs.declared.messages.Reply.{Reply as Told};
ghost use Rattle.service_lock.specs.Accounts.{is_done};
ghost use Rattle.client_ends.specs.Clients.{Made, MadeOr, is_token_reply};

use crate::client::Client;
use crate::ends::{CollectionEnd, TokenEnd};
use crate::why::{Kept, Why};
use service_lock::{Service, Setup};
use sm_names::{Call, Reply, StepFault};
use std::sync::Wait;
use std::sync::ledger::Ledger;

impl<E: Setup> TokenEnd<E> {
    /// Makes a child token (`fuchsia.sysmem2.BufferCollectionToken.Duplicate`). Costs one event.
    pub fn duplicate<S: Ledger, W: Ledger, R: Wait>(
        &self,
        rt: &R,
        service: &Service<E, S, W>,
        client: &mut Client<E, S, W>,
    ) -> Result<TokenEnd<E>, Why>
        requires holder { self.now.client ≡ client.old.id }
        ensures { MatchResult result
            (λ t. (t.client ≡ client.old.id) × Made client.old client.new
            (Asked.Duplicate self.now.key) (Told.Token t.key t.collection))
            (λ w. MadeOr is_token_reply client.old client.new (Asked.Duplicate self.now.key) w) }
    {
        client.new_end(rt, service, Call::Duplicate(self.key()))
    }

    /// Once the node's unit is allocated, no failure climbs from the node to its parent
    /// (`fuchsia.sysmem2.BufferCollectionToken.SetDispensable`). Costs one event.
    pub fn set_dispensable<S: Ledger, W: Ledger, R: Wait>(
        &self,
        rt: &R,
        service: &Service<E, S, W>,
        client: &mut Client<E, S, W>,
    ) -> Result<Reply, StepFault>
        requires holder { self.now.client ≡ client.old.id }
        ensures { MatchResult result
            (λ r. Made client.old client.new (Asked.SetDispensable self.now.key) r)
            (λ _. client.new ≡ client.old) }
    {
        client.event(rt, service, Call::SetDispensable(self.key()))
    }

    /// Turns the token into a collection (`fuchsia.sysmem2.Allocator.BindSharedCollection`). If the
    /// answer is not Done, the token comes back with the reason. Costs one event.
    pub fn bind<S: Ledger, W: Ledger, R: Wait>(
        self,
        rt: &R,
        service: &Service<E, S, W>,
        client: &mut Client<E, S, W>,
    ) -> Result<CollectionEnd<E>, Kept<TokenEnd<E>>>
        requires holder { self.client ≡ client.old.id }
        ensures { MatchResult result
            (λ end. (end ≡ self) × Made client.old client.new (Asked.Bind self.key) Told.Done)
            (λ k. (k.value ≡ self)
            × MadeOr is_done client.old client.new (Asked.Bind self.key) k.why) }
    {
        match client.answered_done(rt, service, Call::Bind(self.key())) {
            Ok(()) => Ok(self.into_kind()),
            Err(why) => Err(Kept { value: self, why }),
        }
    }
}
