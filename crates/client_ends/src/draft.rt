//! Drafts: calls of a token that are made later, all under one lock.
ghost use Rattle.std.specs.Prelude.{◌≡◌, ◌≤◌, ◌↔◌, [], IfErr, MatchResult, length};
ghost use Rattle.sm_names.specs.declared.messages.Call.{Call as Asked};
ghost use Rattle.sm_names.specs.declared.outcomes.StepFault.{StepFault as Fault};
ghost use Rattle.client_ends.specs.Drafts.{DraftStopped, IsSynced, drafted_call, with_call};

use crate::client::Client;
use crate::ends::TokenEnd;
use crate::syncing::{make_all, make_room};
use service_lock::{Service, Setup, State, memory_fault};
use sm_names::{ClientId, NoMemory, Reply, StepFault};
use std::alloc::Global;
use std::collections::VecDeque;
use std::marker::Model;
use std::sync::Wait;
use std::sync::ledger::Ledger;

/// A call of a token that answers Done, or a Duplicate.
#[derive(Clone, Copy)]
pub(crate) enum Drafted {
    Duplicate,
    SetDispensable,
    SetWeak,
    SetWeakOk(bool),
}

/// A token with calls that are not made yet: a linear value, which must be spent.
///
/// A contract sees the token, and the calls in order. Drafting takes no lock and makes no event: `sync`
/// makes the calls.
pub struct Draft<E> {
    token: TokenEnd<E>,
    calls: VecDeque<Drafted>,
}

impl<E> Model for Draft<E> {
    ghost use Rattle.client_ends.specs.Drafts.{Sketch, drafted_calls};

    ghost Value = { Sketch };

    ghost view = { λ d. record {
      token = d.token;
      calls = drafted_calls d.token.key d.calls.items;
    } };
}

/// The results of the calls that were made: the new ends, and all replies, in order.
pub struct DraftPart<E> {
    pub made: Vec<TokenEnd<E>>,
    pub replies: Vec<Reply>,
}

/// The results of a whole draft: its token, the new ends, and all replies in order, that of the Sync
/// last.
pub struct Synced<E> {
    pub token: TokenEnd<E>,
    pub made: Vec<TokenEnd<E>>,
    pub replies: Vec<Reply>,
}

impl<E: Setup> TokenEnd<E> {
    /// Makes a draft of the token, without a call. Takes no lock and no memory, and makes no event.
    pub fn draft(self, alloc: Global) -> Draft<E>
        ensures { result ≡ record { token = self; calls = [] } }
    {
        Draft {
            token: self,
            calls: VecDeque::new(alloc),
        }
    }
}

impl<E: Setup> Draft<E> {
    /// The client that holds the token. Takes no lock.
    pub fn client(&self) -> ClientId
        ensures { result ≡ self.now.token.client }
    {
        self.token.client()
    }

    /// Drafts a Duplicate (`fuchsia.sysmem2.BufferCollectionToken.Duplicate`): `sync` makes the child.
    /// `NoMemory` leaves the draft as it was. Takes no lock; the list of calls grows by doubling.
    pub fn duplicate(&mut self) -> Result<(), NoMemory>
        ensures { MatchResult result
            (λ _. self.new ≡ with_call self.old (Asked.Duplicate self.old.token.key))
            (λ _. self.new ≡ self.old) }
    {
        self.add(Drafted::Duplicate)
    }

    /// Drafts a SetDispensable (`fuchsia.sysmem2.BufferCollectionToken.SetDispensable`). As
    /// `duplicate`.
    pub fn set_dispensable(&mut self) -> Result<(), NoMemory>
        ensures { MatchResult result
            (λ _. self.new ≡ with_call self.old (Asked.SetDispensable self.old.token.key))
            (λ _. self.new ≡ self.old) }
    {
        self.add(Drafted::SetDispensable)
    }

    /// Drafts a SetWeak (`fuchsia.sysmem2.Node.SetWeak`). As `duplicate`.
    pub fn set_weak(&mut self) -> Result<(), NoMemory>
        ensures { MatchResult result
            (λ _. self.new ≡ with_call self.old (Asked.SetWeak self.old.token.key))
            (λ _. self.new ≡ self.old) }
    {
        self.add(Drafted::SetWeak)
    }

    /// Drafts a SetWeakOk (`fuchsia.sysmem2.Node.SetWeakOk`). As `duplicate`.
    pub fn set_weak_ok(&mut self, children: bool) -> Result<(), NoMemory>
        ensures { MatchResult result
            (λ _. self.new ≡ with_call self.old (Asked.SetWeakOk self.old.token.key children))
            (λ _. self.new ≡ self.old) }
    {
        self.add(Drafted::SetWeakOk(children))
    }

    // Drafts a call, after all others.
    #[tactic(auto, using(crate::proofs::DraftLaws::calls_push))]
    fn add(&mut self, drafted: Drafted) -> Result<(), NoMemory>
        ensures { MatchResult result
            (λ _. self.new ≡ with_call self.old (drafted_call self.old.token.key drafted))
            (λ _. self.new ≡ self.old) }
    {
        match self.calls.push_back(drafted) {
            Ok(()) => Ok(()),
            Err(_) => Err(NoMemory),
        }
    }

    /// Gives the token back, without making the drafted calls. Makes no event, and takes no lock.
    pub fn abandon(self) -> TokenEnd<E>
        ensures { result ≡ self.token }
    {
        let Draft { token, calls: _ } = self;
        token
    }

    /// Makes the drafted calls in order, and then a Sync (`fuchsia.sysmem2.Node.Sync`), all under
    /// one lock, one event each.
    ///
    /// At a fault the calls before it were made: their ends and replies come back, and with them a draft
    /// that has the other calls. `HistoryFull` and `NoMemory` are answered as for one event, `NoMemory`
    /// also, before all events, if there is no room for the ends and replies. Costs one event for each
    /// call, and one for the Sync.
    pub fn sync<S: Ledger, W: Ledger, R: Wait>(
        self,
        rt: &R,
        alloc: Global,
        service: &Service<E, S, W>,
        client: &mut Client<E, S, W>,
    ) -> Result<Synced<E>, (Draft<E>, DraftPart<E>, StepFault)>
        requires holder { self.token.client ≡ client.old.id }
        ensures { MatchResult result
            (λ s. IsSynced client.old client.new self s.token s.replies.items s.made.items)
            (λ e. DraftStopped client.old client.new self e.0 e.1.replies.items e.1.made.items) }
    {
        let mut guard = service.lock(rt);
        self.sync_in(alloc, guard.state_mut(), client)
    }

    // Does what `sync` does, under a lock that is held.
    #[tactic(auto, using(crate::proofs::DraftLaws::stopped_none))]
    fn sync_in<S: Ledger, W: Ledger>(
        self,
        alloc: Global,
        state: &mut State<E, S, W>,
        client: &mut Client<E, S, W>,
    ) -> Result<Synced<E>, (Draft<E>, DraftPart<E>, StepFault)>
        ensures made { MatchResult result
            (λ s. IsSynced client.old client.new self s.token s.replies.items s.made.items)
            (λ e. DraftStopped client.old client.new self e.0 e.1.replies.items e.1.made.items) }
        ensures full { IfErr result (λ e. (e.2 ≡ Fault.HistoryFull)
            ↔ (state.new.limits.events ≤ length state.new.history)) }
    {
        let Draft { token, mut calls } = self;
        let mut part = DraftPart {
            made: Vec::new(alloc),
            replies: Vec::new(alloc),
        };
        let events = calls.len() + 1;
        if make_room(&mut part, events).is_err() {
            return Err((Draft { token, calls }, part, memory_fault(state)));
        }
        match make_all(state, client, token.key(), &mut calls, &mut part) {
            Ok(()) => {
                let DraftPart { made, replies } = part;
                Ok(Synced {
                    token,
                    made,
                    replies,
                })
            }
            Err(fault) => Err((Draft { token, calls }, part, fault)),
        }
    }
}
