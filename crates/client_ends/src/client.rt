//! Clients.
ghost use Rattle.std.specs.Prelude.{◌≡◌, ◌+◌, ◌<◌, ◌≤◌, ◌↔◌, ◌^◌, Some, [], true, Err, IfOk, OnErr, OnOk, MatchResult, length, vec_len};
ghost use Rattle.sm_names.specs.declared.messages.Call.{Call as Asked};
ghost use Rattle.sm_names.specs.declared.messages.Reply.{Reply as Told};
ghost use Rattle.sm_names.specs.declared.outcomes.StepFault.{StepFault as Fault};
ghost use Rattle.client_ends.specs.declared.why.Why.{Why as Reason};
ghost use Rattle.core_state.specs.Kinds.{fits_call};
ghost use Rattle.service_lock.specs.States.{view_after, with_parts};
ghost use Rattle.service_lock.specs.Accounts.{handle_unit, is_done, lets_go};
ghost use Rattle.client_ends.specs.Clients.{Made, MadeOr, is_collect_reply, release_spends, moves_no_handle, is_take_reply, is_token_reply, is_tracker_reply, last_reply};
ghost use Rattle.client_ends.specs.Collecting.{Collected, handles_collected};
ghost use Rattle.client_ends.specs.Taking.{Took};

use crate::ended::EndedService;
use crate::ends::{CollectionEnd, TokenEnd};
use crate::handle::Handle;
use crate::held::ParcelContent;
use crate::taking::{make_room, make_taking};
use crate::why::Why;
use event_laws::Own;
use service_lock::{Account, Service, Setup, State, Units, apply, empty, take_back, take_tracker};
use sm_names::{BufferName, Call, ClientId, Kind, NodeKey, Reply, StepFault, Strength};
use std::alloc::Global;
use std::marker::Model;
use std::sync::Wait;
use std::sync::ledger::Ledger;
use trackers::Tracker;

/// A client: a linear value, which must be spent, at the latest after the end of the service.
///
/// A contract sees its id, the amount of its share of the book of events, and its own list.
pub struct Client<E: Setup, S: Ledger, W: Ledger> {
    id: ClientId,
    account: Account<E, S, W>,
}

impl<E: Setup, S: Ledger, W: Ledger> Model for Client<E, S, W> {
    ghost use Rattle.std.specs.Prelude.{◌≡◌};
    ghost use Rattle.client_ends.specs.Clients.{Seen};

    ghost Value = { Seen };

    ghost view = { λ c. record {
      id = c.id;
      share = c.account.units.events;
      own = c.account.own;
    } };

    ghost invariant = { λ c. (c.account.units.strong ≡ 0) × (c.account.units.weak ≡ 0) };
}

/// Makes a client by one event, its Join. Its own list is empty, since a Join is not in it.
///
/// A fault is no event: `HistoryFull` if the record is full, otherwise `NoMemory`. Costs one event.
pub fn join<E: Setup, S: Ledger, W: Ledger, R: Wait>(
    rt: &R,
    alloc: Global,
    service: &Service<E, S, W>,
) -> Result<Client<E, S, W>, StepFault>
    ensures { IfOk result (λ c. (c.own ≡ []) × (c.share ≡ 1)) }
{
    let mut guard = service.lock(rt);
    join_in(alloc, guard.state_mut())
}

// Does what `join` does, under a lock that is held.
fn join_in<E: Setup, S: Ledger, W: Ledger>(
    alloc: Global,
    state: &mut State<E, S, W>,
) -> Result<Client<E, S, W>, StepFault>
    ensures client { IfOk result (λ c. (c.own ≡ []) × (c.share ≡ 1)) }
    ensures event { IfOk result (λ c.
        with_parts 1 state.new ≡ view_after state.old 0 Asked.Join (Told.Joined c.id)) }
    ensures fault { OnErr result (state.new ≡ state.old) }
    ensures full { (result ≡ Err Fault.HistoryFull)
        ↔ (state.old.limits.events ≤ length state.old.history) }
{
    let mut units = empty(state)?;
    match apply(state, &mut units, 0, Call::Join) {
        Ok(Reply::Joined(id)) => Ok(Client {
            id,
            account: Account::new(alloc, units),
        }),
        Ok(_) => unreachable!(),
        Err(fault) => {
            take_back(state, units);
            Err(fault)
        }
    }
}

impl<E: Setup, S: Ledger, W: Ledger> Client<E, S, W> {
    /// The client's id: the number of its Join. Takes no lock, nor do `own` and `last`.
    pub fn id(&self) -> ClientId
        ensures { result ≡ self.now.id }
    {
        self.id
    }

    /// The client's own list: the events that it made after its Join, in order. Its share of the book of
    /// events is the length of the list, plus one for the Join.
    pub fn own(&self) -> &[Own]
        ensures value { result.now ≡ self.now.own }
        ensures share { self.now.share ≡ length self.now.own + 1 }
    {
        self.account.own()
    }

    /// The reply of the last event of the own list; `None` if the list is empty.
    pub fn last(&self) -> Option<Reply>
        ensures value { result ≡ last_reply self.now.own }
        ensures share { self.now.share ≡ length self.now.own + 1 }
    {
        match self.account.own().last() {
            Some(own) => Some(own.reply),
            None => None,
        }
    }

    // Makes an event that opens and moves no handle, under a lock that is held.
    pub(crate) fn event_in(
        &mut self,
        state: &mut State<E, S, W>,
        call: Call,
    ) -> Result<Reply, StepFault>
        requires { moves_no_handle call ≡ true }
        ensures made { MatchResult result
            (λ r. Made self.old self.new call r) (λ _. self.new ≡ self.old) }
        ensures state { IfOk result (λ r. state.new ≡ view_after state.old self.old.id call r) }
        ensures fault { OnErr result (state.new ≡ state.old) }
        ensures full { (result ≡ Err Fault.HistoryFull)
            ↔ (state.old.limits.events ≤ length state.old.history) }
    {
        self.account.apply_and_count(state, self.id, call)
    }

    // Takes the lock, and makes an event that opens and moves no handle.
    pub(crate) fn event<R: Wait>(
        &mut self,
        rt: &R,
        service: &Service<E, S, W>,
        call: Call,
    ) -> Result<Reply, StepFault>
        requires { moves_no_handle call ≡ true }
        ensures made { MatchResult result
            (λ r. Made self.old self.new call r) (λ _. self.new ≡ self.old) }
    {
        let mut guard = service.lock(rt);
        self.event_in(guard.state_mut(), call)
    }

    // Makes an event, and answers the new end that it makes.
    pub(crate) fn new_end<R: Wait>(
        &mut self,
        rt: &R,
        service: &Service<E, S, W>,
        call: Call,
    ) -> Result<TokenEnd<E>, Why>
        requires { moves_no_handle call ≡ true }
        ensures { MatchResult result
            (λ t. (t.client ≡ self.old.id)
            × Made self.old self.new call (Told.Token t.key t.collection))
            (λ w. MadeOr is_token_reply self.old self.new call w) }
    {
        match self.event(rt, service, call) {
            Ok(Reply::Token { key, collection }) => Ok(TokenEnd::new(self.id, key, collection)),
            Ok(reply) => Err(Why::Reply(reply)),
            Err(fault) => Err(Why::Fault(fault)),
        }
    }

    // Makes an event. Any answer but Done is an error.
    pub(crate) fn answered_done<R: Wait>(
        &mut self,
        rt: &R,
        service: &Service<E, S, W>,
        call: Call,
    ) -> Result<(), Why>
        requires { moves_no_handle call ≡ true }
        ensures { MatchResult result
            (λ _. Made self.old self.new call Told.Done)
            (λ w. MadeOr is_done self.old self.new call w) }
    {
        match self.event(rt, service, call) {
            Ok(Reply::Done) => Ok(()),
            Ok(reply) => Err(Why::Reply(reply)),
            Err(fault) => Err(Why::Fault(fault)),
        }
    }

    // Makes a Release, and answers its reply if it spends the end.
    pub(crate) fn released<R: Wait>(
        &mut self,
        rt: &R,
        service: &Service<E, S, W>,
        call: Call,
    ) -> Result<Reply, Why>
        requires { moves_no_handle call ≡ true }
        ensures { MatchResult result
            (λ r. Made self.old self.new call r × (release_spends r ≡ true))
            (λ w. MadeOr release_spends self.old self.new call w) }
    {
        match self.event(rt, service, call) {
            Ok(Reply::Done) => Ok(Reply::Done),
            Ok(Reply::PeerClosed { cause, origin }) => Ok(Reply::PeerClosed { cause, origin }),
            Ok(reply) => Err(Why::Reply(reply)),
            Err(fault) => Err(Why::Fault(fault)),
        }
    }

    // Makes an event, and answers the tracker that it makes.
    #[tactic(auto, using(crate::proofs::ReplyLaws::untaken_last))]
    pub(crate) fn tracker<R: Wait>(
        &mut self,
        rt: &R,
        service: &Service<E, S, W>,
        call: Call,
    ) -> Result<Tracker, Why>
        requires { moves_no_handle call ≡ true }
        ensures { MatchResult result
            (λ t. Made self.old self.new call (Told.Tracker t.tracker))
            (λ w. MadeOr is_tracker_reply self.old self.new call w) }
    {
        let mut guard = service.lock(rt);
        let state = guard.state_mut();
        match self.event_in(state, call) {
            Ok(Reply::Tracker(id)) => match take_tracker(state, id) {
                Some(tracker) => Ok(tracker),
                None => unreachable!(),
            },
            Ok(reply) => Err(Why::Reply(reply)),
            Err(fault) => Err(Why::Fault(fault)),
        }
    }

    // Makes the event that drops or gives a handle. The handle's share comes back unless the answer is
    // Done.
    pub(crate) fn let_go<R: Wait>(
        &mut self,
        rt: &R,
        service: &Service<E, S, W>,
        call: Call,
        strength: Strength,
        unit: Units<E, S, W>,
    ) -> Result<(), (Why, Units<E, S, W>)>
        requires unit { unit ≡ handle_unit strength }
        requires call { lets_go call ≡ Some strength }
        ensures { MatchResult result
            (λ _. Made self.old self.new call Told.Done)
            (λ e. MadeOr is_done self.old self.new call e.0 × (e.1 ≡ handle_unit strength)) }
    {
        let mut guard = service.lock(rt);
        self.let_go_in(guard.state_mut(), call, strength, unit)
    }

    // Does what `let_go` does, under a lock that is held.
    fn let_go_in(
        &mut self,
        state: &mut State<E, S, W>,
        call: Call,
        strength: Strength,
        unit: Units<E, S, W>,
    ) -> Result<(), (Why, Units<E, S, W>)>
        requires unit { unit ≡ handle_unit strength }
        requires call { lets_go call ≡ Some strength }
        ensures made { MatchResult result
            (λ _. Made self.old self.new call Told.Done)
            (λ e. MadeOr is_done self.old self.new call e.0 × (e.1 ≡ handle_unit strength)) }
        ensures back { OnOk result (state.old.parts + 1 < 2 ^ 40 →
            state.new.parts ≡ state.old.parts + 1) }
        ensures same { OnErr result (state.new.parts ≡ state.old.parts) }
    {
        let mut unit = unit;
        let made = self
            .account
            .make_with(state, self.id, call, strength, &mut unit);
        match made {
            Ok(Reply::Done) => {
                take_back(state, unit);
                Ok(())
            }
            Ok(reply) => Err((Why::Reply(reply), unit)),
            Err(fault) => Err((Why::Fault(fault), unit)),
        }
    }

    // Opens one more handle of this buffer and strength.
    pub(crate) fn doubled<R: Wait>(
        &mut self,
        rt: &R,
        service: &Service<E, S, W>,
        buffer: BufferName,
        strength: Strength,
    ) -> Result<Handle<E, S, W>, Why>
        ensures { MatchResult result
            (λ h. (h ≡ record { client = self.old.id; buffer = buffer; strength = strength })
            × Made self.old self.new (Asked.DupHandle buffer strength) Told.Done)
            (λ w. MadeOr is_done self.old self.new (Asked.DupHandle buffer strength) w) }
    {
        let mut guard = service.lock(rt);
        self.doubled_in(guard.state_mut(), buffer, strength)
    }

    // Does what `doubled` does, under a lock that is held.
    #[tactic(auto, using(crate::proofs::ReplyLaws::none_doubled))]
    fn doubled_in(
        &mut self,
        state: &mut State<E, S, W>,
        buffer: BufferName,
        strength: Strength,
    ) -> Result<Handle<E, S, W>, Why>
        ensures made { MatchResult result
            (λ h. (h ≡ record { client = self.old.id; buffer = buffer; strength = strength })
            × Made self.old self.new (Asked.DupHandle buffer strength) Told.Done)
            (λ w. MadeOr is_done self.old self.new (Asked.DupHandle buffer strength) w) }
        ensures part { OnOk result (state.new.parts + 1 ≡ state.old.parts) }
        ensures same { OnErr result (state.new.parts ≡ state.old.parts) }
        ensures full { (result ≡ Err (Reason.Fault Fault.HistoryFull))
            ↔ (state.old.limits.events ≤ length state.old.history) }
    {
        let call = Call::DupHandle(buffer, strength);
        match self.account.make_gaining(state, self.id, call) {
            Ok((Reply::Done, Some(unit))) => Ok(Handle::new(self.id, buffer, strength, unit)),
            Ok((Reply::Done, None)) => unreachable!(),
            Ok((reply, _)) => Err(Why::Reply(reply)),
            Err(fault) => Err(Why::Fault(fault)),
        }
    }

    // Makes a Take, and answers the handles that it opens.
    pub(crate) fn taken<R: Wait>(
        &mut self,
        rt: &R,
        alloc: Global,
        service: &Service<E, S, W>,
        key: NodeKey,
    ) -> Result<Vec<Handle<E, S, W>>, Why>
        ensures { MatchResult result
            (λ hs. Took self.old self.new key hs.items)
            (λ w. MadeOr is_take_reply self.old self.new (Asked.Take key) w) }
    {
        let mut guard = service.lock(rt);
        self.taken_in(alloc, guard.state_mut(), key)
    }

    // Does what `taken` does, under a lock that is held.
    fn taken_in(
        &mut self,
        alloc: Global,
        state: &mut State<E, S, W>,
        key: NodeKey,
    ) -> Result<Vec<Handle<E, S, W>>, Why>
        ensures made { MatchResult result
            (λ hs. Took self.old self.new key hs.items)
            (λ w. MadeOr is_take_reply self.old self.new (Asked.Take key) w) }
        ensures parts { IfOk result (λ hs. state.new.parts + vec_len hs ≡ state.old.parts) }
        ensures same { OnErr result (state.new.parts ≡ state.old.parts) }
        ensures full { (result ≡ Err (Reason.Fault Fault.HistoryFull))
            ↔ (state.old.limits.events ≤ length state.old.history) }
    {
        let mut handles = match make_room(alloc, state) {
            Ok(handles) => handles,
            Err(fault) => return Err(Why::Fault(fault)),
        };
        match make_taking(&mut self.account, state, self.id, key, &mut handles) {
            Ok(Reply::Taken { .. }) => return Ok(handles),
            Ok(reply) => {
                handles.destroy_empty();
                return Err(Why::Reply(reply));
            }
            Err(fault) => {
                handles.destroy_empty();
                return Err(Why::Fault(fault));
            }
        }
    }

    /// Takes the first parcel that waits for the client: an end or a handle, which then belongs to the
    /// client; `None` if no parcel waits. Costs one event.
    pub fn collect<R: Wait>(
        &mut self,
        rt: &R,
        service: &Service<E, S, W>,
    ) -> Result<Option<ParcelContent<E, S, W>>, Why>
        ensures { MatchResult result
            (λ found. Collected self.old self.new found)
            (λ w. MadeOr is_collect_reply self.old self.new Asked.Collect w) }
    {
        let mut guard = service.lock(rt);
        self.collect_in(guard.state_mut())
    }

    // Does what `collect` does, under a lock that is held.
    #[tactic(auto, using(crate::proofs::ReplyLaws::none_collected))]
    fn collect_in(
        &mut self,
        state: &mut State<E, S, W>,
    ) -> Result<Option<ParcelContent<E, S, W>>, Why>
        ensures made { MatchResult result
            (λ found. Collected self.old self.new found)
            (λ w. MadeOr is_collect_reply self.old self.new Asked.Collect w) }
        ensures parts { IfOk result (λ found.
            state.new.parts + handles_collected found ≡ state.old.parts) }
        ensures same { OnErr result (state.new.parts ≡ state.old.parts) }
        ensures full { (result ≡ Err (Reason.Fault Fault.HistoryFull))
            ↔ (state.old.limits.events ≤ length state.old.history) }
    {
        match self.account.make_gaining(state, self.id, Call::Collect) {
            Ok((Reply::CollectedHandle { buffer, strength }, Some(unit))) => {
                Ok(Some(ParcelContent::Handle(Handle::new(self.id, buffer, strength, unit))))
            }
            Ok((Reply::CollectedHandle { .. }, None)) => unreachable!(),
            Ok(
                (
                    Reply::Collected {
                        key,
                        kind: Kind::Token,
                        collection,
                    },
                    _,
                ),
            ) => Ok(Some(ParcelContent::Token(TokenEnd::new(self.id, key, collection)))),
            Ok(
                (
                    Reply::Collected {
                        key,
                        kind: Kind::Collection,
                        collection,
                    },
                    _,
                ),
            ) => Ok(Some(ParcelContent::Collection(CollectionEnd::new(self.id, key, collection)))),
            Ok((Reply::Empty, _)) => Ok(None),
            Ok((reply, _)) => Err(Why::Reply(reply)),
            Err(fault) => Err(Why::Fault(fault)),
        }
    }

    /// Shuts the client: nobody can give it anything more, and it can make no more nodes and trackers.
    /// The reply has the number of parcels that wait for it. Costs one event.
    pub fn shut<R: Wait>(&mut self, rt: &R, service: &Service<E, S, W>) -> Result<Reply, StepFault>
        ensures { MatchResult result
            (λ r. Made self.old self.new Asked.Shut r) (λ _. self.new ≡ self.old) }
    {
        self.event(rt, service, Call::Shut)
    }

    /// Makes a collection, and answers its root token
    /// (`fuchsia.sysmem2.Allocator.AllocateSharedCollection`). Costs one event.
    pub fn open_root<R: Wait>(
        &mut self,
        rt: &R,
        service: &Service<E, S, W>,
    ) -> Result<TokenEnd<E>, Why>
        ensures { MatchResult result
            (λ t. (t.client ≡ self.old.id)
            × Made self.old self.new Asked.OpenRoot (Told.Token t.key t.collection))
            (λ w. MadeOr is_token_reply self.old self.new Asked.OpenRoot w) }
    {
        self.new_end(rt, service, Call::OpenRoot)
    }

    /// Spends the client without an event, after the end of the service.
    pub fn spend(self, _ended: &EndedService<E, S, W>) {
        let Client { id: _, account } = self;
        account.spend();
    }
}
