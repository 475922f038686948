//! Handles.
ghost use Rattle.std.specs.Prelude.{◌≡◌, MatchResult, Some};
ghost use Rattle.sm_names.specs.declared.messages.Call.{Call as Asked};
ghost use Rattle.sm_names.specs.declared.messages.Reply.{Reply as Told};
ghost use Rattle.service_lock.specs.Accounts.{handle_unit, is_done, lets_go};
ghost use Rattle.client_ends.specs.Clients.{Made, MadeOr, is_tracker_reply};

use crate::client::Client;
use crate::ended::EndedService;
use crate::why::{Kept, Why};
use service_lock::{Service, Setup, Units};
use sm_names::{BufferName, Call, ClientId, Strength};
use std::marker::Model;
use std::sync::Wait;
use std::sync::ledger::Ledger;
use trackers::Tracker;

/// An open handle, with a share of 1 of the book of its strength: a linear value, which must be spent.
///
/// A contract sees its client, its buffer, and its strength. Each call of a handle takes this `Client`, and
/// makes one event of it.
pub struct Handle<E: Setup, S: Ledger, W: Ledger> {
    client: ClientId,
    buffer: BufferName,
    strength: Strength,
    unit: Units<E, S, W>,
}

impl<E: Setup, S: Ledger, W: Ledger> Model for Handle<E, S, W> {
    ghost use Rattle.std.specs.Prelude.{◌≡◌};
    ghost use Rattle.service_lock.specs.Accounts.{handle_unit};
    ghost use Rattle.client_ends.specs.Clients.{Grip};

    ghost Value = { Grip };

    ghost view = { λ h. record { client = h.client; buffer = h.buffer; strength = h.strength } };

    ghost invariant = { λ h. h.unit ≡ handle_unit h.strength };
}

impl<E: Setup, S: Ledger, W: Ledger> Handle<E, S, W> {
    pub(crate) fn new(
        client: ClientId,
        buffer: BufferName,
        strength: Strength,
        unit: Units<E, S, W>,
    ) -> Handle<E, S, W>
        requires { unit ≡ handle_unit strength }
        ensures { result ≡ record { client = client; buffer = buffer; strength = strength } }
    {
        Handle {
            client,
            buffer,
            strength,
            unit,
        }
    }

    /// Spends the handle without an event, after the end of the service.
    pub fn spend(self, _ended: &EndedService<E, S, W>) {
        let Handle {
            client: _,
            buffer: _,
            strength: _,
            unit: _,
        } = self;
    }

    /// The client that has the handle. Takes no lock, nor do `buffer` and `strength`.
    pub fn client(&self) -> ClientId
        ensures { result ≡ self.now.client }
    {
        self.client
    }

    /// The buffer that the handle keeps: its collection and index.
    pub fn buffer(&self) -> BufferName
        ensures { result ≡ self.now.buffer }
    {
        self.buffer
    }

    /// Whether the handle is strong or weak, which never changes.
    pub fn strength(&self) -> Strength
        ensures { result ≡ self.now.strength }
    {
        self.strength
    }

    /// Opens one more handle of this buffer and strength. Costs one event.
    pub fn duplicate<R: Wait>(
        &self,
        rt: &R,
        service: &Service<E, S, W>,
        client: &mut Client<E, S, W>,
    ) -> Result<Handle<E, S, W>, Why>
        requires holder { self.now.client ≡ client.old.id }
        ensures { MatchResult result
            (λ h. (h ≡ self.now) × Made client.old client.new
            (Asked.DupHandle self.now.buffer self.now.strength) Told.Done)
            (λ w. MadeOr is_done client.old client.new
            (Asked.DupHandle self.now.buffer self.now.strength) w) }
    {
        client.doubled(rt, service, self.buffer, self.strength)
    }

    /// Makes a tracker that fires once the buffer is doomed (the field `close_weak_asap` of
    /// `fuchsia.sysmem2.VmoBuffer`). The call is refused if the client has no weak handle on the
    /// buffer. The tracker's reader takes no lock. Costs one event, and a binary search among all
    /// trackers.
    pub fn track_weak<R: Wait>(
        &self,
        rt: &R,
        service: &Service<E, S, W>,
        client: &mut Client<E, S, W>,
    ) -> Result<Tracker, Why>
        requires holder { self.now.client ≡ client.old.id }
        ensures { MatchResult result
            (λ t. Made client.old client.new
            (Asked.TrackWeak self.now.buffer) (Told.Tracker t.tracker))
            (λ w. MadeOr is_tracker_reply client.old client.new
            (Asked.TrackWeak self.now.buffer) w) }
    {
        client.tracker(rt, service, Call::TrackWeak(self.buffer))
    }

    /// Drops the handle, and takes its share off the book. If the answer is not Done, the handle comes
    /// back with the reason. Costs one event.
    pub fn drop_handle<R: Wait>(
        self,
        rt: &R,
        service: &Service<E, S, W>,
        client: &mut Client<E, S, W>,
    ) -> Result<(), Kept<Handle<E, S, W>>>
        requires holder { self.client ≡ client.old.id }
        ensures { MatchResult result
            (λ _. Made client.old client.new
            (Asked.DropHandle self.buffer self.strength) Told.Done)
            (λ k. (k.value ≡ self) × MadeOr is_done client.old client.new
            (Asked.DropHandle self.buffer self.strength) k.why) }
    {
        let call = Call::DropHandle(self.buffer, self.strength);
        self.let_go(rt, service, client, call)
    }

    /// Puts the handle into a parcel for the client `to`. Until the Collect, the handle's share lies under
    /// the lock. If the answer is not Done, the handle comes back with the reason. Costs one event.
    pub fn give<R: Wait>(
        self,
        rt: &R,
        service: &Service<E, S, W>,
        client: &mut Client<E, S, W>,
        to: ClientId,
    ) -> Result<(), Kept<Handle<E, S, W>>>
        requires holder { self.client ≡ client.old.id }
        ensures { MatchResult result
            (λ _. Made client.old client.new
            (Asked.GiveHandle self.buffer self.strength to) Told.Done)
            (λ k. (k.value ≡ self) × MadeOr is_done client.old client.new
            (Asked.GiveHandle self.buffer self.strength to) k.why) }
    {
        let call = Call::GiveHandle(self.buffer, self.strength, to);
        self.let_go(rt, service, client, call)
    }

    // Makes a call that drops or gives the handle.
    fn let_go<R: Wait>(
        self,
        rt: &R,
        service: &Service<E, S, W>,
        client: &mut Client<E, S, W>,
        call: Call,
    ) -> Result<(), Kept<Handle<E, S, W>>>
        requires { lets_go call ≡ Some self.strength }
        ensures { MatchResult result
            (λ _. Made client.old client.new call Told.Done)
            (λ k. (k.value ≡ self) × MadeOr is_done client.old client.new call k.why) }
    {
        let Handle {
            client: holder,
            buffer,
            strength,
            unit,
        } = self;
        match client.let_go(rt, service, call, strength, unit) {
            Ok(()) => Ok(()),
            Err((why, unit)) => Err(Kept {
                value: Handle::new(holder, buffer, strength, unit),
                why,
            }),
        }
    }
}
