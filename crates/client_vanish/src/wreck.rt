//! What remains of a client that vanished.
ghost use Rattle.std.specs.Prelude.{◌≡◌, ◌+◌, length};
ghost use Rattle.client_vanish.specs.Vanishings.{held_in};

use client_ends::{Client, EndedService, Held, Own};
use service_lock::Setup;
use sm_names::ClientId;
use std::marker::Model;
use std::sync::ledger::Ledger;

/// What remains of a client that vanished: its own list, and the values that it could not give up. It must
/// be spent, at the latest after the end of the service.
pub struct Wreck<E: Setup, S: Ledger, W: Ledger> {
    client: Client<E, S, W>,
    refused: Held<E, S, W>,
}

impl<E: Setup, S: Ledger, W: Ledger> Model for Wreck<E, S, W> {
    ghost use Rattle.client_vanish.specs.Vanishings.{Remains, held_in};

    ghost Value = { Remains };

    ghost view = { λ w. record { client = w.client; refused = held_in w.refused } };
}

impl<E: Setup, S: Ledger, W: Ledger> Wreck<E, S, W> {
    pub(crate) fn new(client: Client<E, S, W>, refused: Held<E, S, W>) -> Wreck<E, S, W>
        ensures { result ≡ record { client = client; refused = held_in refused } }
    {
        Wreck { client, refused }
    }

    /// The id of the client that vanished. Takes no lock, nor do the other readers.
    pub fn id(&self) -> ClientId
        ensures { result ≡ self.now.client.id }
    {
        self.client.id()
    }

    /// The client's own list: the events that it made after its Join, in order.
    pub fn own(&self) -> &[Own]
        ensures { result.now ≡ self.now.client.own }
    {
        self.client.own()
    }

    /// The number of events in the client's own list.
    pub fn events(&self) -> u64
        ensures value { result ≡ length self.now.client.own }
        ensures share { self.now.client.share ≡ result + 1 }
    {
        self.client.own().len() as u64
    }

    /// The values that the client could not give up: their Close or DropHandle was not answered Done.
    pub(crate) fn refused(&self) -> &Held<E, S, W>
        ensures { held_in result.now ≡ self.now.refused }
    {
        &self.refused
    }

    /// Takes the wreck apart.
    pub(crate) fn into_parts(self) -> (Client<E, S, W>, Held<E, S, W>) {
        let Wreck { client, refused } = self;
        (client, refused)
    }
}
