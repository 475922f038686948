//! What each client holds: ends and handles.
use sm_names::{BufferName, Call, ClientId, CollectionId, Parcel, Reply, Strength};

// This many things may be got.
const ROOM: usize = 64;

/// The ends and handles of all clients, in the order in which they were got. Takes no memory.
#[derive(Clone, Copy)]
pub struct Holdings {
    // A thing that is given up leaves its place.
    things: [Option<(ClientId, Parcel)>; ROOM],
    got: usize,
}

/// Nothing is held.
pub const NO_HOLDINGS: Holdings = Holdings {
    things: [None; ROOM],
    got: 0,
};

// What the caller got by the call, if it got one thing.
fn gained(call: &Call, reply: &Reply) -> Option<Parcel> {
    match *reply {
        Reply::Token { key, .. } => Some(Parcel::End(key)),
        Reply::Collected { key, .. } => Some(Parcel::End(key)),
        Reply::CollectedHandle { buffer, strength } => Some(Parcel::Handle(buffer, strength)),
        Reply::Done => match *call {
            Call::DupHandle(buffer, strength) => Some(Parcel::Handle(buffer, strength)),
            _ => None,
        },
        _ => None,
    }
}

// What the caller holds no longer after the call, if it held it before.
fn given_up(call: &Call, reply: &Reply) -> Option<Parcel> {
    let is_done = *reply == Reply::Done;
    match *call {
        Call::Release(key) => match *reply {
            Reply::Done => Some(Parcel::End(key)),
            Reply::PeerClosed { .. } => Some(Parcel::End(key)),
            _ => None,
        },
        Call::Give(key, _) if is_done => Some(Parcel::End(key)),
        Call::Close(key) if is_done => Some(Parcel::End(key)),
        Call::DropHandle(buffer, strength) if is_done => Some(Parcel::Handle(buffer, strength)),
        Call::GiveHandle(buffer, strength, _) if is_done => {
            Some(Parcel::Handle(buffer, strength))
        }
        _ => None,
    }
}

impl Holdings {
    /// The first thing that the client holds.
    pub fn first_of(&self, client: ClientId) -> Option<Parcel> {
        for place in &self.things {
            if let Some((holder, thing)) = *place {
                if holder == client {
                    return Some(thing);
                }
            }
        }
        None
    }

    /// Notes what the client got and gave away by the call that was answered so, and whether it held
    /// what it gave away.
    pub fn take_reply(&mut self, client: ClientId, call: &Call, reply: &Reply) -> bool {
        if let Reply::Taken {
            collection,
            strength,
            set,
        } = *reply
        {
            return self.gain_set(client, collection, strength, set);
        }
        if let Some(thing) = gained(call, reply) {
            return self.gain(client, thing);
        }
        match given_up(call, reply) {
            Some(thing) => self.lose(client, thing),
            None => true,
        }
    }

    fn gain(&mut self, client: ClientId, thing: Parcel) -> bool {
        match self.things.get_mut(self.got) {
            Some(place) => {
                *place = Some((client, thing));
                self.got += 1;
                true
            }
            None => false,
        }
    }

    fn lose(&mut self, client: ClientId, thing: Parcel) -> bool {
        let held = Some((client, thing));
        for place in &mut self.things {
            if *place == held {
                *place = None;
                return true;
            }
        }
        false
    }

    // A handle on each buffer of the set.
    fn gain_set(
        &mut self,
        client: ClientId,
        collection: CollectionId,
        strength: Strength,
        set: u64,
    ) -> bool {
        for index in 0..64 {
            if set >> index & 1 == 1 {
                let buffer = BufferName { collection, index };
                if !self.gain(client, Parcel::Handle(buffer, strength)) {
                    return false;
                }
            }
        }
        true
    }
}
