//! A core that is asked row by row.
use super::acts::{Act, Row, Said};
use super::holdings::{Holdings, NO_HOLDINGS};
use super::late::{earlier_reply, later, later_call};
use lifetime_core::Core;
use sm_names::{Call, ClientId, Limits, NodeKey, Parcel, Reply, StepFault, TrackerId};
use std::alloc::Global;
use trackers::Tracker;

/// This many calls are kept, and this many nodes are noted by the numbers of their calls.
pub const ROOM: usize = 64;

// A key that no node has.
const NO_NODE: NodeKey = NodeKey {
    slot: u32::MAX,
    generation: u32::MAX,
};

/// The first calls, each with its reply.
#[derive(Clone, Copy)]
pub struct Log {
    pub calls: [(ClientId, Call); ROOM],
    pub replies: [Reply; ROOM],
    pub count: usize,
}

/// A core of 16 pages, and what it was asked. But for the core it takes no memory. Its rows, and all that it tells
/// but the core, number events from 1, whatever came before.
#[derive(Drop)]
pub struct Player {
    core: Core,
    // How many events came before.
    start: u64,
    // The node of each call that made one.
    nodes: [NodeKey; ROOM],
    holdings: Holdings,
    log: Log,
    // How many clients joined, all before any other call.
    clients: ClientId,
}

/// Limits of these numbers. The first is 0 for lasting ones.
pub fn limits_of(numbers: [u32; 5]) -> Option<Limits> {
    let [events, nodes, collections, trackers, handles] = numbers;
    if events == 0 {
        let limits = Limits::new(1, nodes, collections, trackers, handles)?;
        return Some(limits.lasting());
    }
    Limits::new(events, nodes, collections, trackers, handles)
}

// A core that has seen nothing but so many refused calls. Where memory is refused, it is asked for again.
fn new_core(alloc: Global, limits: Limits, start: u64) -> Option<Core> {
    if start > limits.events() {
        return None;
    }
    match Core::starting_at(alloc, 16, limits, [3; 16], start) {
        Ok(core) => Some(core),
        Err(_) => Core::starting_at(alloc, 16, limits, [3; 16], start).ok(),
    }
}

// The call by which a client gives up what it holds.
fn giving_up(thing: Parcel) -> Call {
    match thing {
        Parcel::End(key) => Call::Close(key),
        Parcel::Handle(buffer, strength) => Call::DropHandle(buffer, strength),
    }
}

impl Log {
    // Keeps the call, where there is room.
    fn add_entry(&mut self, client: ClientId, call: Call, reply: Reply) {
        if self.count < ROOM {
            self.calls[self.count] = (client, call);
            self.replies[self.count] = reply;
            self.count += 1;
        }
    }
}

impl Player {
    /// A player of a core with these limits that has seen nothing; or nothing but so many refused calls, and then takes
    /// as many events as any.
    pub fn new(alloc: Global, limits: [u32; 5], start: u64) -> Option<Player> {
        let mut limits = limits_of(limits)?;
        if start > 0 {
            limits = limits.lasting();
        }
        let core = new_core(alloc, limits, start)?;
        Some(Player {
            core,
            start,
            nodes: [NO_NODE; ROOM],
            holdings: NO_HOLDINGS,
            log: Log {
                calls: [(0, Call::Join); ROOM],
                replies: [Reply::Done; ROOM],
                count: 0,
            },
            clients: 0,
        })
    }

    /// The core, to be looked at.
    pub fn core(&self) -> &Core {
        &self.core
    }

    /// How many events came before the first row.
    pub fn start(&self) -> u64 {
        self.start
    }

    /// How many calls were made.
    pub fn made(&self) -> u64 {
        self.core.events().saturating_sub(self.start)
    }

    /// The reader of the tracker that the call of this number made.
    pub fn take_tracker(&mut self, id: TrackerId) -> Option<Tracker> {
        self.core.take_tracker(later(self.start, id))
    }

    // Makes the call.
    fn step(&mut self, client: ClientId, call: Call) -> Result<Reply, StepFault> {
        let client = later(self.start, client);
        match self.core.step(client, later_call(self.start, call)) {
            Ok(reply) => Ok(earlier_reply(self.start, reply)),
            Err(fault) => Err(fault),
        }
    }

    /// The first calls, each with its reply.
    pub fn log(&self) -> &Log {
        &self.log
    }

    /// The key of the node that this call made; where it made none, a key that no node has.
    pub fn key_of(&self, number: u64) -> NodeKey {
        match self.nodes.get(number as usize) {
            Some(key) => *key,
            None => NO_NODE,
        }
    }

    // Notes a call and its reply. `false` where a new node has the key of another, and where a client lost what it did
    // not hold.
    fn note(&mut self, client: ClientId, call: &Call, reply: &Reply) -> bool {
        self.log.add_entry(client, *call, *reply);
        let is_new = match *reply {
            Reply::Joined(newest) => {
                self.clients = newest;
                true
            }
            Reply::Token { key, .. } => self.name(key),
            _ => true,
        };
        is_new && self.holdings.take_reply(client, call, reply)
    }

    // Notes the new node. `false` where it has the key of another.
    fn name(&mut self, key: NodeKey) -> bool {
        let is_new = !self.nodes.contains(&key);
        let made = self.made();
        match self.nodes.get_mut(made as usize) {
            Some(node) => {
                *node = key;
                is_new
            }
            None => false,
        }
    }

    // The reply that names the nodes of these numbers. A token is that of the newest node.
    fn reply_of(&self, said: Said) -> Reply {
        match said {
            Said::Just(reply) => reply,
            Said::Token(collection) => Reply::Token {
                key: self.key_of(self.made()),
                collection,
            },
            Said::End(number, kind, collection) => Reply::Collected {
                key: self.key_of(number),
                kind,
                collection,
            },
            Said::Closed(cause, origin) => Reply::PeerClosed {
                cause,
                origin: self.key_of(origin),
            },
        }
    }

    /// Makes the call of the row, and whether it is answered as the row says. The fault, where it is not taken.
    pub fn takes(&mut self, row: &Row) -> Result<bool, StepFault> {
        let (client, act, said) = *row;
        let Some(call) = act.call(self.key_of(act.node())) else {
            return Ok(false);
        };
        match self.step(client, call) {
            Ok(reply) => Ok(self.note(client, &call, &reply) && reply == self.reply_of(said)),
            Err(fault) => Err(fault),
        }
    }

    /// Makes the calls of this many rows, and whether they are answered as the rows say.
    pub fn keeps_to(&mut self, rows: &[Row], count: usize) -> bool {
        for row in rows.iter().take(count) {
            if self.takes(row) != Ok(true) {
                return false;
            }
        }
        true
    }

    // Makes the call, and answers the reply, if it is taken and can be noted.
    fn ask(&mut self, client: ClientId, call: Call) -> Option<Reply> {
        match self.step(client, call) {
            Ok(reply) if self.note(client, &call, &reply) => Some(reply),
            _ => None,
        }
    }

    // Makes the calls of a client that vanishes: it is shut, collects what waits for it, closes
    // each end that it holds and drops each handle. Answers whether each took effect.
    fn vanishes(&mut self, client: ClientId) -> bool {
        match self.ask(client, Call::Shut) {
            Some(Reply::Shut(waiting)) => {
                self.collects_all(client, waiting) && self.gives_all_up(client)
            }
            _ => false,
        }
    }

    // Whether the client collects this many parcels.
    fn collects_all(&mut self, client: ClientId, waiting: u64) -> bool {
        for _ in 0..waiting {
            match self.ask(client, Call::Collect) {
                Some(Reply::Collected { .. } | Reply::CollectedHandle { .. }) => {}
                _ => return false,
            }
        }
        true
    }

    // Whether the client gives up all that it holds.
    fn gives_all_up(&mut self, client: ClientId) -> bool {
        for _ in 0..ROOM {
            let Some(thing) = self.holdings.first_of(client) else {
                return true;
            };
            if self.ask(client, giving_up(thing)) != Some(Reply::Done) {
                return false;
            }
        }
        false
    }

    /// Makes the calls by which the first two clients vanish, of those that joined.
    pub fn all_vanish(&mut self) -> bool {
        (self.clients < 1 || self.vanishes(1)) && (self.clients < 2 || self.vanishes(2))
    }
}
