//! The clients, and the parcels that wait for them.
ghost use Rattle.std.specs.Prelude.{◌≡◌, ◌==◌, ◌++◌, IfOk, OnOk, OnErr, [], ◌∷◌, drop, map, length, true, false};
ghost use Rattle.std.specs.List.{find, position, slice_get};
ghost use Rattle.std.specs.Option.{option_map, option_map_or};
ghost use Rattle.sm_names.specs.Marks.{Called};
ghost use Rattle.core_state.specs.ClientRows.{queued, with_client, now_shut, without_first, with_parcel};
ghost use Rattle.core_state.specs.State.{Client as Row};
ghost use Rattle.core_state.specs.Steps.{clients_by, new_client};
ghost use Rattle.core_state.specs.Tasks.{takes_room};
ghost use Rattle.core_state.specs.Whole.{Rise};

use sm_names::{Call, ClientId, NoMemory, Parcel, Reply};
use std::alloc::{AllocError, Global};
use std::collections::VecDeque;
use std::marker::Model;
use std::mem;

/// A queue with room for more parcels than this gives its memory back once it is empty.
const KEPT_ROOM: usize = 64;

/// The parcels that wait for a client, the first one first. A parcel that comes when none waits lies beside
/// the others, so that it needs no memory but the queue itself.
#[derive(Drop)]
struct Queue {
    first: Option<Parcel>,
    rest: VecDeque<Parcel>,
}

/// Whether a client is shut, and the parcels that wait for it. There is no queue before the first parcel,
/// and after `give_back`.
#[derive(Drop)]
enum Standing {
    Open,
    OpenWith(Box<Queue>),
    Shut,
    ShutWith(Box<Queue>),
}

/// A client that joined. Once it is shut and no parcel waits for it, its row of 24 bytes is all that is
/// kept of it.
#[derive(Drop)]
pub struct JoinedClient {
    id: ClientId,
    standing: Standing,
}

impl Model for JoinedClient {
    ghost use Rattle.core_state.specs.State.{Client};

    ghost Value = { Client };

    ghost use Rattle.core_state.specs.ClientRows.{is_shut_so, parcels_in};

    ghost view = { λ c.
        record { id = c.id; shut = is_shut_so c.standing; waiting = parcels_in c.standing } };
}

impl Queue {
    // A queue of this parcel.
    fn of(alloc: Global, parcel: Parcel) -> Result<Box<Queue>, NoMemory>
        ensures { IfOk result (λ queue. queued queue.value ≡ parcel ∷ []) }
    {
        let queue = Queue {
            first: Some(parcel),
            rest: VecDeque::new(alloc),
        };
        match Box::new(alloc, queue) {
            Ok(queue) => Ok(queue),
            Err(_) => Err(NoMemory),
        }
    }

    // Whether no parcel waits.
    #[inline(always)]
    fn is_empty(&self) -> bool
        ensures { result ≡ (length (queued self.now) == 0) }
    {
        self.first.is_none() && self.rest.front().is_none()
    }

    // Whether no parcel waits, but there is room for many.
    #[inline(always)]
    fn is_idle(&self) -> bool
        ensures { result ≡ true → queued self.now ≡ [] }
    {
        self.rest.capacity() > KEPT_ROOM && self.is_empty()
    }

    // How many parcels wait.
    #[inline(always)]
    fn count(&self) -> usize
        ensures { result ≡ length (queued self.now) }
    {
        let (front, back) = self.rest.as_slices();
        match self.first {
            Some(_) => front.len() + back.len() + 1,
            None => front.len() + back.len(),
        }
    }

    // The parcel that is collected next.
    #[inline(always)]
    fn next(&self) -> Option<Parcel>
        ensures { result ≡ slice_get (queued self.now) 0 }
    {
        match self.first {
            Some(parcel) => Some(parcel),
            None => self.rest.front().copied(),
        }
    }

    // Puts the parcel behind the others.
    #[inline(always)]
    fn push(&mut self, parcel: Parcel) -> Result<(), NoMemory>
        ensures ok { OnOk result (queued self.new ≡ queued self.old ++ parcel ∷ []) }
        ensures err { OnErr result (queued self.new ≡ queued self.old) }
    {
        if self.is_empty() {
            self.first = Some(parcel);
            return Ok(());
        }
        match self.rest.push_back(parcel) {
            Ok(()) => Ok(()),
            Err(_) => Err(NoMemory),
        }
    }

    // Takes the first parcel.
    #[inline(always)]
    fn pop(&mut self)
        ensures { queued self.new ≡ drop 1 (queued self.old) }
    {
        match self.first {
            Some(_) => self.first = None,
            None => {
                self.rest.pop_front();
            }
        }
    }
}

impl JoinedClient {
    // Whether the client is shut.
    #[inline(always)]
    fn is_shut(&self) -> bool
        ensures { result ≡ self.now.shut }
    {
        match &self.standing {
            Standing::Open | Standing::OpenWith(_) => false,
            Standing::Shut | Standing::ShutWith(_) => true,
        }
    }

    // How many parcels wait.
    #[inline(always)]
    fn count_waiting(&self) -> usize
        ensures { result ≡ length self.now.waiting }
    {
        match &self.standing {
            Standing::OpenWith(queue) => queue.count(),
            Standing::ShutWith(queue) => queue.count(),
            Standing::Open | Standing::Shut => 0,
        }
    }

    // The parcel that is collected next.
    #[inline(always)]
    fn first_waiting(&self) -> Option<Parcel>
        ensures { result ≡ slice_get self.now.waiting 0 }
    {
        match &self.standing {
            Standing::OpenWith(queue) => queue.next(),
            Standing::ShutWith(queue) => queue.next(),
            Standing::Open | Standing::Shut => None,
        }
    }

    // Shuts the client.
    fn shut(&mut self)
        ensures { self.new ≡ now_shut self.old }
    {
        match mem::replace(&mut self.standing, Standing::Shut) {
            Standing::OpenWith(queue) => self.standing = Standing::ShutWith(queue),
            Standing::ShutWith(queue) => self.standing = Standing::ShutWith(queue),
            Standing::Open | Standing::Shut => {}
        }
        self.give_back();
    }

    // Puts the parcel behind those that wait.
    #[inline(always)]
    fn push(&mut self, alloc: Global, parcel: Parcel) -> Result<(), NoMemory>
        ensures ok { OnOk result (self.new ≡ with_parcel parcel self.old) }
        ensures err { OnErr result (self.new ≡ self.old) }
    {
        match &mut self.standing {
            Standing::OpenWith(queue) => queue.push(parcel),
            _ => self.push_first(alloc, parcel),
        }
    }

    // The same, also where the client has no queue yet or is shut. A call of its own, since a caller that
    // grows too large is not compiled into its callers.
    #[cold]
    #[inline(never)]
    fn push_first(&mut self, alloc: Global, parcel: Parcel) -> Result<(), NoMemory>
        ensures ok { OnOk result (self.new ≡ with_parcel parcel self.old) }
        ensures err { OnErr result (self.new ≡ self.old) }
    {
        match &mut self.standing {
            Standing::OpenWith(queue) => queue.push(parcel),
            Standing::ShutWith(queue) => queue.push(parcel),
            Standing::Open => {
                self.standing = Standing::OpenWith(Queue::of(alloc, parcel)?);
                Ok(())
            }
            Standing::Shut => {
                self.standing = Standing::ShutWith(Queue::of(alloc, parcel)?);
                Ok(())
            }
        }
    }

    // Takes the first parcel that waits.
    #[inline(always)]
    fn pop(&mut self)
        ensures { self.new ≡ without_first self.old }
    {
        match &mut self.standing {
            Standing::OpenWith(queue) => {
                queue.pop();
                if queue.is_idle() {
                    self.give_back();
                }
            }
            _ => self.pop_last(),
        }
    }

    // The same, also where the client is shut, whose queue is given back with its last parcel.
    #[cold]
    #[inline(never)]
    fn pop_last(&mut self)
        ensures { self.new ≡ without_first self.old }
    {
        match &mut self.standing {
            Standing::OpenWith(queue) => queue.pop(),
            Standing::ShutWith(queue) => queue.pop(),
            Standing::Open | Standing::Shut => {}
        }
        self.give_back();
    }

    // Gives the memory of an empty queue back if no parcel can come any more, or if it has room for many.
    #[cold]
    #[inline(never)]
    fn give_back(&mut self)
        ensures { self.new ≡ self.old }
    {
        match &self.standing {
            Standing::OpenWith(queue) => {
                if queue.is_idle() {
                    self.standing = Standing::Open;
                }
            }
            Standing::ShutWith(queue) => {
                if queue.is_empty() {
                    self.standing = Standing::Shut;
                }
            }
            Standing::Open | Standing::Shut => {}
        }
    }
}

/// Whether the client was shut, if it joined. Costs O(log clients): clients are numbered as they join.
#[inline(always)]
pub fn standing_of(clients: &[JoinedClient], client: ClientId) -> Option<bool>
    requires { Rise (map (λ (c : Row). c.id) clients.now) }
    ensures { result ≡ option_map (λ (c : Row). c.shut)
        (find (λ (c : Row). c.id == client) clients.now) }
{
    Some(clients[place_of(clients, client)?].is_shut())
}

/// How many parcels wait for the client. Costs O(log clients).
#[inline(always)]
pub fn count_waiting(clients: &[JoinedClient], client: ClientId) -> usize
    requires { Rise (map (λ (c : Row). c.id) clients.now) }
    ensures { result ≡ length (option_map_or (λ (c : Row). c.waiting)
        (find (λ (c : Row). c.id == client) clients.now) []) }
{
    match place_of(clients, client) {
        Some(at) => clients[at].count_waiting(),
        None => 0,
    }
}

/// The parcel that the client collects next. Costs O(log clients).
#[inline(always)]
pub fn first_waiting(clients: &[JoinedClient], client: ClientId) -> Option<Parcel>
    requires { Rise (map (λ (c : Row). c.id) clients.now) }
    ensures { result ≡ slice_get (option_map_or (λ (c : Row). c.waiting)
        (find (λ (c : Row). c.id == client) clients.now) []) 0 }
{
    clients[place_of(clients, client)?].first_waiting()
}

/// Changes the clients as the event does: a client joins or is shut, or a parcel is given or
/// collected.
///
/// `NoMemory` if room for one more client or parcel is refused; then they are as they were. Costs
/// O(log clients).
#[inline(always)]
pub fn note_client(
    clients: &mut Vec<JoinedClient>,
    client: ClientId,
    call: &Call,
    reply: &Reply,
) -> Result<(), NoMemory>
    requires { Rise (map (λ (c : Row). c.id) clients.old.items) }
    ensures ok { OnOk result (clients.new.items
        ≡ clients_by (Called client reply.now call.now) clients.old.items) }
    ensures err { OnErr result (clients.new.items ≡ clients.old.items) }
    ensures why { OnErr result (takes_room call.now reply.now ≡ true) }
{
    match *call {
        Call::Join => {
            if let Reply::Joined(made) = *reply {
                return admit(clients, made);
            }
        }
        Call::Shut => {
            if let Reply::Shut(_) = *reply {
                shut(clients, client);
            }
        }
        Call::Give(key, to) => {
            if let Reply::Done = *reply {
                return send(clients, to, Parcel::End(key));
            }
        }
        Call::GiveHandle(buffer, strength, to) => {
            if let Reply::Done = *reply {
                return send(clients, to, Parcel::Handle(buffer, strength));
            }
        }
        Call::Collect => {
            if let Reply::Collected { .. } | Reply::CollectedHandle { .. } = *reply {
                collect(clients, client);
            }
        }
        _ => {}
    }
    Ok(())
}

// Where the client stands: at once where nothing but joins came before its own, else by a search.
#[inline(always)]
fn place_of(clients: &[JoinedClient], client: ClientId) -> Option<usize>
    requires { Rise (map (λ (c : Row). c.id) clients.now) }
    ensures { result ≡ position (λ (c : Row). c.id == client) clients.now }
{
    let guess = client.wrapping_sub(1) as usize;
    if let Some(row) = clients.get(guess) {
        if row.id == client {
            return Some(guess);
        }
    }
    searched_place(clients, client)
}

// The same, by a binary search.
#[inline(never)]
fn searched_place(clients: &[JoinedClient], client: ClientId) -> Option<usize>
    requires { Rise (map (λ (c : Row). c.id) clients.now) }
    ensures { result ≡ position (λ (c : Row). c.id == client) clients.now }
{
    clients.binary_search_by_key(&client, |c| c.id).ok()
}

// Puts a client that joined just now behind all others.
fn admit(clients: &mut Vec<JoinedClient>, made: ClientId) -> Result<(), NoMemory>
    ensures ok { OnOk result (clients.new.items ≡ clients.old.items ++ new_client made ∷ []) }
    ensures err { OnErr result (clients.new.items ≡ clients.old.items) }
{
    match clients.push(JoinedClient {
        id: made,
        standing: Standing::Open,
    }) {
        Ok(()) => Ok(()),
        Err(_) => Err(NoMemory),
    }
}

// Shuts the client.
fn shut(clients: &mut Vec<JoinedClient>, client: ClientId)
    requires { Rise (map (λ (c : Row). c.id) clients.old.items) }
    ensures { clients.new.items ≡ with_client client now_shut clients.old.items }
{
    if let Some(at) = place_of(clients, client) {
        clients[at].shut();
    }
}

// Puts the parcel behind those that wait for the client.
#[inline(always)]
fn send(clients: &mut Vec<JoinedClient>, to: ClientId, parcel: Parcel) -> Result<(), NoMemory>
    requires { Rise (map (λ (c : Row). c.id) clients.old.items) }
    ensures ok { OnOk result (clients.new.items
        ≡ with_client to (with_parcel parcel) clients.old.items) }
    ensures err { OnErr result (clients.new.items ≡ clients.old.items) }
{
    let Some(at) = place_of(clients, to) else {
        return Ok(());
    };
    let alloc = *clients.allocator();
    clients[at].push(alloc, parcel)
}

// Takes the first parcel that waits for the client.
#[inline(always)]
fn collect(clients: &mut Vec<JoinedClient>, client: ClientId)
    requires { Rise (map (λ (c : Row). c.id) clients.old.items) }
    ensures { clients.new.items ≡ with_client client without_first clients.old.items }
{
    if let Some(at) = place_of(clients, client) {
        clients[at].pop();
    }
}

/// The numbers of the clients, in their order.
pub fn ids_of(alloc: Global, clients: &[JoinedClient]) -> Result<Vec<ClientId>, AllocError>
    ensures { IfOk result (λ ids. ids.items ≡ map (λ (c : Row). c.id) clients.now) }
{
    let mut ids = Vec::with_capacity(alloc, clients.len())?;
    for client in clients {
        ids.push(client.id)?;
    }
    Ok(ids)
}
