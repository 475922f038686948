//! Each client's part of the record.
ghost use Rattle.std.specs.Prelude.{◌≡◌, ◌∷◌, ◌<◌, ◌*◌, ◌^◌, IfOk, MatchOption, false, length, replicate};
ghost use Rattle.event_laws.specs.Lines.{client_line, lines_of};
ghost use Rattle.event_laws.specs.Links.{Links, Stands, rest_at};
ghost use Rattle.event_laws.specs.Members.{AreAmong, IsFirstAbsent, Marks, makes_client, joined};
ghost use Rattle.event_laws.specs.Parts.{DifferAt, own_entry, part};

use crate::line::{Balance, ClientLine, NOTHING};
use crate::own::Own;
use sm_names::{Call, ClientId, NoMemory, Reply, Strength};
use std::alloc::Global;
use std::marker::Model;

/// The record of all events, with each client's events chained. A contract sees the record.
///
/// A client's part is what it made after its Join, whose number is the client's id.
#[derive(Drop)]
pub struct Parts<'a> {
    record: &'a [(ClientId, Call, Reply)],
    first: Vec<u64>,
    next: Vec<u64>,
}

impl<'a> Model for Parts<'a> {
    ghost use Rattle.std.specs.Prelude.{List};
    ghost use Rattle.sm_names.specs.Marks.{Entry};
    ghost use Rattle.event_laws.specs.Links.{Links};

    ghost Value = { List Entry };

    ghost view = { λ p. p.«record».now };

    ghost invariant = { λ p. Links 0 p.first.items p.next.items p.«record».now };
}

// An entry of the record, as its client has it.
fn noted(event: u64, entry: &(ClientId, Call, Reply)) -> Own
    ensures { result ≡ own_entry event entry.now }
{
    let (_, call, reply) = *entry;
    Own { event, call, reply }
}

// Chains the events of each client, from the last one on.
fn chain(record: &[(ClientId, Call, Reply)], first: &mut [u64], next: &mut [u64])
    requires first { first.old ≡ replicate (length «record».now) 0 }
    requires next { length next.old ≡ length «record».now }
    ensures { Links 0 first.new next.new «record».now }
{
    let mut passed = record.len();
    while passed > 0 {
        passed -= 1;
        let client = record[passed].0;
        if client <= passed as u64 {
            next[passed] = first[client as usize];
            first[client as usize] = passed as u64 + 1;
        }
    }
}

// Whether the event made a client.
fn makes_client(entry: &(ClientId, Call, Reply)) -> bool
    ensures { result ≡ makes_client entry.now }
{
    match entry.1 {
        Call::Join => match entry.2 {
            Reply::Joined(_) => true,
            _ => false,
        },
        _ => false,
    }
}

// Marks each of these clients at the place before its number.
fn mark(ids: &[ClientId], present: &mut [bool])
    requires { present.old ≡ replicate (length present.old) false }
    ensures { Marks present.new ids.now }
{
    let mut rest = ids;
    while let Some((id, others)) = rest.split_first() {
        if *id > 0 && *id <= present.len() as u64 {
            present[(*id - 1) as usize] = true;
        }
        rest = others;
    }
}

impl<'a> Parts<'a> {
    /// Chains each client's events of the record, in one pass over it, with two numbers of memory for
    /// each event. `NoMemory` where that is refused.
    pub fn new(alloc: Global, record: &'a [(ClientId, Call, Reply)]) -> Result<Parts<'a>, NoMemory>
        ensures { IfOk result (λ p. p ≡ «record».now) }
    {
        let Ok(mut first) = vec![in alloc; 0; record.len()] else {
            return Err(NoMemory);
        };
        let Ok(mut next) = vec![in alloc; 0; record.len()] else {
            return Err(NoMemory);
        };
        chain(record, first.as_mut_slice(), next.as_mut_slice());
        Ok(Parts {
            record,
            first,
            next,
        })
    }

    // The first event of the client's part, or 0.
    fn first_of(&self, client: ClientId) -> u64
        ensures stands { Stands self.now client result }
        ensures rest { rest_at self.now client result ≡ part client self.now }
        ensures few { length self.now * 80 < 2 ^ 63 }
    {
        if client < self.record.len() as u64 {
            self.first[client as usize]
        } else {
            0
        }
    }

    // What the client was answered at this event, and the next event of its part, or 0.
    fn step(&self, client: ClientId, event: u64) -> (Own, u64)
        requires some { 0 < event }
        requires stands { Stands self.now client event }
        ensures event { result.0.event ≡ event }
        ensures stands { Stands self.now client result.1 }
        ensures rest { rest_at self.now client event ≡ result.0 ∷ rest_at self.now client result.1 }
    {
        let record = self.record;
        let at = (event - 1) as usize;
        (noted(event, &record[at]), self.next[at])
    }

    /// Where a client's own list is not its part: the event of the part at the first place where they
    /// differ, or of the list, if the part has no further one. `None` where the list is the part. Costs
    /// a step for each event of the list.
    pub fn differ(&self, client: ClientId, own: &[Own]) -> Option<u64>
        ensures { MatchOption result (own.now ≡ part client self.now)
            (λ event. DifferAt event own.now (part client self.now)) }
    {
        let mut event = self.first_of(client);
        let mut left = own;
        while event != 0 {
            let (told, next) = self.step(client, event);
            let Some((mine, more)) = left.split_first() else {
                return Some(event);
            };
            if !mine.is(&told) {
                return Some(event);
            }
            left = more;
            event = next;
        }
        match left.first() {
            Some(mine) => Some(mine.event),
            None => None,
        }
    }

    /// How many events the client made after its Join, and how many handles of each strength it has
    /// open by them. Costs a step for each of these events.
    pub fn line(&self, client: ClientId) -> ClientLine
        ensures { result ≡ client_line self.now client }
    {
        let mut events = 0;
        let mut strong = NOTHING;
        let mut weak = NOTHING;
        let mut event = self.first_of(client);
        while event != 0 {
            let (own, next) = self.step(client, event);
            events += 1;
            strong.count(Strength::Strong, &own);
            weak.count(Strength::Weak, &own);
            event = next;
        }
        ClientLine {
            client,
            events,
            strong: strong.gained.saturating_sub(strong.lost),
            weak: weak.gained.saturating_sub(weak.lost),
        }
    }

    /// A line for each client that joined, in order. `NoMemory` where memory is refused. Costs two
    /// steps for each event of the record.
    pub fn lines(&self, alloc: Global) -> Result<Vec<ClientLine>, NoMemory>
        ensures { IfOk result (λ lines. lines.items ≡ lines_of self.now) }
    {
        let mut lines = Vec::new(alloc);
        let mut rest = self.record;
        let mut event: u64 = 1;
        while let Some((entry, later)) = rest.split_first() {
            if makes_client(entry) && lines.push(self.line(event)).is_err() {
                return Err(NoMemory);
            }
            rest = later;
            event += 1;
        }
        Ok(lines)
    }

    /// The first client that joined and is not among these, `None` where all are. `NoMemory` where
    /// memory is refused. Costs a step for each of these and for each event of the record.
    pub fn first_absent(
        &self,
        alloc: Global,
        ids: &[ClientId],
    ) -> Result<Option<ClientId>, NoMemory>
        ensures { IfOk result (λ found. MatchOption found (AreAmong ids.now (joined self.now))
            (λ client. IsFirstAbsent ids.now self.now client)) }
    {
        let record = self.record;
        let Ok(mut present) = vec![in alloc; false; record.len()] else {
            return Err(NoMemory);
        };
        mark(ids, present.as_mut_slice());
        let mut rest = record;
        let mut at: usize = 0;
        while let Some((entry, later)) = rest.split_first() {
            if makes_client(entry) && !present[at] {
                return Ok(Some(at as u64 + 1));
            }
            rest = later;
            at += 1;
        }
        Ok(None)
    }
}
