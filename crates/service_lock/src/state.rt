//! The state under the lock.
ghost use Rattle.std.specs.Prelude.{◌≡◌, ◌+◌, ◌<◌, ◌≤◌, ◌^◌, [], IfOk, IfSome, OnErr, OnOk, is_some, length, nat_le};
ghost use Rattle.sm_names.specs.Legality.{IsLegal};
ghost use Rattle.sm_names.specs.Timelines.{timeline};
ghost use Rattle.sm_names.specs.Trackers.{fired as fired_after};
ghost use Rattle.trackers.specs.Table.{firing_of, is_untaken, without_id};
ghost use Rattle.core_state.specs.Shown.{Shows};
ghost use Rattle.sm_names.specs.declared.keys.Strength.{Strength};
ghost use Rattle.event_laws.specs.HandleSums.{all_open};
ghost use Rattle.service_lock.specs.Comings.{SomeCoreCame};
ghost use Rattle.service_lock.specs.States.{IsSetUpWith, with_parts};
ghost use Rattle.service_lock.specs.Units.{AreFor};

use crate::blank_books::{BlankBooks, MAX_SHARES};
use crate::setup::Setup;
use crate::shares::Units;
use crate::summed_book::SummedBook;
use crate::sums::Books;
use lifetime_core::Core;
use sm_names::{Call, ClientId, Limits, MAX_PAGES, NoMemory, Reply, TrackerId};
use std::alloc::Global;
use std::marker::Model;
use std::sync::ledger::Ledger;
use trackers::Tracker;

/// The state under the lock: the core, the record of all events, and the three books.
///
/// A contract sees the record, which is a legal history at all times, and the trackers whose readers were
/// not taken yet. The core shows the record, and the books count its events and open handles.
pub struct State<E: Setup, S: Ledger, W: Ledger> {
    pub(crate) core: Core,
    pub(crate) limits: Limits,
    pub(crate) log: Vec<(ClientId, Call, Reply)>,
    pub(crate) events: SummedBook<E>,
    pub(crate) strong: SummedBook<S>,
    pub(crate) weak: SummedBook<W>,
}

impl<E: Setup, S: Ledger, W: Ledger> Model for State<E, S, W> {
    ghost use Rattle.service_lock.specs.States.{View, StateInvariant};

    ghost Value = { View };

    ghost view = { λ s. record {
      pool = s.core.pool;
      limits = s.limits;
      history = s.log.items;
      untaken = s.core.trackers.untaken;
      parts = s.events.left;
    } };

    ghost invariant = { λ s. StateInvariant E.pages E.limits s.core s.limits s.log.items
        s.events s.strong s.weak };
}

impl<E: Setup, S: Ledger, W: Ledger> State<E, S, W> {
    /// The first state: an empty record, and a core with this seed.
    pub(crate) fn new(
        alloc: Global,
        blanks: BlankBooks,
        pages: u32,
        limits: Limits,
        seed: [u8; 16],
    ) -> Result<State<E, S, W>, NoMemory>
        requires pages { (1 ≤ pages) × (pages ≤ MAX_PAGES) }
        requires blanks { AreFor E.name E.parts S.name S.parts W.name W.parts blanks }
        requires asked { IsSetUpWith E.pages E.limits pages limits }
        ensures { IfOk result (λ s. s
            ≡ record {
              pool = pages;
              limits = limits;
              history = [];
              untaken = [];
              parts = 1099511627775;
            }) }
    {
        let BlankBooks {
            events,
            strong,
            weak,
        } = blanks;
        Ok(State {
            core: Core::with_seed(alloc, pages, limits, seed)?,
            limits,
            log: Vec::new(alloc),
            events: SummedBook::new(events, MAX_SHARES),
            strong: SummedBook::new(strong, MAX_SHARES),
            weak: SummedBook::new(weak, MAX_SHARES),
        })
    }

    /// Drops all of it.
    pub(crate) fn end(self) {
        let State {
            core,
            limits: _,
            log: _,
            events,
            strong,
            weak,
        } = self;
        drop(events);
        drop(strong);
        drop(weak);
        drop(core);
    }
}

/// The number of `Units` that can still be handed out. Takes no memory. Costs O(1).
pub fn parts<E: Setup, S: Ledger, W: Ledger>(state: &State<E, S, W>) -> u64
    ensures { result ≡ state.now.parts }
{
    state.events.left()
}

/// Hands out an empty share of each book. `NoMemory` if the books have no part left, also if the record
/// is full: a caller for whom a full record comes first asks `is_full` before.
///
/// Takes no memory. Costs O(1).
pub fn units<E: Setup, S: Ledger, W: Ledger>(
    state: &mut State<E, S, W>,
) -> Result<Units<E, S, W>, NoMemory>
    ensures empty { IfOk result (λ u. u ≡ record { events = 0; strong = 0; weak = 0 }) }
    ensures part { OnOk result (state.old ≡ with_parts 1 state.new) }
    ensures none { OnErr result ((state.old.parts ≡ 0) × (state.new ≡ state.old)) }
    ensures few { state.old.parts < 2 ^ 40 }
{
    if state.events.left() == 0 {
        return Err(NoMemory);
    }
    Ok(Units {
        events: state.events.share(),
        strong: state.strong.share(),
        weak: state.weak.share(),
    })
}

/// Takes empty shares back. Their parts can be handed out again, up to the number that the books have.
/// Takes no memory. Costs O(1).
pub fn take_back<E: Setup, S: Ledger, W: Ledger>(state: &mut State<E, S, W>, units: Units<E, S, W>)
    requires { units ≡ record { events = 0; strong = 0; weak = 0 } }
    ensures part { state.old.parts + 1 < 2 ^ 40 → state.new ≡ with_parts 1 state.old }
    ensures all { 2 ^ 40 ≤ state.old.parts + 1 → state.new ≡ state.old }
{
    let Units {
        events,
        strong,
        weak,
    } = units;
    state.events.take_back(events);
    state.strong.take_back(strong);
    state.weak.take_back(weak);
}

/// The record: each event's client, call and reply, in order. It is a legal history at all times, with
/// the pool and the limits that the service was asked for, and its events led a core from no event to another core.
/// Takes no memory. Costs O(1).
pub fn entries<E: Setup, S: Ledger, W: Ledger>(state: &State<E, S, W>) -> &[(ClientId, Call, Reply)]
    ensures value { result.now ≡ state.now.history }
    ensures legal { IsLegal state.now.pool state.now.limits state.now.history }
    ensures came { SomeCoreCame state.now.pool state.now.limits state.now.history }
    ensures asked { IsSetUpWith E.pages E.limits state.now.pool state.now.limits }
{
    state.log.as_slice()
}

/// The core, which shows the record. Takes no memory. Costs O(1).
pub fn core<E: Setup, S: Ledger, W: Ledger>(state: &State<E, S, W>) -> &Core
    ensures shows { Shows result.now state.now.history }
    ensures pool { result.now.pool ≡ state.now.pool }
    ensures limits { result.now.limits ≡ state.now.limits }
{
    &state.core
}

/// The sums of the books: the events of the record, and the handles of each strength that are then open
/// on all buffers, those in parcels included. Takes no memory. Costs O(1).
pub fn books<E: Setup, S: Ledger, W: Ledger>(state: &State<E, S, W>) -> Books
    ensures events { result.events ≡ length state.now.history }
    ensures strong { result.strong
        ≡ all_open (timeline state.now.pool state.now.history) Strength.Strong }
    ensures weak { result.weak
        ≡ all_open (timeline state.now.pool state.now.history) Strength.Weak }
{
    Books {
        events: state.events.total(),
        strong: state.strong.total(),
        weak: state.weak.total(),
    }
}

/// Whether the record is full: it has as many entries as the limit allows. Takes no memory. Costs
/// O(1).
pub fn is_full<E: Setup, S: Ledger, W: Ledger>(state: &State<E, S, W>) -> bool
    ensures { result ≡ nat_le state.now.limits.events (length state.now.history) }
{
    state.limits.events() <= state.core.events()
}

/// Takes the reader of the tracker with this id: `Some` if it is still to be taken, otherwise `None`.
/// The reader knows the firing if there was one, and sees a later one without the lock. Takes no memory.
/// Costs O(log t), where t is the number of trackers that the core keeps.
#[tactic(auto, using(crate::proofs::ComingLaws::came_taken))]
pub fn take_tracker<E: Setup, S: Ledger, W: Ledger>(
    state: &mut State<E, S, W>,
    id: TrackerId,
) -> Option<Tracker>
    ensures some { is_some result ≡ is_untaken state.old.untaken id }
    ensures tracker { IfSome result (λ t. (t.tracker ≡ id) × (t.known
        ≡ firing_of (fired_after (timeline state.old.pool state.old.history)) id)) }
    ensures taken { state.new
        ≡ record state.old { untaken = without_id state.old.untaken id } }
{
    state.core.take_tracker(id)
}
