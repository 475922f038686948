//! What a client counts.
ghost use Rattle.std.specs.Prelude.{◌≡◌, ◌+◌, ◌^◌, ◌≤◌, ◌<◌, ◌↔◌, [], Some, false, true, IfOk, OnErr, OnOk, Err, length, option_map};
ghost use Rattle.sm_names.specs.declared.outcomes.StepFault.{StepFault as Fault};
ghost use Rattle.sm_names.specs.declared.messages.Call.{Call as Asked};
ghost use Rattle.core_state.specs.Kinds.{fits_call};
ghost use Rattle.service_lock.specs.States.{view_after};
ghost use Rattle.service_lock.specs.Units.{CountsEvent, HasOne, HasUnitFor, Passed};
ghost use Rattle.service_lock.specs.Accounts.{AppendsEvent, AppendsOwn, SameHandles, gained, handle_gain, is_done, lets_go, made_done, may_gain, no_amounts, handle_unit, with_parts_left, with_gain};
ghost use Rattle.service_lock.specs.Takes.{told_taken, units_by};

use crate::empty_units::{empty, memory_fault};
use crate::event::apply;
use crate::setup::Setup;
use crate::shares::{Units, pass};
use crate::state::{State, books, take_back};
use event_laws::Own;
use sm_names::{Call, ClientId, NodeKey, Reply, StepFault, Strength};
use std::alloc::Global;
use std::marker::Model;
use std::sync::ledger::Ledger;

// Whether the event was made and answered Done.
fn was_done(made: &Result<Reply, StepFault>) -> bool
    ensures { result ≡ made_done made.now }
{
    match *made {
        Ok(Reply::Done) => true,
        _ => false,
    }
}

// The strength of the handle that the event brought.
fn gained(call: &Call, reply: &Reply) -> Option<Strength>
    ensures { result ≡ gained call.now reply.now }
{
    match *call {
        Call::DupHandle(_, strength) => match *reply {
            Reply::Done => Some(strength),
            _ => None,
        },
        Call::Collect => match *reply {
            Reply::CollectedHandle {
                buffer: _,
                strength,
            } => Some(strength),
            _ => None,
        },
        _ => None,
    }
}

/// A client's shares of the books, and its own list of the events that it made after its Join. It must be
/// spent.
///
/// A contract sees the amounts of the shares, and the list. The share of the book of events is the length of
/// the list and one more, for the Join. Each call that makes an event costs the core's step, and a place at the
/// end of the record and of the list, which grow by doubling. A call that ends in a `StepFault` is no event,
/// and leaves the account and the state as they were: `HistoryFull` exactly where the record has as many
/// entries as may be, and `NoMemory` where memory is refused.
pub struct Account<E: Setup, S: Ledger, W: Ledger> {
    units: Units<E, S, W>,
    own: Vec<Own>,
}

impl<E: Setup, S: Ledger, W: Ledger> Model for Account<E, S, W> {
    ghost use Rattle.std.specs.Prelude.{◌≡◌, ◌+◌, vec_len};
    ghost use Rattle.service_lock.specs.Accounts.{ClientAmounts};

    ghost Value = { ClientAmounts };

    ghost view = { λ a. record { units = a.units; own = a.own.items } };

    ghost invariant = { λ a. a.units.events ≡ vec_len a.own + 1 };
}

impl<E: Setup, S: Ledger, W: Ledger> Account<E, S, W> {
    /// The account of a client that has made its Join alone, which these units count. Takes no memory.
    pub fn new(alloc: Global, units: Units<E, S, W>) -> Account<E, S, W>
        requires { units.events ≡ 1 }
        ensures { result ≡ record { units = units; own = [] } }
    {
        Account {
            units,
            own: Vec::new(alloc),
        }
    }

    /// The list, in the order of the events. Costs O(1).
    pub fn own(&self) -> &[Own]
        ensures value { result.now ≡ self.now.own }
        ensures share { self.now.units.events ≡ length self.now.own + 1 }
    {
        self.own.as_slice()
    }

    /// Makes one event, and counts it. For a call that drops or gives a handle the account has that handle's
    /// unit.
    pub fn apply_and_count(
        &mut self,
        state: &mut State<E, S, W>,
        client: ClientId,
        call: Call,
    ) -> Result<Reply, StepFault>
        requires { HasUnitFor call self.old.units }
        ensures counts { IfOk result (λ r. CountsEvent self.old.units self.new.units call r) }
        ensures told { IfOk result (λ r. AppendsOwn self.old.own self.new.own call r) }
        ensures event { IfOk result (λ r.
            AppendsEvent self.old.own self.new.own (length state.new.history) call r) }
        ensures kind { IfOk result (λ r. fits_call call r ≡ true) }
        ensures state { IfOk result (λ r. state.new ≡ view_after state.old client call r) }
        ensures fault { OnErr result ((self.new ≡ self.old) × (state.new ≡ state.old)) }
        ensures full { (result ≡ Err Fault.HistoryFull)
            ↔ (state.old.limits.events ≤ length state.old.history) }
    {
        if self.own.reserve(1).is_err() {
            return Err(memory_fault(state));
        }
        let asked = call;
        let reply = apply(state, &mut self.units, client, call)?;
        let event = books(state).events;
        self.own.push_reserved(Own {
            event,
            call: asked,
            reply,
        });
        Ok(reply)
    }

    /// Moves the unit of one handle of this strength from these units to the account. Takes no memory, and
    /// does nothing when it runs.
    #[tactic(auto, using(crate::proofs::UnitLaws::more_events))]
    pub fn pass_in(
        &mut self,
        state: &mut State<E, S, W>,
        unit: &mut Units<E, S, W>,
        strength: Strength,
    )
        requires { HasOne strength unit.old }
        ensures passed { Passed strength unit.old unit.new self.old.units self.new.units }
        ensures own { self.new.own ≡ self.old.own }
        ensures state { state.new ≡ state.old }
    {
        pass(state, unit, &mut self.units, strength);
    }

    /// Moves the unit of one handle of this strength from the account to these units. Takes no memory, and
    /// does nothing when it runs.
    #[tactic(auto, using(crate::proofs::UnitLaws::same_events))]
    pub fn pass_out(
        &mut self,
        state: &mut State<E, S, W>,
        unit: &mut Units<E, S, W>,
        strength: Strength,
    )
        requires { HasOne strength self.old.units }
        ensures passed { Passed strength self.old.units self.new.units unit.old unit.new }
        ensures own { self.new.own ≡ self.old.own }
        ensures state { state.new ≡ state.old }
    {
        pass(state, &mut self.units, unit, strength);
    }

    /// Makes an event that drops or gives a handle, whose unit is lent. It stays with its lender
    /// unless the answer is Done.
    #[tactic(auto, using(crate::proofs::UnitLaws::has_unit, crate::proofs::UnitLaws::after_letting_go, crate::proofs::UnitLaws::none_left_of))]
    pub fn make_with(
        &mut self,
        state: &mut State<E, S, W>,
        client: ClientId,
        call: Call,
        strength: Strength,
        unit: &mut Units<E, S, W>,
    ) -> Result<Reply, StepFault>
        requires none { SameHandles self.old.units no_amounts }
        requires unit { unit.old ≡ handle_unit strength }
        requires call { lets_go call ≡ Some strength }
        ensures none { SameHandles self.new.units no_amounts }
        ensures share { IfOk result (λ r.
            self.new.units.events ≡ self.old.units.events + 1) }
        ensures told { IfOk result (λ r. AppendsOwn self.old.own self.new.own call r) }
        ensures event { IfOk result (λ r.
            AppendsEvent self.old.own self.new.own (length state.new.history) call r) }
        ensures state { IfOk result (λ r. state.new ≡ view_after state.old client call r) }
        ensures kind { IfOk result (λ r. fits_call call r ≡ true) }
        ensures kept { IfOk result (λ r. is_done r ≡ false → unit.new ≡ unit.old) }
        ensures gone { IfOk result (λ r. is_done r ≡ true → unit.new ≡ no_amounts) }
        ensures fault { OnErr result ((self.new ≡ self.old) × (unit.new ≡ unit.old)
            × (state.new ≡ state.old)) }
        ensures full { (result ≡ Err Fault.HistoryFull)
            ↔ (state.old.limits.events ≤ length state.old.history) }
    {
        self.pass_in(state, unit, strength);
        let made = self.apply_and_count(state, client, call);
        if !was_done(&made) {
            self.pass_out(state, unit, strength);
        }
        made
    }

    /// Makes an event that may bring a handle, and answers its unit too, if it did. It takes one part of each
    /// book for the unit, which the book takes back if the event brought none.
    #[tactic(auto, using(crate::proofs::UnitLaws::needs_none))]
    pub fn make_gaining(
        &mut self,
        state: &mut State<E, S, W>,
        client: ClientId,
        call: Call,
    ) -> Result<(Reply, Option<Units<E, S, W>>), StepFault>
        requires none { SameHandles self.old.units no_amounts }
        requires call { may_gain call ≡ true }
        ensures none { SameHandles self.new.units no_amounts }
        ensures share { IfOk result (λ p.
            self.new.units.events ≡ self.old.units.events + 1) }
        ensures told { IfOk result (λ p. AppendsOwn self.old.own self.new.own call p.0) }
        ensures event { IfOk result (λ p.
            AppendsEvent self.old.own self.new.own (length state.new.history) call p.0) }
        ensures kind { IfOk result (λ p. fits_call call p.0 ≡ true) }
        ensures unit { IfOk result (λ p. p.1 ≡ option_map handle_unit (gained call p.0)) }
        ensures state { IfOk result (λ p. state.new
            ≡ with_parts_left state.new.parts (view_after state.old client call p.0)) }
        ensures parts { IfOk result (λ p.
            state.new.parts + handle_gain (gained call p.0) ≡ state.old.parts) }
        ensures fault { OnErr result ((self.new ≡ self.old) × (state.new ≡ state.old)) }
        ensures full { (result ≡ Err Fault.HistoryFull)
            ↔ (state.old.limits.events ≤ length state.old.history) }
    {
        let unit = empty(state)?;
        let asked = call;
        match self.apply_and_count(state, client, call) {
            Ok(reply) => Ok((reply, self.give_gain(state, unit, gained(&asked, &reply)))),
            Err(fault) => {
                take_back(state, unit);
                Err(fault)
            }
        }
    }

    // Moves the unit of the handle that an event brought, if it brought one, to these units, which are
    // empty. Otherwise the service takes them back.
    #[tactic(auto, using(crate::proofs::UnitLaws::gives_gain, crate::proofs::UnitLaws::same_events))]
    fn give_gain(
        &mut self,
        state: &mut State<E, S, W>,
        spare: Units<E, S, W>,
        gain: Option<Strength>,
    ) -> Option<Units<E, S, W>>
        requires has { SameHandles self.old.units (with_gain gain no_amounts) }
        requires empty { spare ≡ no_amounts }
        requires few { state.old.parts + 1 < 2 ^ 40 }
        ensures none { SameHandles self.new.units no_amounts }
        ensures events { self.new.units.events ≡ self.old.units.events }
        ensures own { self.new.own ≡ self.old.own }
        ensures unit { result ≡ option_map handle_unit gain }
        ensures state { state.new ≡ with_parts_left state.new.parts state.old }
        ensures parts { state.new.parts + handle_gain gain ≡ state.old.parts + 1 }
    {
        match gain {
            Some(strength) => {
                let mut spare = spare;
                self.pass_out(state, &mut spare, strength);
                Some(spare)
            }
            None => {
                take_back(state, spare);
                None
            }
        }
    }

    /// Makes a Take. The units of the handles that it opened are the account's, to be passed on.
    #[tactic(auto, using(crate::proofs::UnitLaws::after_taking))]
    pub fn make_take(
        &mut self,
        state: &mut State<E, S, W>,
        client: ClientId,
        key: NodeKey,
    ) -> Result<Reply, StepFault>
        requires none { SameHandles self.old.units no_amounts }
        ensures units { IfOk result (λ r. SameHandles self.new.units (units_by (told_taken r))) }
        ensures share { IfOk result (λ r.
            self.new.units.events ≡ self.old.units.events + 1) }
        ensures told { IfOk result (λ r. AppendsOwn self.old.own self.new.own (Asked.Take key) r) }
        ensures event { IfOk result (λ r.
            AppendsEvent self.old.own self.new.own (length state.new.history) (Asked.Take key) r) }
        ensures kind { IfOk result (λ r. fits_call (Asked.Take key) r ≡ true) }
        ensures state { IfOk result (λ r.
            state.new ≡ view_after state.old client (Asked.Take key) r) }
        ensures fault { OnErr result ((self.new ≡ self.old) × (state.new ≡ state.old)) }
        ensures full { (result ≡ Err Fault.HistoryFull)
            ↔ (state.old.limits.events ≤ length state.old.history) }
    {
        self.apply_and_count(state, client, Call::Take(key))
    }

    /// Drops the account and its list, once its client is done.
    pub fn spend(self) {
        let Account { units: _, own: _ } = self;
    }
}
