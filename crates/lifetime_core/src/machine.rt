//! Every call on one state.
ghost use Rattle.std.specs.Prelude.{◌≡◌, ◌+◌, ◌<◌, ◌≤◌, ◌↔◌, ◌∷◌, ◌++◌, ◌==◌};
ghost use Rattle.std.specs.Prelude.{[], List, length, replicate, option_map, if◌then◌else◌, IfOk, IfErr, IfSome, IfNone, IsOk};
ghost use Rattle.std.specs.Prelude.{OnErr, OnOk, false, true, None, Some, option_copied};
ghost use Rattle.sm_names.specs.declared.keys.NodeKey.{NodeKey as Key};
ghost use Rattle.sm_names.specs.declared.tracking.Fired.{Fired};
ghost use Rattle.sm_names.specs.declared.messages.Reply.{Reply};
ghost use Rattle.sm_names.specs.Answers.{IsAnswer};
ghost use Rattle.sm_names.specs.Answers.{answer as answer_of, effect as effect_of, end_named};
ghost use Rattle.sm_names.specs.Marks.{Entry};
ghost use Rattle.sm_names.specs.Timelines.{timeline};
ghost use Rattle.sm_names.specs.Trackers.{Tracked, tracked};
ghost use Rattle.std.specs.List.{cons_option, list_any};
ghost use Rattle.std.specs.Option.{option_and_then};
ghost use Rattle.std.specs.Result.{result_map_both};
ghost use Rattle.trackers.specs.Table.{is_untaken, reader_of, cell_of, without_id};
ghost use Rattle.forest_store.specs.Forest.{given, node_at};
ghost use Rattle.forest_store.specs.Nodes.{is_of, is_spent};
ghost use Rattle.forest_store.specs.Settling.{MayChange, collection_or_new, no_key};
ghost use Rattle.core_state.specs.Kinds.{fits_call, takes_no_memory};
ghost use Rattle.core_state.specs.Reads.{node_named, open_end_of, readings_of};
ghost use Rattle.sm_names.specs.Timelines.{key_of as key_named};
ghost use Rattle.core_state.specs.Shown.{Shows, ShowsBut, forgetting};
ghost use Rattle.core_state.specs.Steps.{Follows, Work, leaves_tracker_room, work_of};
ghost use Rattle.core_state.specs.State.{IsSame, empty_state};
ghost use Rattle.core_state.specs.Tasks.{IsDecision};
ghost use Rattle.core_state.specs.Theorem.{GoesOn, Leads, Stepped, Stops, entries, refused_call};
ghost use Rattle.core_state.specs.Theorem.{tracker_told, trackers_told};

mod readings;
mod views;

use crate::by_kind::dispatch;
use crate::event::{Contents, take_effect};
use crate::refusals::first_answer;
use crate::replies::{answer, effect};
use crate::sweeping::{place_to_sweep, sweep, tracking_of};
use crate::task::{put_end, task_of};
use alloc_event::{Change, Forest, Node};
use buffer_holds::Holds;
use buffer_pool::Pool;
use core_state::decision::{Decision, changes_nothing, with_key};
use core_state::reading::with_end;
use core_state::task::{carried_end, change_in, changed_by};
use core_state::traits::{key_of, traits_of};
use sm_names::{
    Call, ClientId, CollectionId, Limits, MAX_PAGES, NoMemory, NodeKey, Reply, StepFault, TrackerId,
};
use std::alloc::Global;
use std::marker::Model;
use trackers::{Tracker, Trackers};

/// A core: the clients, the collections with their nodes and buffers, the open handles, the trackers,
/// and the pool.
///
/// Contracts speak of the core's data (`specs/State` of `core_state`) and of the histories that these
/// data show (`specs/Shown`). Each of these histories determines every reply and every view.
#[derive(Drop)]
pub struct Core {
    limits: Limits,
    events: u64,
    contents: Contents,
}

impl Model for Core {
    ghost use Rattle.core_state.specs.State.{State};

    ghost Value = { State };

    ghost use Rattle.core_state.specs.Whole.{IsCore};

    ghost view = { λ c. record {
      pool = c.contents.pool.size;
      limits = c.limits;
      events = c.events;
      clients = c.contents.clients.items;
      forest = c.contents.forest;
      holds = c.contents.holds;
      trackers = c.contents.trackers;
    } };

    ghost invariant = { λ c. IsCore c.contents.pool (record {
      pool = c.contents.pool.size;
      limits = c.limits;
      events = c.events;
      clients = c.contents.clients.items;
      forest = c.contents.forest;
      holds = c.contents.holds;
      trackers = c.contents.trackers;
    }) };
}

// Stands for the key of a new node until it has one.
const NO_KEY: NodeKey = NodeKey {
    slot: 0,
    generation: 0,
};

impl Core {
    /// Makes a core without an event, with these limits and a pool of `pages` pages of 4,096 bytes, 1 to
    /// 1,048,576. The seed of its hash table of handles is zeros.
    ///
    /// `NoMemory` if the pool's memory is refused. Costs O(pages).
    pub fn new(alloc: Global, pages: u32, limits: Limits) -> Result<Core, NoMemory>
        requires { (1 ≤ pages) × (pages ≤ MAX_PAGES) }
        ensures state { IfOk result (λ core. core ≡ empty_state pages limits 0) }
        ensures shows { IfOk result (λ core. Shows core []) }
    {
        Core::with_seed(alloc, pages, limits, [0; 16])
    }

    /// Does what `new` does, with this seed for the hash table of handles. A caller who knows the seed
    /// can choose clients and buffers that collide, and a call that opens n handles then costs O(n²):
    /// take random bytes. The seed changes costs, but no answer.
    pub fn with_seed(
        alloc: Global,
        pages: u32,
        limits: Limits,
        seed: [u8; 16],
    ) -> Result<Core, NoMemory>
        requires { (1 ≤ pages) × (pages ≤ MAX_PAGES) }
        ensures state { IfOk result (λ core. core ≡ empty_state pages limits 0) }
        ensures shows { IfOk result (λ core. Shows core []) }
    {
        Core::starting_at(alloc, pages, limits, seed, 0)
    }

    /// Does what `with_seed` does, and numbers the next event `events` + 1, where `events` is at most the
    /// limit: it makes the core that a new one becomes by so many calls of a client that nobody joined.
    /// For tests of what comes after years.
    pub fn starting_at(
        alloc: Global,
        pages: u32,
        limits: Limits,
        seed: [u8; 16],
        events: u64,
    ) -> Result<Core, NoMemory>
        requires pages { (1 ≤ pages) × (pages ≤ MAX_PAGES) }
        requires events { events ≤ limits.events }
        ensures state { IfOk result (λ core. core ≡ empty_state pages limits events) }
        ensures came { IfOk result (λ core.
            Leads (empty_state pages limits 0) (replicate events refused_call) core) }
        ensures shows { IfOk result (λ core. Shows core (replicate events refused_call)) }
    {
        let pool = Pool::new(alloc, pages)?;
        Ok(Core {
            limits,
            events,
            contents: Contents {
                clients: Vec::new(alloc),
                forest: Forest::new(alloc, limits.nodes() as usize),
                pool,
                holds: Holds::with_seed(alloc, limits.handles(), seed),
                trackers: Trackers::new(alloc, limits.trackers()),
            },
        })
    }

    /// The number of events, refused calls included. Costs O(1).
    pub fn events(&self) -> u64
        ensures value { result ≡ self.now.events }
        ensures shown { (history : List Entry) → Shows self.now history →
            result ≡ length history }
        // Every core shows a legal history, but for the firings that it forgot.
        ensures legal { (gone : List Fired) × (history : List Entry)
            × ShowsBut gone self.now history }
    {
        self.events
    }

    /// How many more events the core takes: its limit, less those that were made. A call at 0 is answered
    /// `HistoryFull`. Costs O(1).
    pub fn remaining(&self) -> u64
        ensures { result + self.now.events ≡ self.now.limits.events }
    {
        self.limits.events() - self.events
    }

    // The number of the event that is made now.
    #[inline(always)]
    pub(crate) fn next_event(&self) -> u64
        ensures { result ≡ self.now.events + 1 }
    {
        self.events + 1
    }

    // The node with this key, if a key is named and its node is kept.
    #[inline(always)]
    pub(crate) fn named(&self, key: Option<NodeKey>) -> Option<&Node>
        ensures { option_copied result ≡ option_and_then (node_at self.now.forest) key }
    {
        match key {
            Some(key) => self.contents.forest.node(key),
            None => None,
        }
    }

    // Why a call is not made if memory is refused: `HistoryFull` comes first.
    #[inline(always)]
    fn out_of_memory_fault(&self) -> StepFault
        ensures { (result ≡ StepFault.HistoryFull)
            ↔ (self.now.limits.events ≤ self.now.events) }
    {
        if self.limits.events() <= self.events {
            StepFault::HistoryFull
        } else {
            StepFault::NoMemory
        }
    }

    // The answer that comes before the effect of the call, if there is one. `None` for a Close that is
    // answered Done, since it takes effect. `unspent` is the node that the call names, if its end is not spent.
    #[inline(always)]
    pub(crate) fn early_answer(
        &self,
        client: ClientId,
        call: &Call,
        unspent: Option<&Node>,
    ) -> Option<Reply>
        requires end { end_named (readings_of self.now) call.now
            ≡ option_map (open_end_of self.now) (option_copied unspent) }
        requires end_there { IfSome unspent (λ n. is_spent n.now.end ≡ false) }
        ensures answer { IfSome result (λ reply. reply
            ≡ answer_of self.now.limits (readings_of self.now) client no_key call.now) }
        ensures effect { IfNone result (effect_of (readings_of self.now) client no_key call.now
            ≡ answer_of self.now.limits (readings_of self.now) client no_key call.now) }
    {
        let traits = traits_of(call);
        let reply = first_answer(self, client, call, &traits, unspent)?;
        match (*call, reply) {
            (Call::Close(_), Reply::Done) => None,
            _ => Some(reply),
        }
    }

    // Decides a call that no answer before its effect answers. Tests nothing that `early_answer` tested,
    // and takes the node `unspent` that this was given. `named` is the key of the node that the call names,
    // `node` this node, if it is kept.
    #[inline(always)]
    pub(crate) fn decide_effect(
        &self,
        client: ClientId,
        call: &Call,
        named: Option<NodeKey>,
        node: Option<&Node>,
        unspent: Option<&Node>,
    ) -> Decision
        requires key { key_named call.now ≡ named }
        requires node { option_copied node ≡ node_named self.now call.now }
        requires end { end_named (readings_of self.now) call.now
            ≡ option_map (open_end_of self.now) (option_copied unspent) }
        requires effect { effect_of (readings_of self.now) client no_key call.now
            ≡ answer_of self.now.limits (readings_of self.now) client no_key call.now }
        ensures { IsDecision self.now client call.now result }
    {
        let reply = effect(self, client, NO_KEY, call, unspent);
        self.decide_answered(client, call, reply, named, node)
    }

    /// What `step` would answer to this call, but for `HistoryFull` and `NoMemory`. The key of a node that
    /// the call would make is not known before, and 0.0 stands in its place. This makes no event, and takes
    /// no memory. Costs the look-ups of the call.
    pub fn answer(&self, client: ClientId, call: &Call) -> Reply
        ensures { result ≡ answer_of self.now.limits (readings_of self.now) client no_key call.now }
    {
        let node = self.named(key_of(call));
        let traits = traits_of(call);
        answer(self, client, NO_KEY, call, &traits, with_end(node))
    }

    // Decides the call: its answer, except for the key of a new node, and its effect.
    #[inline(always)]
    fn decide(&self, client: ClientId, call: &Call) -> Decision
        ensures { IsDecision self.now client call.now result }
    {
        let named = key_of(call);
        let node = self.named(named);
        let traits = traits_of(call);
        let reply = answer(self, client, NO_KEY, call, &traits, with_end(node));
        self.decide_answered(client, call, reply, named, node)
    }

    // Decides what a call with this answer does. `named` is the key of the node that the call names,
    // `node` this node, if it is kept.
    #[inline(always)]
    fn decide_answered(
        &self,
        client: ClientId,
        call: &Call,
        reply: Reply,
        named: Option<NodeKey>,
        node: Option<&Node>,
    ) -> Decision
        requires key { key_named call.now ≡ named }
        requires node { option_copied node ≡ node_named self.now call.now }
        requires answered { reply
            ≡ answer_of self.now.limits (readings_of self.now) client no_key call.now }
        ensures { IsDecision self.now client call.now result }
    {
        let task = task_of(self, client, call, &reply, named, node);
        let tracking = tracking_of(self, call, &reply, node);
        Decision {
            reply,
            task,
            tracking,
        }
    }

    // Makes a call that is answered before its effect, as `step_into` says. Compiled once, so that no kind of
    // call has its code beside that of the effect. It decides anew: what a caller had decided would have to
    // lie in memory, also where the call takes effect.
    #[cold]
    #[inline(never)]
    pub(crate) fn commit_early(
        &mut self,
        client: ClientId,
        call: &Call,
        out: &mut Reply,
    ) -> Result<(), StepFault>
        ensures stepped { Stepped self.old self.new client call.now
            (result_map_both (λ _. out.new) (λ fault. fault) result) }
        ensures kept { OnErr result (out.new ≡ out.old) }
    {
        let decision = self.decide(client, call);
        self.commit(client, call, decision, out)
    }

    // Makes the call that was decided so, as `step_into` says.
    #[inline(always)]
    pub(crate) fn commit(
        &mut self,
        client: ClientId,
        call: &Call,
        decision: Decision,
        out: &mut Reply,
    ) -> Result<(), StepFault>
        requires { IsDecision self.old client call.now decision }
        ensures stepped { Stepped self.old self.new client call.now
            (result_map_both (λ _. out.new) (λ fault. fault) result) }
        ensures kept { OnErr result (out.new ≡ out.old) }
    {
        let Decision {
            reply,
            task,
            tracking,
        } = decision;
        if self.events >= self.limits.events() {
            return Err(StepFault::HistoryFull);
        }
        if changes_nothing(call, &reply) {
            self.events = self.next_event();
            *out = reply;
            return Ok(());
        }
        let Ok(key) = take_effect(&mut self.contents, client, call, &reply, &task, tracking) else {
            return Err(StepFault::NoMemory);
        };
        self.events += 1;
        let place = place_to_sweep(
            changed_by(&task),
            tracking,
            &self.contents.forest,
            &self.contents.holds,
        );
        sweep(
            &mut self.contents.trackers,
            self.events,
            place,
            &self.contents.forest,
            &self.contents.holds,
        );
        let carried = carried_end(client, call, &reply);
        put_end(&mut self.contents.forest, &task, carried);
        *out = with_key(reply, key);
        Ok(())
    }

    /// Makes one call: answers it, makes its change and all that the change forces, puts its end where
    /// the call puts it, fires the trackers that are due, and removes the nodes and the collection that
    /// are no longer kept. This is one event, also if the call is refused.
    ///
    /// `HistoryFull` exactly if as many events were made as the limit allows, whatever the call is;
    /// `NoMemory` if memory is refused. Both leave the core as it was, except for the order of the rows
    /// of handles, which `NoMemory` may change. A Shut and a Collect take no memory: a gift takes what
    /// its Collect needs.
    ///
    /// Costs O(log clients + log collections) and a few look-ups of handles. In the collection that the
    /// call names or makes, with n kept nodes, it costs:
    ///
    /// - nothing, if the call changes nothing there, or drops one of several open handles of the same
    ///   buffer and strength;
    /// - otherwise what `Forest::settle` costs, or for a DropHandle what `Forest::settle_drop` costs;
    /// - O(log n + s) for each node that is no longer kept, where s is the number of keys on its shorter
    ///   side; or O(n) once, if more than 64 such nodes are found in one event (one found twice counts
    ///   twice);
    /// - if something changed there, a test for each node and each buffer that trackers wait for, and a
    ///   second test for a node that also has lifetime trackers. A TrackLifetime or TrackWeak tests only
    ///   its own tracker, unless that is due;
    /// - for a Take at most five more look-ups for each buffer; fewer if the counts of the buffers stand
    ///   one after the other, as the first Take left them.
    #[inline(always)]
    pub fn step(&mut self, client: ClientId, call: Call) -> Result<Reply, StepFault>
        ensures answer { IfOk result (λ reply.
            IsAnswer self.old.limits (readings_of self.old) client call reply) }
        ensures kind { IfOk result (λ reply. fits_call call reply ≡ true) }
        ensures after { IfOk result (λ reply. Follows self.old self.new client call reply) }
        ensures goes_on { IfOk result (λ reply.
            GoesOn self.old self.new ((client, call, reply) ∷ [])) }
        ensures untaken { IfOk result (λ reply. self.new.trackers.untaken
            ≡ self.old.trackers.untaken ++ cons_option (tracker_told reply) []) }
        ensures kept { OnErr result (IsSame self.old self.new) }
        ensures equal { result ≡ Err StepFault.HistoryFull → self.new ≡ self.old }
        ensures stays { OnErr result ((history : List Entry) →
            Shows self.old history → Shows self.new history) }
        ensures full { (result ≡ Err StepFault.HistoryFull)
            ↔ (self.old.limits.events ≤ self.old.events) }
        ensures memory { IfErr result (λ fault.
            takes_no_memory call ≡ true → fault ≡ StepFault.HistoryFull) }
    {
        let mut reply = Reply::Done;
        self.step_into(client, &call, &mut reply)?;
        Ok(reply)
    }

    /// Makes one call as `step` does, and costs less: the reply is written once, into a place that the
    /// caller lends. At a fault this place keeps what it had.
    #[inline(always)]
    pub fn step_into(
        &mut self,
        client: ClientId,
        call: &Call,
        out: &mut Reply,
    ) -> Result<(), StepFault>
        ensures answer { OnOk result (
            IsAnswer self.old.limits (readings_of self.old) client call.now out.new) }
        ensures kind { OnOk result (fits_call call.now out.new ≡ true) }
        ensures after { OnOk result (Follows self.old self.new client call.now out.new) }
        ensures goes_on { OnOk result (
            GoesOn self.old self.new ((client, call.now, out.new) ∷ [])) }
        ensures untaken { OnOk result (self.new.trackers.untaken
            ≡ self.old.trackers.untaken ++ cons_option (tracker_told out.new) []) }
        ensures kept { OnErr result (IsSame self.old self.new) }
        ensures equal { result ≡ Err StepFault.HistoryFull → self.new ≡ self.old }
        ensures stays { OnErr result ((history : List Entry) →
            Shows self.old history → Shows self.new history) }
        ensures full { (result ≡ Err StepFault.HistoryFull)
            ↔ (self.old.limits.events ≤ self.old.events) }
        ensures memory { IfErr result (λ fault.
            takes_no_memory call.now ≡ true → fault ≡ StepFault.HistoryFull) }
        ensures out { OnErr result (out.new ≡ out.old) }
    {
        dispatch(self, client, call, out)
    }

    /// Makes calls in order, each as `step` does, and answers their replies in this order.
    ///
    /// At a fault it answers the fault and the replies before it. The calls before the fault stand, and
    /// no call after it was tried. The fault is `HistoryFull` exactly if as many events were made as the
    /// limit allows when that call comes, otherwise `NoMemory`. `NoMemory` without a reply may also mean
    /// that there was no room for the replies, which is made before the first call. Afterwards the
    /// reader of each tracker that a reply names can be taken, and each that could be taken before.
    /// Costs the sum of the steps.
    pub fn run(
        &mut self,
        alloc: Global,
        calls: &[(ClientId, Call)],
    ) -> Result<Vec<Reply>, (Vec<Reply>, StepFault)>
        ensures all { IfOk result (λ replies. length replies.items ≡ length calls.now) }
        ensures made { IfOk result (λ replies.
            Leads self.old (entries calls.now replies.items) self.new) }
        ensures few { IfErr result (λ fault. length fault.0.items < length calls.now) }
        ensures stopped { IfErr result (λ fault.
            Stops self.old (entries calls.now fault.0.items) fault.1 self.new) }
        ensures full { IfErr result (λ fault. (fault.1 ≡ StepFault.HistoryFull)
            ↔ (self.new.limits.events ≤ self.new.events)) }
        ensures pool { self.new.pool ≡ self.old.pool }
        ensures limits { self.new.limits ≡ self.old.limits }
        ensures untaken { IfOk result (λ replies. self.new.trackers.untaken
            ≡ self.old.trackers.untaken ++ trackers_told (entries calls.now replies.items)) }
        ensures untaken_some { IfErr result (λ fault. self.new.trackers.untaken
            ≡ self.old.trackers.untaken ++ trackers_told (entries calls.now fault.0.items)) }
        ensures goes_on { IfOk result (λ replies.
            GoesOn self.old self.new (entries calls.now replies.items)) }
        ensures goes_on_some { IfErr result (λ fault.
            GoesOn self.old self.new (entries calls.now fault.0.items)) }
    {
        let Ok(mut replies) = Vec::with_capacity(alloc, calls.len()) else {
            return Err((Vec::new(alloc), self.out_of_memory_fault()));
        };
        let mut reply = Reply::Done;
        for (client, call) in calls {
            match self.step_into(*client, call, &mut reply) {
                Ok(()) => {
                    replies.push_reserved(reply);
                }
                Err(fault) => {
                    return Err((replies, fault));
                }
            }
        }
        Ok(replies)
    }

    /// Takes the reader of the tracker with this id: `Some` once for each tracker that a reply named,
    /// otherwise `None`. Takes no memory. Costs O(log t), where t is the number of trackers made and not
    /// forgotten.
    pub fn take_tracker(&mut self, id: TrackerId) -> Option<Tracker>
        ensures tracker { result ≡ (if is_untaken self.old.trackers.untaken id
            then Some (reader_of self.old.trackers id) else None) }
        ensures cell { IfSome result (λ t. cell_of self.old.trackers.cells id ≡ Some t.cell) }
        ensures taken { self.new ≡ record self.old {
          trackers = record self.old.trackers { untaken = without_id self.old.trackers.untaken id };
        } }
        ensures shows { (history : List Entry) → Shows self.old history →
            Shows self.new history }
        ensures shows_but { (gone : List Fired) (history : List Entry) → ShowsBut gone self.old history →
            ShowsBut gone self.new history }
        ensures attached { (history : List Entry) → Shows self.old history →
            IfSome result (λ t. list_any (λ (u : Tracked). u.id == id)
            (tracked (timeline self.old.pool history)) ≡ true) }
    {
        self.contents.trackers.take_tracker(id)
    }

    /// Forgets the trackers that fired: `fired` then lists later firings alone, and a reader that was not
    /// taken can't be taken any more. A reader that was taken still reads its firing. This is no event, and
    /// changes no answer.
    ///
    /// It takes no memory, so that it is never refused. Costs O(t) for t trackers made since the last time.
    pub fn forget_fired(&mut self) -> Result<(), NoMemory>
        ensures done { IsOk result }
        ensures forgot { OnOk result (self.new ≡ forgetting self.old) }
        ensures kept { OnErr result (self.new ≡ self.old) }
        ensures shows { OnOk result ((gone : List Fired) (history : List Entry) →
            ShowsBut gone self.old history →
            ShowsBut (gone ++ self.old.trackers.fired) self.new history) }
    {
        self.contents.trackers.forget_fired()
    }

    /// The change that the call would make to a collection if it were made now, without what the change
    /// forces; `None` if it would change no collection. The change fits the collection, which exists, or
    /// is new and empty. This only looks, and takes no memory. Costs the look-ups of a call.
    pub fn change_of(&self, client: ClientId, call: &Call) -> Option<(CollectionId, Change)>
        ensures value { (reply : Reply) →
            IsAnswer self.now.limits (readings_of self.now) client call.now reply →
            result ≡ option_map (λ (w : Work). (w.collection, w.change))
            (work_of self.now client call.now reply) }
        ensures may { IfSome result (λ w. MayChange self.now.forest w.0 w.1) }
        ensures room { IfSome result (λ w.
            leaves_tracker_room w.1 (collection_or_new self.now.forest w.0).nodes ≡ true) }
        // A key that no node ever had is not in the collection.
        ensures fresh { IfSome result (λ w. (key : Key) → given self.now.forest key ≡ false →
            list_any (is_of key) (collection_or_new self.now.forest w.0).nodes ≡ false) }
    {
        // The core's own fields say that the change fits.
        let _limits = self.limits;
        change_in(self.decide(client, call).task)
    }
}
