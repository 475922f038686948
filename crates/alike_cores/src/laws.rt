//! What is proved of two cores that are alike but for names. `to` gives each key a new one, `id` each
//! collection a new number, and `number` each tracker.
ghost use Rattle.std.specs.Prelude.{◌≡◌, ◌==◌, ◌+◌, List, None, ℕ};
ghost use Rattle.std.specs.List.{list_any};
ghost use Rattle.std.specs.Option.{option_map};
ghost use Rattle.sm_names.specs.declared.keys.NodeKey.{NodeKey};
ghost use Rattle.sm_names.specs.declared.messages.Call.{Call};
ghost use Rattle.sm_names.specs.declared.messages.Reply.{Reply};
ghost use Rattle.sm_names.specs.declared.tracking.Fired.{Fired};
ghost use Rattle.sm_names.specs.Answers.{answer};
ghost use Rattle.sm_names.specs.Bounds.{Bound};
ghost use Rattle.sm_names.specs.Ends.{joined_at};
ghost use Rattle.sm_names.specs.Marks.{Called, Entry};
ghost use Rattle.forest_store.specs.Forest.{node_at};
ghost use Rattle.core_state.specs.Reads.{readings_of, views_of};
ghost use Rattle.core_state.specs.Shown.{Shows};
ghost use Rattle.core_state.specs.State.{State};
ghost use Rattle.core_state.specs.Theorem.{Makes};
ghost use Rattle.alike_cores.specs.Alike.{AreAlike, KeepsIds, call_renamed, reply_renamed};
ghost use Rattle.alike_cores.specs.Renamed.{KeepsKeys, node_renamed};
ghost use Rattle.alike_cores.specs.Cores.{AreAlikeCores, GoOn, NamesNew, NamesOld, node_undated};

/// All that answers read of cores that are alike is alike, so that a renamed call is answered by the
/// renamed reply.
pub fn alike_cores_answer_alike()
    ensures reads { (to : NodeKey → NodeKey) (id number : ℕ → ℕ) → KeepsKeys to → KeepsIds id →
        (s t : State) (history : List Entry) → Shows s history →
        AreAlikeCores to id number s t → AreAlike to id (readings_of s) (readings_of t) }
    ensures answers { (to : NodeKey → NodeKey) (id number : ℕ → ℕ) → KeepsKeys to → KeepsIds id →
        (s t : State) (history : List Entry) → Shows s history →
        AreAlikeCores to id number s t →
        id (s.events + 1) ≡ t.events + 1 → number (s.events + 1) ≡ t.events + 1 →
        (limits : Bound) (client : ℕ) (new : NodeKey) (call : Call) →
        answer limits (readings_of t) client (to new) (call_renamed to id call)
        ≡ reply_renamed to id number (answer limits (readings_of s) client new call) }
{}

/// A call makes of cores that are alike cores that are alike, and is answered alike: under the same
/// names, if these take what the call makes in the one core to what it makes in the other, and under
/// some names that agree with them on all that had a name before. A Join is none of these calls:
/// clients keep their numbers.
pub fn alike_cores_stay_alike()
    ensures named { (to : NodeKey → NodeKey) (id number : ℕ → ℕ) → KeepsKeys to → KeepsIds id →
        (s t later again : State) (one other : List Entry) → Shows s one → Shows t other →
        AreAlikeCores to id number s t →
        id (s.events + 1) ≡ t.events + 1 → number (s.events + 1) ≡ t.events + 1 →
        (client : ℕ) (call : Call) (reply told : Reply) →
        joined_at (Called client reply call) ≡ None → NamesNew to reply told →
        Makes s later (client, call, reply) →
        Makes t again (client, call_renamed to id call, told) →
        (told ≡ reply_renamed to id number reply) × AreAlikeCores to id number later again }
    ensures goes_on { (to : NodeKey → NodeKey) (id number : ℕ → ℕ) →
        KeepsKeys to → KeepsIds id → KeepsIds number →
        (s t later again : State) (one other : List Entry) → Shows s one → Shows t other →
        AreAlikeCores to id number s t → (client : ℕ) (call : Call) (reply told : Reply) →
        joined_at (Called client reply call) ≡ None → NamesOld to id s t call →
        Makes s later (client, call, reply) →
        Makes t again (client, call_renamed to id call, told) →
        GoOn to id number s t later again reply told }
{}

/// What is seen of cores that are alike is alike: each kept node but for the event of its birth,
/// which trackers fired, and the free pages.
pub fn alike_cores_show_alike()
    ensures nodes { (to : NodeKey → NodeKey) (id number : ℕ → ℕ) → KeepsKeys to → KeepsIds id →
        (s t : State) (history : List Entry) → Shows s history →
        AreAlikeCores to id number s t → (key : NodeKey) →
        option_map node_undated (node_at t.forest (to key))
        ≡ option_map (node_renamed to id) (node_at s.forest key) }
    ensures fired { (to : NodeKey → NodeKey) (id number : ℕ → ℕ) → KeepsIds number →
        (s t : State) → AreAlikeCores to id number s t → (tracker : ℕ) →
        list_any (λ (f : Fired). f.tracker == number tracker) t.trackers.fired
        ≡ list_any (λ (f : Fired). f.tracker == tracker) s.trackers.fired }
    ensures free { (to : NodeKey → NodeKey) (id number : ℕ → ℕ) (s t : State) →
        AreAlikeCores to id number s t → (views_of t).free ≡ (views_of s).free }
{}

/// A core is alike to itself, and to a third one that is alike to a second to which it is alike.
pub fn being_alike_composes()
    ensures itself { (s : State) → AreAlikeCores (λ key. key) (λ id. id) (λ number. number) s s }
    ensures composed { (to more : NodeKey → NodeKey) (id on number next : ℕ → ℕ) (s t u : State) →
        AreAlikeCores to id number s t → AreAlikeCores more on next t u →
        AreAlikeCores (λ key. more (to key)) (λ i. on (id i)) (λ n. next (number n)) s u }
{}
