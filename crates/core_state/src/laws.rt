//! What ties a core's state to each history that it shows.
ghost use Rattle.std.specs.Prelude.{◌≡◌, ◌<◌, [], ◌∷◌, ◌++◌, ℕ, List, true, length, drop};
ghost use Rattle.std.specs.Prelude.{None, Some, option_map, if◌then◌else◌};
ghost use Rattle.sm_names.specs.declared.keys.BufferName.{BufferName};
ghost use Rattle.sm_names.specs.declared.keys.NodeKey.{NodeKey};
ghost use Rattle.sm_names.specs.declared.keys.Strength.{Strength};
ghost use Rattle.sm_names.specs.declared.messages.Call.{Call};
ghost use Rattle.sm_names.specs.declared.messages.Reply.{Reply};
ghost use Rattle.sm_names.specs.Answers.{IsAnswer, answer};
ghost use Rattle.sm_names.specs.Bounds.{Bound};
ghost use Rattle.sm_names.specs.Handles.{opens};
ghost use Rattle.sm_names.specs.Kept.{is_kept, is_kept_collection};
ghost use Rattle.sm_names.specs.Legality.{IsLegal};
ghost use Rattle.sm_names.specs.Losses.{fault};
ghost use Rattle.sm_names.specs.Marks.{Called, Entry};
ghost use Rattle.sm_names.specs.Reading.{readings};
ghost use Rattle.sm_names.specs.declared.tracking.Fired.{Fired};
ghost use Rattle.sm_names.specs.Timelines.{timeline};
ghost use Rattle.sm_names.specs.Trackers.{fired};
ghost use Rattle.sm_names.specs.Views.{free_pages, live_nodes};
ghost use Rattle.forest_store.specs.Forest.{Collection, collection_at, live_keys};
ghost use Rattle.core_state.specs.Reads.{fault_in, readings_of, views_of};
ghost use Rattle.core_state.specs.Shown.{Shows, ShowsBut, forgetting, held_after};
ghost use Rattle.core_state.specs.State.{State};
ghost use Rattle.core_state.specs.Theorem.{Leads};

/// A core's readings are those of each history that it shows, except that a core may count more
/// keys as used than the history used: keys of no node, which it never uses again.
pub fn a_core_reads_as_its_history()
    ensures readings { (s : State) (history : List Entry) → Shows s history →
        record (readings_of s) { was_given = (readings (timeline s.pool history)).was_given }
        ≡ readings (timeline s.pool history) }
    ensures given { (s : State) (history : List Entry) → Shows s history → (key : NodeKey) →
        (readings (timeline s.pool history)).was_given key ≡ true →
        (readings_of s).was_given key ≡ true }
{}

/// A history that a core shows is legal: it has an answer for each call, and no more events than the
/// limits allow.
pub fn a_shown_history_is_legal()
    ensures { (s : State) (history : List Entry) → Shows s history →
        IsLegal s.pool s.limits history }
{}

/// So a core answers every call as each history that it shows does, also under other limits.
pub fn a_core_answers_as_its_history()
    ensures told { (s : State) (history : List Entry) → Shows s history →
        (limits : Bound) (client : ℕ) (new : NodeKey) (call : Call) →
        answer limits (readings_of s) client new call
        ≡ answer limits (readings (timeline s.pool history)) client new call }
    ensures answers { (s : State) (history : List Entry) → Shows s history →
        (limits : Bound) (client : ℕ) (call : Call) (reply : Reply) →
        IsAnswer limits (readings_of s) client call reply →
        IsAnswer limits (readings (timeline s.pool history)) client call reply }
{}

/// No Take is answered with an empty set, neither in a history that a core shows nor by the core: a
/// collection is given one buffer at least, and as long as a node of it is not gone, some strong
/// node or strong handle keeps one of them.
pub fn a_take_is_never_empty()
    ensures taken { (s : State) (before more : List Entry) (client collection : ℕ)
        (strength : Strength) (set : ℕ) (key : NodeKey) →
        Shows s (before ++ (client, Call.Take key, Reply.Taken collection strength set) ∷ more) →
        0 < set }
    ensures opened { (s : State) (before more : List Entry) (client collection : ℕ)
        (strength : Strength) (set : ℕ) (key : NodeKey) →
        Shows s (before ++ (client, Call.Take key, Reply.Taken collection strength set) ∷ more) →
        (buffer : BufferName) × (opens (λ c. true) buffer strength
        (Called client (Reply.Taken collection strength set) (Call.Take key)) ≡ true) }
    ensures next { (s : State) (history : List Entry) → Shows s history →
        (limits : Bound) (client collection : ℕ) (strength : Strength) (set : ℕ) (key : NodeKey) →
        IsAnswer limits (readings_of s) client (Call.Take key)
        (Reply.Taken collection strength set) → 0 < set }
{}

/// A core that forgot firings shows its history but for these. Events lead on as if it had forgotten
/// nothing: no answer reads a firing. The firings that were forgotten, and then its own, are those of the
/// history.
pub fn a_core_that_forgot_goes_on()
    ensures whole { (s : State) (history : List Entry) → Shows s history → ShowsBut [] s history }
    ensures forgets { (gone : List Fired) (s : State) (history : List Entry) →
        ShowsBut gone s history → ShowsBut (gone ++ s.trackers.fired) (forgetting s) history }
    ensures events { (gone : List Fired) (old new : State) (entries history : List Entry) →
        Leads old entries new → ShowsBut gone old history →
        ShowsBut gone new (history ++ entries) }
    ensures fired { (gone : List Fired) (s : State) (history : List Entry) →
        ShowsBut gone s history → gone ++ s.trackers.fired ≡ fired (timeline s.pool history) }
{}

/// Views of a core that forgot firings are those of each history that it shows so, as if it had
/// forgotten nothing: only `fired` leaves out the firings that were forgotten, which are the history's
/// first. It also reads as this history, so that it answers every call as this history does.
pub fn a_core_that_forgot_is_seen_whole()
    ensures live { (gone : List Fired) (s : State) (history : List Entry) →
        ShowsBut gone s history →
        live_keys s.forest ≡ live_nodes (timeline s.pool history) }
    ensures causes { (gone : List Fired) (s : State) (history : List Entry) →
        ShowsBut gone s history → (key : NodeKey) → let marks = timeline s.pool history in
        fault_in s key ≡ (if is_kept marks key then fault marks key else None) }
    ensures held { (gone : List Fired) (s : State) (history : List Entry) →
        ShowsBut gone s history → (id : ℕ) → let marks = timeline s.pool history in
        option_map (λ (c : Collection). c.held) (collection_at s.forest id)
        ≡ (if is_kept_collection marks id then Some (held_after s.pool marks id) else None) }
    ensures free { (gone : List Fired) (s : State) (history : List Entry) →
        ShowsBut gone s history →
        (views_of s).free ≡ free_pages s.pool (timeline s.pool history) }
    ensures fired { (gone : List Fired) (s : State) (history : List Entry) →
        ShowsBut gone s history →
        s.trackers.fired ≡ drop (length gone) (fired (timeline s.pool history)) }
    ensures events { (gone : List Fired) (s : State) (history : List Entry) →
        ShowsBut gone s history → s.events ≡ length history }
    ensures readings { (gone : List Fired) (s : State) (history : List Entry) →
        ShowsBut gone s history → record (readings_of s)
        { was_given = (readings (timeline s.pool history)).was_given }
        ≡ readings (timeline s.pool history) }
{}
