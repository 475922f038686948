//! How handles are counted, and what they keep.
ghost use Rattle.std.specs.Prelude.{◌≡◌, ◌&&◌, ◌≤◌, ◌+◌, ◌∷◌, ◌++◌, ℕ, List, [], not, true};
ghost use Rattle.std.specs.List.{filter, list_any, sum_by};
ghost use Rattle.sm_names.specs.declared.keys.BufferName.{BufferName};
ghost use Rattle.sm_names.specs.declared.keys.Strength.{Strength};
ghost use Rattle.sm_names.specs.declared.keys.NodeKey.{NodeKey};
ghost use Rattle.sm_names.specs.declared.messages.Call.{Call};
ghost use Rattle.sm_names.specs.declared.messages.Reply.{Reply};
ghost use Rattle.sm_names.specs.Answers.{set_of};
ghost use Rattle.sm_names.specs.Bounds.{Bound};
ghost use Rattle.sm_names.specs.Ends.{clients, parcels, is_handle_of};
ghost use Rattle.sm_names.specs.Handles.{opens, drops, lifts, lands, moving, open_of, open_total, doomed, home, buffer_names};
ghost use Rattle.sm_names.specs.Legality.{IsLegal};
ghost use Rattle.sm_names.specs.Marks.{Entry, Called};
ghost use Rattle.sm_names.specs.Sameness.{same_buffer};
ghost use Rattle.sm_names.specs.Timelines.{timeline};
ghost use Rattle.sm_names.specs.Words.{times};

/// In a legal history the handles that are open are those of the clients and those in parcels, and
/// those in parcels wait for clients. All clients together drop no more handles than they opened,
/// and collect no more than were given, so neither difference would be negative.
pub fn handles_are_counted()
    ensures total { (pool : ℕ) (limits : Bound) (history : List Entry) →
        IsLegal pool limits history →
        (buffer : BufferName) (strength : Strength) →
        open_total (timeline pool history) buffer strength
        ≡ sum_by (λ client. open_of (timeline pool history) client buffer strength)
        (clients (timeline pool history))
        + moving (timeline pool history) buffer strength }
    ensures in_parcels { (pool : ℕ) (limits : Bound) (history : List Entry) →
        IsLegal pool limits history →
        (buffer : BufferName) (strength : Strength) →
        moving (timeline pool history) buffer strength
        ≡ sum_by (λ client.
        times (is_handle_of buffer strength) (parcels (timeline pool history) client))
        (clients (timeline pool history)) }
    ensures dropped { (pool : ℕ) (limits : Bound) (history : List Entry) →
        IsLegal pool limits history →
        (buffer : BufferName) (strength : Strength) →
        times (drops (λ c. true) buffer strength) (timeline pool history)
        ≤ times (opens (λ c. true) buffer strength) (timeline pool history) }
    ensures collected { (pool : ℕ) (limits : Bound) (history : List Entry) →
        IsLegal pool limits history →
        (buffer : BufferName) (strength : Strength) →
        times (lands (λ c. true) buffer strength) (timeline pool history)
        ≤ times (lifts (λ c. true) buffer strength) (timeline pool history) }
{}

/// In a legal history only a Take is answered Taken, and it opens handles on exactly the buffers of
/// the collection that are not doomed. A buffer that is doomed, or home, stays so.
pub fn doomed_is_for_good()
    ensures taken { (pool : ℕ) (limits : Bound) (history : List Entry) (client collection : ℕ)
        (strength : Strength) (set : ℕ) (call : Call) →
        IsLegal pool limits (history ++ (client, call, Reply.Taken collection strength set) ∷ []) →
        set ≡ set_of (filter (λ name. not (doomed (timeline pool history) name))
        (buffer_names (timeline pool history) collection)) }
    ensures by_take { (pool : ℕ) (limits : Bound) (history : List Entry) (client collection : ℕ)
        (strength : Strength) (set : ℕ) (call : Call) →
        IsLegal pool limits (history ++ (client, call, Reply.Taken collection strength set) ∷ []) →
        (key : NodeKey) × (call ≡ Call.Take key) }
    ensures opened { (pool : ℕ) (limits : Bound) (history : List Entry) (client collection : ℕ)
        (strength : Strength) (set : ℕ) (key : NodeKey) →
        IsLegal pool limits
        (history ++ (client, Call.Take key, Reply.Taken collection strength set) ∷ []) →
        (buffer : BufferName) →
        opens (λ c. true) buffer strength
        (Called client (Reply.Taken collection strength set) (Call.Take key))
        ≡ (list_any (λ name. same_buffer name buffer)
        (buffer_names (timeline pool history) collection)
        && not (doomed (timeline pool history) buffer)) }
    ensures doomed { (pool : ℕ) (limits : Bound) (history more : List Entry) →
        IsLegal pool limits (history ++ more) → (buffer : BufferName) →
        doomed (timeline pool history) buffer ≡ true →
        doomed (timeline pool (history ++ more)) buffer ≡ true }
    ensures home { (pool : ℕ) (limits : Bound) (history more : List Entry) →
        IsLegal pool limits (history ++ more) → (buffer : BufferName) →
        home (timeline pool history) buffer ≡ true →
        home (timeline pool (history ++ more)) buffer ≡ true }
{}
