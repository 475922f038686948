//! What one event does to handles.
ghost use Rattle.std.specs.Prelude.{◌≡◌, ◌<◌, ◌+◌, ◌-◌, ◌&&◌, ◌==◌, ◌∷◌, ◌++◌, ℕ, List, [], false, true};
ghost use Rattle.std.specs.Int.{bit_at};
ghost use Rattle.std.specs.List.{list_any, sum_by};
ghost use Rattle.sm_names.specs.declared.keys.BufferName.{BufferName};
ghost use Rattle.sm_names.specs.declared.keys.NodeKey.{NodeKey};
ghost use Rattle.sm_names.specs.declared.keys.Strength.{Strength};
ghost use Rattle.sm_names.specs.declared.messages.Call.{Call};
ghost use Rattle.sm_names.specs.declared.messages.Reply.{Reply};
ghost use Rattle.sm_names.specs.Bounds.{Bound};
ghost use Rattle.event_laws.specs.ByEvent.{GoesBy, SameHands, SetsHandles, anyone, gains, is_about_handles, loses, entry_mark, one_if, only};
ghost use Rattle.event_laws.specs.HandleSums.{ListsAllocated, all_moving, all_open, all_open_of, allocated_collections};
ghost use Rattle.event_laws.specs.HandleSums.{dropped, got, opened, over_buffers, sent};
ghost use Rattle.sm_names.specs.Ends.{has_joined};
ghost use Rattle.sm_names.specs.Handles.{opens, drops, lifts, lands, open_of, open_total, moving, buffer_names};
ghost use Rattle.sm_names.specs.Legality.{IsLegal};
ghost use Rattle.sm_names.specs.Marks.{Entry, Mark, Timeline, is_event};
ghost use Rattle.sm_names.specs.Sameness.{same_buffer, same_strength};
ghost use Rattle.sm_names.specs.Timelines.{timeline};

/// Marks that are no event leave everyone's handles, parcels and ends as they are, and make no
/// client and no node: so after an event these read as after its own mark.
pub fn forced_marks_move_nothing()
    ensures mark { (marks : Timeline) (mark : Mark) → is_event mark ≡ false →
        SameHands marks (mark ∷ marks) }
    ensures event { (pool : ℕ) (history : List Entry) (entry : Entry) →
        SameHands (entry_mark entry ∷ timeline pool history)
        (timeline pool (history ++ entry ∷ [])) }
{}

/// Each event changes what a client has open, what is open in all and what is in parcels by what
/// its mark opens, drops, gives and collects, one handle at most of each buffer and strength. What
/// is dropped or given was open, and what is collected was in a parcel.
pub fn events_move_handles()
    ensures each { (pool : ℕ) (limits : Bound) (history : List Entry) (entry : Entry) →
        IsLegal pool limits (history ++ entry ∷ []) →
        (client : ℕ) (buffer : BufferName) (strength : Strength) →
        GoesBy (open_of (timeline pool history) client buffer strength)
        (open_of (timeline pool (history ++ entry ∷ [])) client buffer strength)
        (gains (only client) buffer strength (entry_mark entry))
        (loses (only client) buffer strength (entry_mark entry)) }
    ensures in_all { (pool : ℕ) (limits : Bound) (history : List Entry) (entry : Entry) →
        IsLegal pool limits (history ++ entry ∷ []) → (buffer : BufferName) (strength : Strength) →
        GoesBy (open_total (timeline pool history) buffer strength)
        (open_total (timeline pool (history ++ entry ∷ [])) buffer strength)
        (opens anyone buffer strength (entry_mark entry))
        (drops anyone buffer strength (entry_mark entry)) }
    ensures in_parcels { (pool : ℕ) (limits : Bound) (history : List Entry) (entry : Entry) →
        IsLegal pool limits (history ++ entry ∷ []) → (buffer : BufferName) (strength : Strength) →
        GoesBy (moving (timeline pool history) buffer strength)
        (moving (timeline pool (history ++ entry ∷ [])) buffer strength)
        (lifts anyone buffer strength (entry_mark entry))
        (lands anyone buffer strength (entry_mark entry)) }
{}

/// A DupHandle opens one handle, a DropHandle drops one, a GiveHandle puts one into a parcel and a
/// Collect takes one out: no other count changes. Who drops or gives a handle had it open, and one
/// that is collected was in a parcel.
pub fn one_handle_is_moved()
    ensures doubled { (pool : ℕ) (limits : Bound) (history : List Entry) (client : ℕ)
        (buffer : BufferName) (strength : Strength) →
        IsLegal pool limits (history ++ (client, Call.DupHandle buffer strength, Reply.Done) ∷ []) →
        SetsHandles (timeline pool history)
        (timeline pool (history ++ (client, Call.DupHandle buffer strength, Reply.Done) ∷ []))
        client buffer strength
        (open_of (timeline pool history) client buffer strength + 1)
        (moving (timeline pool history) buffer strength)
        (open_total (timeline pool history) buffer strength + 1) }
    ensures dropped { (pool : ℕ) (limits : Bound) (history : List Entry) (client : ℕ)
        (buffer : BufferName) (strength : Strength) →
        IsLegal pool limits
        (history ++ (client, Call.DropHandle buffer strength, Reply.Done) ∷ []) →
        (0 < open_of (timeline pool history) client buffer strength)
        × (0 < open_total (timeline pool history) buffer strength)
        × SetsHandles (timeline pool history)
        (timeline pool (history ++ (client, Call.DropHandle buffer strength, Reply.Done) ∷ []))
        client buffer strength
        (open_of (timeline pool history) client buffer strength - 1)
        (moving (timeline pool history) buffer strength)
        (open_total (timeline pool history) buffer strength - 1) }
    ensures given { (pool : ℕ) (limits : Bound) (history : List Entry) (client : ℕ)
        (buffer : BufferName) (strength : Strength) (to : ℕ) →
        IsLegal pool limits
        (history ++ (client, Call.GiveHandle buffer strength to, Reply.Done) ∷ []) →
        (0 < open_of (timeline pool history) client buffer strength)
        × SetsHandles (timeline pool history)
        (timeline pool (history ++ (client, Call.GiveHandle buffer strength to, Reply.Done) ∷ []))
        client buffer strength
        (open_of (timeline pool history) client buffer strength - 1)
        (moving (timeline pool history) buffer strength + 1)
        (open_total (timeline pool history) buffer strength) }
    ensures collected { (pool : ℕ) (limits : Bound) (history : List Entry) (client : ℕ)
        (buffer : BufferName) (strength : Strength) →
        IsLegal pool limits
        (history ++ (client, Call.Collect, Reply.CollectedHandle buffer strength) ∷ []) →
        (0 < moving (timeline pool history) buffer strength)
        × SetsHandles (timeline pool history)
        (timeline pool
        (history ++ (client, Call.Collect, Reply.CollectedHandle buffer strength) ∷ []))
        client buffer strength
        (open_of (timeline pool history) client buffer strength + 1)
        (moving (timeline pool history) buffer strength - 1)
        (open_total (timeline pool history) buffer strength) }
{}

/// A Take that is answered Taken opens one handle of its strength on each buffer of the set.
pub fn a_take_opens_its_set()
    ensures each { (pool : ℕ) (limits : Bound) (history : List Entry) (client collection : ℕ)
        (taken : Strength) (set : ℕ) (key : NodeKey) →
        IsLegal pool limits
        (history ++ (client, Call.Take key, Reply.Taken collection taken set) ∷ []) →
        (c : ℕ) (b : BufferName) (s : Strength) →
        open_of
        (timeline pool (history ++ (client, Call.Take key, Reply.Taken collection taken set) ∷ []))
        c b s
        ≡ open_of (timeline pool history) c b s + one_if (client == c && (collection == b.collection
        && (same_strength taken s && bit_at set b.index == 1))) }
    ensures in_all { (pool : ℕ) (limits : Bound) (history : List Entry) (client collection : ℕ)
        (taken : Strength) (set : ℕ) (key : NodeKey) →
        IsLegal pool limits
        (history ++ (client, Call.Take key, Reply.Taken collection taken set) ∷ []) →
        (b : BufferName) (s : Strength) →
        open_total
        (timeline pool
        (history ++ (client, Call.Take key, Reply.Taken collection taken set) ∷ [])) b s
        ≡ open_total (timeline pool history) b s + one_if (collection == b.collection
        && (same_strength taken s && bit_at set b.index == 1)) }
    ensures in_parcels { (pool : ℕ) (limits : Bound) (history : List Entry) (client collection : ℕ)
        (taken : Strength) (set : ℕ) (key : NodeKey) →
        IsLegal pool limits
        (history ++ (client, Call.Take key, Reply.Taken collection taken set) ∷ []) →
        (b : BufferName) (s : Strength) →
        moving
        (timeline pool (history ++ (client, Call.Take key, Reply.Taken collection taken set) ∷ []))
        b s
        ≡ moving (timeline pool history) b s }
{}

/// Every other event leaves all counts of handles.
pub fn other_events_leave_handles()
    ensures each { (pool : ℕ) (limits : Bound) (history : List Entry) (entry : Entry) →
        IsLegal pool limits (history ++ entry ∷ []) → is_about_handles (entry_mark entry) ≡ false →
        (client : ℕ) (buffer : BufferName) (strength : Strength) →
        open_of (timeline pool (history ++ entry ∷ [])) client buffer strength
        ≡ open_of (timeline pool history) client buffer strength }
    ensures in_all { (pool : ℕ) (limits : Bound) (history : List Entry) (entry : Entry) →
        IsLegal pool limits (history ++ entry ∷ []) → is_about_handles (entry_mark entry) ≡ false →
        (buffer : BufferName) (strength : Strength) →
        open_total (timeline pool (history ++ entry ∷ [])) buffer strength
        ≡ open_total (timeline pool history) buffer strength }
    ensures in_parcels { (pool : ℕ) (limits : Bound) (history : List Entry) (entry : Entry) →
        IsLegal pool limits (history ++ entry ∷ []) → is_about_handles (entry_mark entry) ≡ false →
        (buffer : BufferName) (strength : Strength) →
        moving (timeline pool (history ++ entry ∷ [])) buffer strength
        ≡ moving (timeline pool history) buffer strength }
{}

/// In a legal history each handle that is open, or in a parcel, is on a buffer of an allocated
/// collection, and a client that has not joined has none open.
pub fn handles_are_on_buffers()
    ensures each { (pool : ℕ) (limits : Bound) (history : List Entry) →
        IsLegal pool limits history →
        (client : ℕ) (buffer : BufferName) (strength : Strength) →
        0 < open_of (timeline pool history) client buffer strength →
        list_any (λ name. same_buffer name buffer)
        (buffer_names (timeline pool history) buffer.collection) ≡ true }
    ensures in_all { (pool : ℕ) (limits : Bound) (history : List Entry) →
        IsLegal pool limits history →
        (buffer : BufferName) (strength : Strength) →
        0 < open_total (timeline pool history) buffer strength →
        list_any (λ name. same_buffer name buffer)
        (buffer_names (timeline pool history) buffer.collection) ≡ true }
    ensures in_parcels { (pool : ℕ) (limits : Bound) (history : List Entry) →
        IsLegal pool limits history →
        (buffer : BufferName) (strength : Strength) →
        0 < moving (timeline pool history) buffer strength →
        list_any (λ name. same_buffer name buffer)
        (buffer_names (timeline pool history) buffer.collection) ≡ true }
    ensures strangers { (pool : ℕ) (limits : Bound) (history : List Entry) →
        IsLegal pool limits history →
        (client : ℕ) (buffer : BufferName) (strength : Strength) →
        has_joined (timeline pool history) client ≡ false →
        open_of (timeline pool history) client buffer strength ≡ 0 }
{}

/// The counts of the buffers add up to what the events of a legal history did. Over all buffers of
/// all collections that were given any, listed once each, the handles of one strength that are open
/// are those that were opened and not dropped. Those in parcels were put in and not taken out, and a
/// client has open what it opened or took out, and neither dropped nor gave.
pub fn handles_add_up()
    ensures in_all { (pool : ℕ) (limits : Bound) (history : List Entry) →
        IsLegal pool limits history →
        (collections : List ℕ) → ListsAllocated (timeline pool history) collections →
        (strength : Strength) →
        over_buffers collections (λ b. open_total (timeline pool history) b strength)
        + dropped anyone strength history
        ≡ opened anyone strength history }
    ensures in_parcels { (pool : ℕ) (limits : Bound) (history : List Entry) →
        IsLegal pool limits history →
        (collections : List ℕ) → ListsAllocated (timeline pool history) collections →
        (strength : Strength) →
        over_buffers collections (λ b. moving (timeline pool history) b strength)
        + got anyone strength history
        ≡ sent anyone strength history }
    ensures each { (pool : ℕ) (limits : Bound) (history : List Entry) →
        IsLegal pool limits history →
        (collections : List ℕ) → ListsAllocated (timeline pool history) collections →
        (strength : Strength) (client : ℕ) →
        over_buffers collections (λ b. open_of (timeline pool history) client b strength)
        + (dropped (only client) strength history + sent (only client) strength history)
        ≡ opened (only client) strength history + got (only client) strength history }
{}

/// In a legal history a collection is given buffers at most once: so the list of those that were
/// given any, as the marks have it, has each of them once, and is a list that `handles_add_up`
/// takes.
pub fn allocated_collections_are_listed()
    ensures { (pool : ℕ) (limits : Bound) (history : List Entry) →
        IsLegal pool limits history →
        ListsAllocated (timeline pool history) (allocated_collections (timeline pool history)) }
{}

/// So over all buffers: the handles that are open after a legal history are those that were opened
/// and not dropped, those in parcels were put in and not taken out, and a client has what it opened
/// or took out, and neither dropped nor gave.
pub fn all_handles_add_up()
    ensures in_all { (pool : ℕ) (limits : Bound) (history : List Entry) →
        IsLegal pool limits history → (strength : Strength) →
        all_open (timeline pool history) strength + dropped anyone strength history
        ≡ opened anyone strength history }
    ensures in_parcels { (pool : ℕ) (limits : Bound) (history : List Entry) →
        IsLegal pool limits history → (strength : Strength) →
        all_moving (timeline pool history) strength + got anyone strength history
        ≡ sent anyone strength history }
    ensures each { (pool : ℕ) (limits : Bound) (history : List Entry) →
        IsLegal pool limits history → (strength : Strength) (client : ℕ) →
        all_open_of (timeline pool history) client strength
        + (dropped (only client) strength history + sent (only client) strength history)
        ≡ opened (only client) strength history + got (only client) strength history }
{}

/// In a legal history what is counted on buffers of allocated collections alone, as
/// `handles_are_on_buffers` says of handles, adds up over their names: no collection has more than
/// `MAX_BUFFERS`.
pub fn counts_add_up_by_name()
    ensures { (pool : ℕ) (limits : Bound) (history : List Entry) → IsLegal pool limits history →
        (count : BufferName → ℕ) →
        ((buffer : BufferName) → 0 < count buffer →
        list_any (λ name. same_buffer name buffer)
        (buffer_names (timeline pool history) buffer.collection) ≡ true) →
        (collections : List ℕ) →
        over_buffers collections count
        ≡ sum_by (λ c. sum_by count (buffer_names (timeline pool history) c)) collections }
{}
