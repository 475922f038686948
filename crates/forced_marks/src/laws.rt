//! The marks of an event are those that the history has for it.
ghost use Rattle.std.specs.Prelude.{◌≡◌, ◌∷◌, ◌⊎◌, ◌||◌, [], ℕ, Bool, List, Some, None, is_some, length, nat_lt, not, true, false};
ghost use Rattle.std.specs.List.{cons_option, list_any};
ghost use Rattle.sm_names.specs.declared.messages.Call.{Call};
ghost use Rattle.sm_names.specs.declared.messages.Reply.{Reply};
ghost use Rattle.sm_names.specs.Answers.{IsAnswer};
ghost use Rattle.sm_names.specs.declared.keys.BufferName.{BufferName};
ghost use Rattle.sm_names.specs.declared.keys.NodeKey.{NodeKey};
ghost use Rattle.sm_names.specs.declared.outcomes.Cause.{Cause};
ghost use Rattle.sm_names.specs.Bounds.{Bound};
ghost use Rattle.sm_names.specs.Elements.{In};
ghost use Rattle.sm_names.specs.Handles.{buffers_of, home};
ghost use Rattle.sm_names.specs.Legality.{IsLegal};
ghost use Rattle.sm_names.specs.Births.{AreSound, ancestors, births};
ghost use Rattle.sm_names.specs.Losses.{blocked, gone, parent_of, reaches, top};
ghost use Rattle.sm_names.specs.Marks.{Called, Ended, Entry, Loss, Mark, Timeline};
ghost use Rattle.sm_names.specs.Sameness.{same_key};
ghost use Rattle.sm_names.specs.Timelines.{after, own_loss, timeline};
ghost use Rattle.buffer_holds.specs.Counts.{total};
ghost use Rattle.forest_store.specs.Forest.{Collection, beside};
ghost use Rattle.core_state.specs.Reads.{readings_of};
ghost use Rattle.core_state.specs.Shown.{Shows, ShowsBut};
ghost use Rattle.core_state.specs.State.{State};
ghost use Rattle.core_state.specs.Steps.{Follows, Work, work_of};
ghost use Rattle.forced_marks.specs.Explanations.{Handing, Moment, climb, handings, holders, keepers, last_or, taken_at, way_of_loss};
ghost use Rattle.forced_marks.specs.Marks.{AreStages, SettlesBy, changed_by, forces_nothing, laid_on};
ghost use Rattle.forest_store.specs.Settling.{MayChange};
ghost use Rattle.sm_names.specs.declared.tracking.Fired.{Fired};

/// Where a core takes a call, the marks that are found by a walk over the collection that the call
/// changes are those that the history has for this event, all of them and in order, behind the loss
/// that the call makes itself. An event that changes no collection has no mark but its own.
pub fn told_marks_are_the_historys()
    ensures work { (old new : State) (history : List Entry) (client : ℕ) (call : Call)
        (reply : Reply) → Shows old history →
        IsAnswer old.limits (readings_of old) client call reply →
        Follows old new client call reply →
        (w : Work) → work_of old client call reply ≡ Some w → (ms : List Mark) (left : Collection) →
        SettlesBy old.pool (total new.holds) (beside old.forest w.collection)
        (changed_by old reply w) ms left →
        after old.pool (timeline old.pool history) (client, call, reply)
        ≡ laid_on ms (cons_option (own_loss (timeline old.pool history) call reply)
        (Called client reply call ∷ timeline old.pool history)) }
    ensures none { (old new : State) (history : List Entry) (client : ℕ) (call : Call)
        (reply : Reply) → Shows old history →
        IsAnswer old.limits (readings_of old) client call reply →
        Follows old new client call reply → work_of old client call reply ≡ None →
        after old.pool (timeline old.pool history) (client, call, reply)
        ≡ Called client reply call ∷ timeline old.pool history }
{}

/// An event whose change forces nothing has no mark but its own, since its collection rested before.
pub fn some_changes_force_nothing()
    ensures { (old new : State) (gone : List Fired) (history : List Entry) (client : ℕ)
        (call : Call) (reply : Reply) → ShowsBut gone old history →
        Follows old new client call reply → (w : Work) → work_of old client call reply ≡ Some w →
        MayChange old.forest w.collection w.change → forces_nothing w.change ≡ true →
        AreStages old new client call reply [] }
{}

/// The way up of a loss ends at the highest node that the failure reaches, and each node that the
/// loss takes is that one, or a child of a node that it takes too: so the list of the nodes that
/// propagate the loss to their children names each of them.
pub fn each_taken_node_has_a_reason()
    ensures way { (blocks : NodeKey → Bool) (first node : NodeKey) (above : List NodeKey) →
        last_or first (climb blocks node above) ≡ top blocks node above }
    ensures reason { (marks : Timeline) → AreSound (births marks) →
        ((child parent : NodeKey) → parent_of marks child ≡ Some parent →
        gone marks parent ≡ true → gone marks child ≡ true) →
        (origin node p : NodeKey) → reaches marks origin node ≡ true → gone marks node ≡ false →
        parent_of marks node ≡ Some p →
        (top (blocked marks) origin (ancestors (births marks) origin) ≡ node)
        ⊎ ((reaches marks origin p ≡ true) × (gone marks p ≡ false)) }
{}

/// The rows of a mark, of the nodes and the children that fail or end with each, give each node that
/// the mark takes one reason. The node of a row was taken, and so was each child in its row, which is
/// a child of this node and is not on the way up. No node stands in two rows. Each node that a loss
/// takes is on the way up or stands in a row; each that an end takes is its top or stands in a row.
pub fn each_taken_node_stands_in_one_row()
    ensures rows { (marks : Timeline) (way taken : List NodeKey) (h : Handing) →
        In h (handings marks way taken) → In h.above taken × ((node : NodeKey) → In node h.below →
        In node taken × (parent_of marks node ≡ Some h.above)
        × (list_any (same_key node) way ≡ false)) }
    ensures one { (marks : Timeline) (way taken : List NodeKey) (h k : Handing) (node : NodeKey) →
        In h (handings marks way taken) → In k (handings marks way taken) →
        In node h.below → In node k.below → h ≡ k }
    ensures loss { (marks : Timeline) → AreSound (births marks) →
        ((child parent : NodeKey) → parent_of marks child ≡ Some parent →
        gone marks parent ≡ true → gone marks child ≡ true) →
        (origin : NodeKey) (cause : Cause) (node : NodeKey) →
        let m : Moment = record { mark = Loss origin cause; before = marks } in
        In node (taken_at m) → (list_any (same_key node) (way_of_loss m) ≡ true)
        ⊎ ((h : Handing) × In h (handings marks (way_of_loss m) (taken_at m)) × In node h.below) }
    ensures ended { (marks : Timeline) → AreSound (births marks) →
        ((child parent : NodeKey) → parent_of marks child ≡ Some parent →
        gone marks parent ≡ true → gone marks child ≡ true) →
        (head node : NodeKey) →
        let m : Moment = record { mark = Ended head; before = marks } in
        In node (taken_at m) → (head ≡ node)
        ⊎ ((h : Handing) × In h (handings marks (way_of_loss m) (taken_at m)) × In node h.below) }
{}

/// In a legal history a buffer of an allocated collection is not home, so that its pages are held,
/// exactly if a live strong node keeps it or somebody holds a handle on it: a client, or a parcel.
pub fn held_buffers_have_holders()
    ensures { (pool : ℕ) (limits : Bound) (history : List Entry) → IsLegal pool limits history →
        let marks = timeline pool history in (buffer : BufferName) →
        is_some (buffers_of marks buffer.collection) ≡ true →
        not (home marks buffer) ≡ (nat_lt 0 (length (keepers marks buffer.collection))
        || nat_lt 0 (length (holders marks buffer))) }
{}
