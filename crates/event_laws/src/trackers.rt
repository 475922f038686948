//! What one event does to the trackers: those that wait determine it.
ghost use Rattle.std.specs.Prelude.{◌≡◌, ◌≤◌, ◌<◌, ◌+◌, ◌∷◌, ◌++◌, not, ℕ, List, [], length, map, All, Some, false, true};
ghost use Rattle.std.specs.List.{AllPairs, filter};
ghost use Rattle.sm_names.specs.declared.keys.NodeKey.{NodeKey};
ghost use Rattle.sm_names.specs.declared.tracking.Condition.{Condition};
ghost use Rattle.sm_names.specs.Births.{births, was_born};
ghost use Rattle.sm_names.specs.Bounds.{Bound};
ghost use Rattle.sm_names.specs.Isolation.{IsOf, collection_at};
ghost use Rattle.sm_names.specs.Legality.{IsLegal};
ghost use Rattle.sm_names.specs.Losses.{allocated};
ghost use Rattle.sm_names.specs.Marks.{Entry, Timeline, events};
ghost use Rattle.sm_names.specs.Timelines.{timeline};
ghost use Rattle.sm_names.specs.Trackers.{Tracked, World, tracked, fired, unfired, world};
ghost use Rattle.event_laws.specs.Waiting.{unfired_trackers, tracker_made, trackers_to_test, is_tracked_met, tracked_firing, IsWaitedFor, IsRecalled};

/// An event fires those that waited, and the tracker that it attaches, where what they wait for
/// holds after it, the earliest first. The others wait on, in their order.
pub fn events_fire_what_is_due()
    ensures fired { (pool : ℕ) (limits : Bound) (history : List Entry) (entry : Entry) →
        IsLegal pool limits (history ++ entry ∷ []) →
        fired (timeline pool (history ++ entry ∷ []))
        ≡ fired (timeline pool history)
        ++ map (tracked_firing (events (timeline pool (history ++ entry ∷ []))))
        (filter (is_tracked_met (world (timeline pool (history ++ entry ∷ []))))
        (trackers_to_test (timeline pool history) entry)) }
    ensures waiting { (pool : ℕ) (limits : Bound) (history : List Entry) (entry : Entry) →
        IsLegal pool limits (history ++ entry ∷ []) →
        unfired_trackers (timeline pool (history ++ entry ∷ []))
        ≡ filter (λ t. not (is_tracked_met (world (timeline pool (history ++ entry ∷ []))) t))
        (trackers_to_test (timeline pool history) entry) }
    ensures nothing { unfired_trackers [] ≡ [] }
{}

/// As many trackers have not fired as wait.
pub fn waiting_is_counted()
    ensures { (marks : Timeline) → unfired marks ≡ length (unfired_trackers marks) }
{}

/// Events are numbered in turn, and a tracker has the number of the event that attached it: of
/// those that wait the ids rise, and a later event has a greater number than each tracker that was
/// ever attached.
pub fn trackers_are_numbered()
    ensures rising { (pool : ℕ) (limits : Bound) (history : List Entry) →
        IsLegal pool limits history →
        AllPairs (λ (s t : Tracked). s.id < t.id) (unfired_trackers (timeline pool history)) }
    ensures early { (pool : ℕ) (limits : Bound) (history : List Entry) →
        IsLegal pool limits history →
        All (λ (t : Tracked). t.id ≤ events (timeline pool history))
        (tracked (timeline pool history)) }
    ensures waiting { (pool : ℕ) (limits : Bound) (history : List Entry) (entry : Entry) →
        IsLegal pool limits (history ++ entry ∷ []) →
        All (λ (t : Tracked). t.id < events (timeline pool (history ++ entry ∷ [])))
        (unfired_trackers (timeline pool history)) }
    ensures made { (pool : ℕ) (limits : Bound) (history : List Entry) (entry : Entry) →
        IsLegal pool limits (history ++ entry ∷ []) →
        All (λ (t : Tracked). t.id ≡ events (timeline pool (history ++ entry ∷ [])))
        (tracker_made (timeline pool history) entry) }
    ensures event { (pool : ℕ) (history : List Entry) (entry : Entry) →
        events (timeline pool (history ++ entry ∷ [])) ≡ events (timeline pool history) + 1 }
{}

/// Each tracker concerns one collection for good, that of the event that attaches it.
pub fn trackers_concern_a_collection()
    ensures each { (pool : ℕ) (limits : Bound) (history : List Entry) →
        IsLegal pool limits history →
        All (λ (t : Tracked). (collection : ℕ)
        × IsOf (timeline pool history) collection t.condition)
        (tracked (timeline pool history)) }
    ensures made { (pool : ℕ) (limits : Bound) (history : List Entry) (entry : Entry) →
        IsLegal pool limits (history ++ entry ∷ []) →
        All (λ (t : Tracked). (collection : ℕ)
        × (collection_at (timeline pool history) entry ≡ Some collection)
        × IsOf (timeline pool history) collection t.condition)
        (tracker_made (timeline pool history) entry) }
    ensures kept { (pool : ℕ) (limits : Bound) (history : List Entry) (entry : Entry) →
        IsLegal pool limits (history ++ entry ∷ []) → (collection : ℕ) (condition : Condition) →
        IsOf (timeline pool history) collection condition →
        IsOf (timeline pool (history ++ entry ∷ [])) collection condition }
{}

/// A tracker of another collection than the event's is not due.
pub fn events_fire_their_collection()
    ensures { (pool : ℕ) (limits : Bound) (history : List Entry) (entry : Entry) →
        IsLegal pool limits (history ++ entry ∷ []) → (collection : ℕ) →
        (collection_at (timeline pool history) entry ≡ Some collection → ⊥) →
        All (λ (t : Tracked). IsOf (timeline pool history) collection t.condition →
        is_tracked_met (world (timeline pool (history ++ entry ∷ []))) t ≡ false)
        (trackers_to_test (timeline pool history) entry) }
{}

/// What a tracker that waits is waiting for does not hold. So a node that is tracked is not gone,
/// a node whose lifetime is tracked was allocated if it is gone, and a buffer is not doomed.
pub fn waiting_trackers_are_not_due()
    ensures undue { (marks : Timeline) →
        All (λ (t : Tracked). is_tracked_met (world marks) t ≡ false) (unfired_trackers marks) }
    ensures kept { (marks : Timeline) →
        All (λ (t : Tracked). IsWaitedFor marks t.condition) (unfired_trackers marks) }
{}

/// A unit that was given its buffers stays so. So the node of a lifetime tracker that waits, once
/// it is gone, is gone and allocated for good, and may be forgotten.
pub fn allocated_is_for_good()
    ensures { (pool : ℕ) (limits : Bound) (history more : List Entry) →
        IsLegal pool limits (history ++ more) → (node : NodeKey) →
        was_born (births (timeline pool history)) node ≡ true →
        allocated (timeline pool history) node ≡ true →
        allocated (timeline pool (history ++ more)) node ≡ true }
{}

/// Nodes that were gone and buffers that were home before an event may be forgotten: a program that
/// takes such a node for allocated, and does not know such a buffer, finds the same trackers due.
pub fn gone_nodes_and_home_buffers_may_be_forgotten()
    ensures { (pool : ℕ) (limits : Bound) (history : List Entry) (entry : Entry) →
        IsLegal pool limits (history ++ entry ∷ []) → (w : World) →
        IsRecalled (timeline pool history) (timeline pool (history ++ entry ∷ [])) w →
        All (λ (t : Tracked). is_tracked_met w t
        ≡ is_tracked_met (world (timeline pool (history ++ entry ∷ []))) t)
        (trackers_to_test (timeline pool history) entry) }
{}
