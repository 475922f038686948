//! Nodes that are gone stay so, as do trackers that fired, and once all ends are spent and all
//! handles are dropped nothing is kept.
ghost use Rattle.std.specs.Prelude.{◌≡◌, ◌++◌, ◌&&◌, ◌||◌, not, if◌then◌else◌, ℕ, List, [], Some, true, false};
ghost use Rattle.std.specs.List.{list_any};
ghost use Rattle.sm_names.specs.declared.keys.BufferName.{BufferName};
ghost use Rattle.sm_names.specs.declared.keys.NodeKey.{NodeKey};
ghost use Rattle.sm_names.specs.declared.keys.Strength.{Strength};
ghost use Rattle.sm_names.specs.declared.outcomes.Fault.{Fault};
ghost use Rattle.sm_names.specs.Births.{births, ancestors, was_born};
ghost use Rattle.sm_names.specs.Bounds.{Bound};
ghost use Rattle.sm_names.specs.Ends.{spent};
ghost use Rattle.sm_names.specs.Handles.{open_total};
ghost use Rattle.sm_names.specs.Legality.{IsLegal};
ghost use Rattle.sm_names.specs.Losses.{fault, gone, live, released};
ghost use Rattle.sm_names.specs.Marks.{Entry, Timeline};
ghost use Rattle.sm_names.specs.Sameness.{same_key};
ghost use Rattle.sm_names.specs.Timelines.{held, timeline};
ghost use Rattle.sm_names.specs.Trackers.{Tracked, fired_at};
ghost use Rattle.sm_names.specs.Views.{free_pages, live_nodes};
ghost use Rattle.sm_names.specs.Words.{times};

/// A node that is gone stays gone, with the fault by which it failed first, and is not live. No
/// ancestor of a node that is not gone is gone. A node that was born is live exactly if it is
/// neither gone nor released, and the list of live nodes has each of these once and no other.
pub fn gone_is_for_good()
    ensures gone { (pool : ℕ) (history more : List Entry) (node : NodeKey) →
        gone (timeline pool history) node ≡ true →
        gone (timeline pool (history ++ more)) node ≡ true }
    ensures fault { (pool : ℕ) (history more : List Entry) (node : NodeKey) (why : Fault) →
        fault (timeline pool history) node ≡ Some why →
        fault (timeline pool (history ++ more)) node ≡ Some why }
    ensures not_live { (marks : Timeline) (node : NodeKey) → gone marks node ≡ true →
        live marks node ≡ false }
    ensures above { (pool : ℕ) (limits : Bound) (history : List Entry) →
        IsLegal pool limits history →
        (node : NodeKey) → gone (timeline pool history) node ≡ false →
        list_any (gone (timeline pool history)) (ancestors (births (timeline pool history)) node)
        ≡ false }
    ensures live { (marks : Timeline) (node : NodeKey) → was_born (births marks) node ≡ true →
        live marks node ≡ (not (gone marks node) && not (released marks node)) }
    ensures listed { (pool : ℕ) (limits : Bound) (history : List Entry) →
        IsLegal pool limits history →
        (node : NodeKey) → times (λ k. same_key k node) (live_nodes (timeline pool history))
        ≡ (if live (timeline pool history) node then 1 else 0) }
{}

/// A tracker that fired stays fired, at the same event.
pub fn fired_is_for_good()
    ensures { (pool : ℕ) (history more : List Entry) (t : Tracked) (event : ℕ) →
        fired_at (timeline pool history) t ≡ Some event →
        fired_at (timeline pool (history ++ more)) t ≡ Some event }
{}

/// A node whose end is spent is gone or released. So once every end is spent and every handle is
/// dropped, no node is live, no page is held, and the whole pool is free.
pub fn spent_ends_and_dropped_handles_free_all()
    ensures spent { (pool : ℕ) (limits : Bound) (history : List Entry) →
        IsLegal pool limits history →
        (node : NodeKey) → spent (timeline pool history) node ≡ true →
        (gone (timeline pool history) node || released (timeline pool history) node) ≡ true }
    ensures live { (pool : ℕ) (limits : Bound) (history : List Entry) →
        IsLegal pool limits history →
        ((node : NodeKey) → was_born (births (timeline pool history)) node ≡ true →
        spent (timeline pool history) node ≡ true) →
        live_nodes (timeline pool history) ≡ [] }
    ensures held { (pool : ℕ) (limits : Bound) (history : List Entry) →
        IsLegal pool limits history →
        ((node : NodeKey) → was_born (births (timeline pool history)) node ≡ true →
        spent (timeline pool history) node ≡ true) →
        ((buffer : BufferName) (strength : Strength) →
        open_total (timeline pool history) buffer strength ≡ 0) →
        held pool (timeline pool history) ≡ [] }
    ensures free { (pool : ℕ) (limits : Bound) (history : List Entry) →
        IsLegal pool limits history →
        ((node : NodeKey) → was_born (births (timeline pool history)) node ≡ true →
        spent (timeline pool history) node ≡ true) →
        ((buffer : BufferName) (strength : Strength) →
        open_total (timeline pool history) buffer strength ≡ 0) →
        free_pages pool (timeline pool history) ≡ pool }
{}
