//! What happens in one collection stays in it.
ghost use Rattle.std.specs.Prelude.{◌≡◌, ◌∷◌, ◌++◌, ◌==◌, ℕ, [], List, Some, None, true, false};
ghost use Rattle.sm_names.specs.declared.keys.NodeKey.{NodeKey};
ghost use Rattle.sm_names.specs.declared.outcomes.Cause.{Cause};
ghost use Rattle.sm_names.specs.Births.{births, collection_in};
ghost use Rattle.sm_names.specs.Bounds.{Bound};
ghost use Rattle.sm_names.specs.Isolation.{IsAsBefore, collection_at};
ghost use Rattle.sm_names.specs.Legality.{IsLegal};
ghost use Rattle.sm_names.specs.Losses.{reaches};
ghost use Rattle.sm_names.specs.Marks.{Entry, Loss, Allocated, Ended};
ghost use Rattle.sm_names.specs.Members.{members};
ghost use Rattle.sm_names.specs.Timelines.{timeline, next_forced};

/// A loss takes nodes of its own collection alone, and no loss, allocation or end of one collection
/// changes how the nodes of another stand.
pub fn collections_are_apart()
    ensures reach { (pool : ℕ) (limits : Bound) (history : List Entry) →
        IsLegal pool limits history →
        (origin node : NodeKey) → reaches (timeline pool history) origin node ≡ true →
        collection_in (births (timeline pool history)) node
        ≡ collection_in (births (timeline pool history)) origin }
    ensures loss { (pool : ℕ) (limits : Bound) (history : List Entry) →
        IsLegal pool limits history →
        (ours theirs : ℕ) → (ours == theirs) ≡ false → (origin : NodeKey) (cause : Cause) →
        collection_in (births (timeline pool history)) origin ≡ Some ours →
        members (Loss origin cause ∷ timeline pool history) theirs
        ≡ members (timeline pool history) theirs }
    ensures allocation { (pool : ℕ) (limits : Bound) (history : List Entry) →
        IsLegal pool limits history →
        (ours theirs : ℕ) → (ours == theirs) ≡ false → (head : NodeKey) →
        collection_in (births (timeline pool history)) head ≡ Some ours →
        members (Allocated head ∷ timeline pool history) theirs
        ≡ members (timeline pool history) theirs }
    ensures end { (pool : ℕ) (limits : Bound) (history : List Entry) → IsLegal pool limits history →
        (ours theirs : ℕ) → (ours == theirs) ≡ false → (top : NodeKey) →
        collection_in (births (timeline pool history)) top ≡ Some ours →
        members (Ended top ∷ timeline pool history) theirs
        ≡ members (timeline pool history) theirs }
{}

/// An event changes nothing in any collection but its own: how its nodes stand, what it was given,
/// the handles on its buffers, which of them are doomed or home, the pages that they hold, what its
/// ends answer, and when its trackers fired. An event that names no collection changes nothing in
/// any. Only the holder of an end may change.
pub fn events_stay_in_their_collection()
    ensures { (pool : ℕ) (limits : Bound) (history : List Entry) (entry : Entry) →
        IsLegal pool limits (history ++ entry ∷ []) → (collection : ℕ) →
        (collection_at (timeline pool history) entry ≡ Some collection → ⊥) →
        IsAsBefore pool (timeline pool history) (timeline pool (history ++ entry ∷ [])) collection }
{}

/// In a legal history each collection is at rest between two events: none of its forced steps
/// applies.
pub fn every_collection_rests()
    ensures { (pool : ℕ) (limits : Bound) (history : List Entry) → IsLegal pool limits history →
        (collection : ℕ) →
        next_forced pool collection (timeline pool history) ≡ None }
{}
