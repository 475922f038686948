//! What holds of every legal history, and how it is extended.
ghost use Rattle.std.specs.Prelude.{◌≡◌, ◌≤◌, ◌∷◌, ◌++◌, ◌↔◌, ◌<◌, ℕ, List, [], length, drop, Some, None, is_some, true, false, ◌+◌, ◌==◌};
ghost use Rattle.sm_names.specs.declared.keys.BufferName.{BufferName};
ghost use Rattle.sm_names.specs.declared.keys.NodeKey.{NodeKey};
ghost use Rattle.sm_names.specs.declared.keys.Strength.{Strength};
ghost use Rattle.sm_names.specs.declared.messages.Parcel.{Parcel};
ghost use Rattle.sm_names.specs.Answers.{IsAnswer, Readings};
ghost use Rattle.sm_names.specs.Births.{births, collection_in, AreSound};
ghost use Rattle.sm_names.specs.Bounds.{Bound};
ghost use Rattle.sm_names.specs.Ends.{spent, parcels, given_at, collects};
ghost use Rattle.sm_names.specs.Handles.{opens, drops, lifts, lands};
ghost use Rattle.sm_names.specs.Legality.{IsLegal, AreAnswers, Tells};
ghost use Rattle.sm_names.specs.Losses.{parent_of, gone, fault};
ghost use Rattle.sm_names.specs.Marks.{Entry, Mark, Timeline, events};
ghost use Rattle.sm_names.specs.Reading.{readings};
ghost use Rattle.sm_names.specs.Timelines.{timeline, after};
ghost use Rattle.sm_names.specs.Views.{Views};
ghost use Rattle.sm_names.specs.Words.{times};

/// A legal history is extended by one answer at a time.
pub fn histories_grow()
    ensures marks { (pool : ℕ) (history : List Entry) (entry : Entry) →
        timeline pool (history ++ entry ∷ []) ≡ after pool (timeline pool history) entry }
    ensures answers { (pool : ℕ) (limits : Bound) (history : List Entry) (entry : Entry) →
        AreAnswers pool limits [] (history ++ entry ∷ [])
        ↔ (AreAnswers pool limits [] history
        × IsAnswer limits (readings (timeline pool history)) entry.0 entry.1 entry.2) }
{}

/// If what is read and seen is that of a legal history, one more answer by the table extends it to
/// a legal history.
pub fn answers_extend()
    ensures { (pool : ℕ) (limits : Bound) (history : List Entry) (read : Readings) (seen : Views)
        (entry : Entry) →
        IsLegal pool limits history → Tells pool history read seen →
        length history < limits.events →
        IsAnswer limits read entry.0 entry.1 entry.2 → IsLegal pool limits (history ++ entry ∷ []) }
{}

/// In a legal history no node is born twice, and each child is born after its parent.
pub fn births_are_sound()
    ensures { (pool : ℕ) (limits : Bound) (history : List Entry) → IsLegal pool limits history →
        AreSound (births (timeline pool history)) }
{}

/// In a legal history a child is in its parent's collection, and gone if its parent is.
pub fn lines_hold_together()
    ensures collection { (pool : ℕ) (limits : Bound) (history : List Entry) →
        IsLegal pool limits history → (child parent : NodeKey) →
        parent_of (timeline pool history) child ≡ Some parent →
        collection_in (births (timeline pool history)) child
        ≡ collection_in (births (timeline pool history)) parent }
    ensures gone { (pool : ℕ) (limits : Bound) (history : List Entry) →
        IsLegal pool limits history →
        (child parent : NodeKey) →
        parent_of (timeline pool history) child ≡ Some parent →
        gone (timeline pool history) parent ≡ true → gone (timeline pool history) child ≡ true }
{}

/// In a legal history a node that is gone while its end is not spent has failed: no open end names
/// a node that is gone because its subtree ended.
pub fn gone_ends_have_failed()
    ensures { (pool : ℕ) (limits : Bound) (history : List Entry) → IsLegal pool limits history →
        (node : NodeKey) →
        gone (timeline pool history) node ≡ true → spent (timeline pool history) node ≡ false →
        is_some (fault (timeline pool history) node) ≡ true }
{}

/// In a legal history a parcel for a client waits behind its earlier ones, and the client's Collect
/// takes the first.
pub fn parcels_wait_in_order()
    ensures given { (pool : ℕ) (limits : Bound) (history : List Entry) →
        IsLegal pool limits history →
        (mark : Mark) (client : ℕ) (parcel : Parcel) →
        collects client mark ≡ false → given_at client mark ≡ Some parcel →
        parcels (mark ∷ timeline pool history) client
        ≡ parcels (timeline pool history) client ++ parcel ∷ [] }
    ensures collected { (marks : Timeline) (mark : Mark) (client : ℕ) →
        collects client mark ≡ true → given_at client mark ≡ None →
        parcels (mark ∷ marks) client ≡ drop 1 (parcels marks client) }
{}

/// In a legal history no client drops and gives more handles than it took, duplicated and
/// collected.
pub fn handles_are_paid_for()
    ensures { (pool : ℕ) (limits : Bound) (history : List Entry) → IsLegal pool limits history →
        (client : ℕ) (buffer : BufferName) (strength : Strength) →
        times (drops (λ c. c == client) buffer strength) (timeline pool history)
        + times (lifts (λ c. c == client) buffer strength) (timeline pool history)
        ≤ times (opens (λ c. c == client) buffer strength) (timeline pool history)
        + times (lands (λ c. c == client) buffer strength) (timeline pool history) }
{}
