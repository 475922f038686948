//! What worked runs show of failures, and of which nodes they take along.
ghost use Rattle.std.specs.Prelude.{◌≡◌, [], take, ◌∷◌};
ghost use Rattle.sm_names.specs.declared.messages.Reply.{Reply};
ghost use Rattle.sm_names.specs.declared.outcomes.Cause.{Cause};
ghost use Rattle.sm_names.specs.declared.outcomes.Refusal.{Refusal};
ghost use Rattle.sm_names.specs.Legality.{IsLegal};
ghost use Rattle.worked_runs.specs.Words.{answered_instead, full, key};
ghost use Rattle.sm_names.specs.Timelines.{timeline};
ghost use Rattle.sm_names.specs.Views.{live_nodes};
ghost use Rattle.worked_runs.specs.Failures.{child_lost, lost_through_orphan, dispensable_lost_before, dispensable_lost_after, child_of_dispensable_lost, dispensable_after_its_child, failed_and_then_lost, failed_and_abandoned, end_spent};

/// A child that is closed without Release fails its parent, and with it the other child; a call on
/// any of them is answered the origin.
pub fn a_failure_goes_up_to_the_root()
    ensures legal { IsLegal 16 full child_lost }
    ensures live { live_nodes (timeline 16 (take 6 child_lost)) ≡ [] }
    ensures not_pending { IsLegal 16 full (answered_instead Reply.Pending (take 6 child_lost)) → ⊥ }
    ensures not_refused { IsLegal 16 full
        (answered_instead (Reply.Refused Refusal.WrongKind) (take 6 child_lost)) → ⊥ }
    ensures not_done { IsLegal 16 full (answered_instead Reply.Done (take 7 child_lost)) → ⊥ }
{}

/// The failure of a child of a released node climbs through it.
pub fn a_failure_passes_through_an_orphan()
    ensures legal { IsLegal 16 full lost_through_orphan }
    ensures not_done { IsLegal 16 full (answered_instead Reply.Done lost_through_orphan) → ⊥ }
{}

/// The failure of a dispensable child fails the parent before the allocation, and not after it.
pub fn a_failure_stops_at_an_allocated_dispensable_child()
    ensures dispensable_lost_before { IsLegal 16 full dispensable_lost_before }
    ensures not_allocated_1 { IsLegal 16 full
        (answered_instead (Reply.Allocated 1 4096) dispensable_lost_before) → ⊥ }
    ensures dispensable_lost_after { IsLegal 16 full dispensable_lost_after }
    ensures live { live_nodes (timeline 16 dispensable_lost_after) ≡ key 0 ∷ [] }
    ensures not_closed { IsLegal 16 full
        (answered_instead (Reply.PeerClosed Cause.Lost (key 1)) dispensable_lost_after) → ⊥ }
    ensures not_allocated_2 { IsLegal 16 full
        (answered_instead (Reply.Allocated 1 4096) dispensable_lost_after) → ⊥ }
{}

/// The failure of a normal child of a dispensable node climbs to that node and stops there, also
/// where the child was born first.
pub fn a_failure_goes_to_the_dispensable_parent()
    ensures child_of_dispensable_lost { IsLegal 16 full child_of_dispensable_lost }
    ensures not_allocated { IsLegal 16 full
        (answered_instead (Reply.Allocated 3 4096) (take 13 child_of_dispensable_lost)) → ⊥ }
    ensures not_closed_1 { IsLegal 16 full
        (answered_instead (Reply.PeerClosed Cause.Lost (key 2)) child_of_dispensable_lost) → ⊥ }
    ensures dispensable_after_its_child { IsLegal 16 full dispensable_after_its_child }
    ensures not_closed_2 { IsLegal 16 full
        (answered_instead (Reply.PeerClosed Cause.Lost (key 2)) dispensable_after_its_child) → ⊥ }
{}

/// A node that failed keeps its first cause and origin, though a later failure reaches it too.
pub fn the_first_failure_is_told()
    ensures failed_and_then_lost { IsLegal 16 full failed_and_then_lost }
    ensures not_closed_1 { IsLegal 16 full
        (answered_instead (Reply.PeerClosed Cause.Lost (key 0)) failed_and_then_lost) → ⊥ }
    ensures failed_and_abandoned { IsLegal 16 full failed_and_abandoned }
    ensures not_closed_2 { IsLegal 16 full
        (answered_instead (Reply.PeerClosed Cause.NoStrong (key 0))
        (take 14 failed_and_abandoned)) → ⊥ }
{}

/// A closed end is spent, and its collection leaves the others as they are.
pub fn ends_are_spent_once()
    ensures legal { IsLegal 16 full end_spent }
    ensures not_closed { IsLegal 16 full
        (answered_instead (Reply.PeerClosed Cause.Lost (key 0)) (take 5 end_spent)) → ⊥ }
    ensures not_refused { IsLegal 16 full
        (answered_instead (Reply.Refused Refusal.NoSuchEnd) end_spent) → ⊥ }
{}
