//! What worked runs show of nodes that are released, and of what stays of them.
ghost use Rattle.std.specs.Prelude.{◌≡◌, [], take, ◌∷◌};
ghost use Rattle.sm_names.specs.declared.messages.Reply.{Reply};
ghost use Rattle.sm_names.specs.declared.outcomes.Cause.{Cause};
ghost use Rattle.sm_names.specs.declared.outcomes.Failure.{Failure};
ghost use Rattle.sm_names.specs.Legality.{IsLegal};
ghost use Rattle.worked_runs.specs.Words.{answered_instead, full, key};
ghost use Rattle.sm_names.specs.Timelines.{timeline};
ghost use Rattle.sm_names.specs.Views.{live_nodes};
ghost use Rattle.worked_runs.specs.Releases.{child_released, orphan_asks, failed_counts_return, released_counts_stay};

/// A child that is released asks for nothing and fails nobody.
pub fn a_release_fails_nobody()
    ensures legal { IsLegal 16 full child_released }
    ensures live { live_nodes (timeline 16 child_released) ≡ key 0 ∷ [] }
    ensures not_closed { IsLegal 16 full
        (answered_instead (Reply.PeerClosed Cause.Lost (key 1)) child_released) → ⊥ }
    ensures not_pending { IsLegal 16 full (answered_instead Reply.Pending child_released) → ⊥ }
{}

/// What a released participant asked for still counts in the allocation.
pub fn an_orphan_still_asks()
    ensures legal { IsLegal 16 full orphan_asks }
    ensures not_allocated { IsLegal 16 full
        (answered_instead (Reply.Allocated 1 4096) orphan_asks) → ⊥ }
{}

/// A released participant keeps the buffers that it camps on; a failed one gives them back.
pub fn an_orphan_keeps_its_count()
    ensures failed_counts_return { IsLegal 16 full failed_counts_return }
    ensures not_closed { IsLegal 16 full
        (answered_instead (Reply.PeerClosed (Cause.Failed Failure.TooFew) (key 2))
        (take 13 failed_counts_return)) → ⊥ }
    ensures not_allocated_1 { IsLegal 16 full
        (answered_instead (Reply.Allocated 2 4096) (take 17 failed_counts_return)) → ⊥ }
    ensures released_counts_stay { IsLegal 16 full released_counts_stay }
    ensures not_allocated_2 { IsLegal 16 full
        (answered_instead (Reply.Allocated 2 4096) released_counts_stay) → ⊥ }
{}
