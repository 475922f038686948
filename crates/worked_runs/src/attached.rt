//! What worked runs show of attached subtrees, and of logical allocation.
ghost use Rattle.std.specs.Prelude.{◌≡◌, [], take, ◌∷◌};
ghost use Rattle.sm_names.specs.declared.messages.Reply.{Reply};
ghost use Rattle.sm_names.specs.declared.outcomes.Cause.{Cause};
ghost use Rattle.sm_names.specs.declared.outcomes.Failure.{Failure};
ghost use Rattle.sm_names.specs.declared.outcomes.Refusal.{Refusal};
ghost use Rattle.sm_names.specs.Legality.{IsLegal};
ghost use Rattle.worked_runs.specs.Words.{answered_instead, at, buffer, full, key};
ghost use Rattle.sm_names.specs.Timelines.{timeline};
ghost use Rattle.sm_names.specs.Views.{free_pages, held_by_page};
ghost use Rattle.worked_runs.specs.Attached.{attached_closed, too_large, at_least_two, too_few_and_too_small, bytes_and_not_pages, two_attached, nested_attached, unready_below, checked_by_its_unit, attached_released, attached_with_a_child, attached_below_attached, attached_keeps, attached_token_keeps};

/// An attached node that is closed fails nobody above it; a parent that is closed fails it.
pub fn an_attached_failure_stops()
    ensures legal { IsLegal 16 full attached_closed }
    ensures free { free_pages 16 (timeline 16 attached_closed) ≡ 16 }
    ensures not_closed { IsLegal 16 full
        (answered_instead (Reply.PeerClosed Cause.Lost (key 1)) (take 7 attached_closed)) → ⊥ }
    ensures not_refused { IsLegal 16 full
        (answered_instead (Reply.Refused Refusal.WrongKind) attached_closed) → ⊥ }
{}

/// An attached subtree that asks for more or larger buffers than there are fails alone; if both, by
/// TooFew.
pub fn an_attached_subtree_fails_alone()
    ensures too_large { IsLegal 16 full too_large }
    ensures not_allocated_1 { IsLegal 16 full
        (answered_instead (Reply.Allocated 1 4096) (take 6 too_large)) → ⊥ }
    ensures not_allocated_2 { IsLegal 16 full
        (answered_instead (Reply.Allocated 2 4096) (take 13 too_large)) → ⊥ }
    ensures not_closed_1 { IsLegal 16 full
        (answered_instead (Reply.PeerClosed (Cause.Failed Failure.TooSmall) (key 2)) too_large) →
        ⊥ }
    ensures at_least_two { IsLegal 16 full at_least_two }
    ensures not_allocated_3 { IsLegal 16 full
        (answered_instead (Reply.Allocated 1 4096) at_least_two) → ⊥ }
    ensures too_few_and_too_small { IsLegal 16 full too_few_and_too_small }
    ensures not_closed_2 { IsLegal 16 full
        (answered_instead
        (Reply.PeerClosed (Cause.Failed Failure.TooSmall) (key 1)) too_few_and_too_small)
        → ⊥ }
    ensures bytes_and_not_pages { IsLegal 16 full bytes_and_not_pages }
    ensures not_allocated_4 { IsLegal 16 full
        (answered_instead (Reply.Allocated 2 4095) bytes_and_not_pages) → ⊥ }
{}

/// Buffers go to attached subtrees after the one above them, first come, first served, and never
/// wait for one below.
pub fn attached_subtrees_wait_for_the_one_above()
    ensures two_attached { IsLegal 16 full two_attached }
    ensures not_allocated_1 { IsLegal 16 full
        (answered_instead (Reply.Allocated 1 1) (take 10 two_attached)) → ⊥ }
    ensures not_closed { IsLegal 16 full
        (answered_instead (Reply.PeerClosed (Cause.Failed Failure.TooFew) (key 1))
        (take 12 two_attached)) → ⊥ }
    ensures not_allocated_2 { IsLegal 16 full
        (answered_instead (Reply.Allocated 2 4096) two_attached) → ⊥ }
    ensures nested_attached { IsLegal 16 full nested_attached }
    ensures not_allocated_3 { IsLegal 16 full
        (answered_instead (Reply.Allocated 1 4096) (take 10 nested_attached)) → ⊥ }
    ensures unready_below { IsLegal 16 full unready_below }
    ensures not_pending_1 { IsLegal 16 full
        (answered_instead Reply.Pending (take 8 unready_below)) → ⊥ }
    ensures not_pending_2 { IsLegal 16 full (answered_instead Reply.Pending unready_below) → ⊥ }
    ensures checked_by_its_unit { IsLegal 16 full checked_by_its_unit }
    ensures not_allocated_4 { IsLegal 16 full
        (answered_instead (Reply.Allocated 1 4096) (take 7 checked_by_its_unit)) → ⊥ }
{}

/// An attached node that is released leaves once no node at or below it is live, and gives its
/// counts back.
pub fn an_attached_subtree_ends()
    ensures attached_released { IsLegal 16 full attached_released }
    ensures not_closed_1 { IsLegal 16 full
        (answered_instead (Reply.PeerClosed (Cause.Failed Failure.TooFew) (key 2))
        (take 13 attached_released)) → ⊥ }
    ensures attached_with_a_child { IsLegal 16 full attached_with_a_child }
    ensures not_allocated_1 { IsLegal 16 full
        (answered_instead (Reply.Allocated 2 4096) (take 16 attached_with_a_child)) → ⊥ }
    ensures not_closed_2 { IsLegal 16 full
        (answered_instead
        (Reply.PeerClosed (Cause.Failed Failure.TooFew) (key 4)) attached_with_a_child)
        → ⊥ }
    ensures attached_below_attached { IsLegal 16 full attached_below_attached }
    ensures not_allocated_2 { IsLegal 16 full
        (answered_instead (Reply.Allocated 3 4096) (take 15 attached_below_attached)) → ⊥ }
{}

/// A strong node that is attached, even an unbound token, keeps the collection and its buffers.
pub fn a_strong_attached_node_counts()
    ensures attached_keeps { IsLegal 16 full attached_keeps }
    ensures held { held_by_page 16 (timeline 16 attached_keeps)
        ≡ at (buffer 2 0) 0 1 ∷ at (buffer 2 1) 1 1 ∷ [] }
    ensures not_closed_1 { IsLegal 16 full
        (answered_instead (Reply.PeerClosed Cause.NoStrong (key 0)) attached_keeps) → ⊥ }
    ensures attached_token_keeps { IsLegal 16 full attached_token_keeps }
    ensures not_done { IsLegal 16 full (answered_instead Reply.Done attached_token_keeps) → ⊥ }
    ensures not_closed_2 { IsLegal 16 full
        (answered_instead
        (Reply.PeerClosed (Cause.Failed Failure.NoStrong) (key 0)) attached_token_keeps)
        → ⊥ }
{}
