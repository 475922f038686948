//! What worked runs show of the initial allocation, and of where buffers go in the pool.
ghost use Rattle.std.specs.Prelude.{◌≡◌, [], take, ◌∷◌};
ghost use Rattle.sm_names.specs.declared.messages.Reply.{Reply};
ghost use Rattle.sm_names.specs.declared.outcomes.Cause.{Cause};
ghost use Rattle.sm_names.specs.declared.outcomes.Failure.{Failure};
ghost use Rattle.sm_names.specs.Legality.{IsLegal};
ghost use Rattle.worked_runs.specs.Words.{answered_instead, at, buffer, full, key};
ghost use Rattle.sm_names.specs.Timelines.{timeline};
ghost use Rattle.sm_names.specs.Trackers.{fired};
ghost use Rattle.sm_names.specs.Views.{free_pages, held_by_page, live_nodes};
ghost use Rattle.worked_runs.specs.Allocation.{nothing, two_buffers, most_buffers, too_many_buffers, too_many_for_the_pool_too, pool_full, weak_and_no_buffers, holes, scattered_pages, two_holes, buffers_apart};

/// Before the first call no node is live, nothing is held, and the whole pool is free.
pub fn nothing_is_held_at_first()
    ensures legal { IsLegal 16 full nothing }
    ensures live { live_nodes (timeline 16 nothing) ≡ [] }
    ensures held { held_by_page 16 (timeline 16 nothing) ≡ [] }
    ensures fired { fired (timeline 16 nothing) ≡ [] }
    ensures free { free_pages 16 (timeline 16 nothing) ≡ 16 }
{}

/// A client asks for two buffers and gets two, at the first pages, and no other answer is legal.
pub fn buffers_are_allocated()
    ensures legal { IsLegal 16 full two_buffers }
    ensures held { held_by_page 16 (timeline 16 two_buffers)
        ≡ at (buffer 2 0) 0 2 ∷ at (buffer 2 1) 2 2 ∷ [] }
    ensures free { free_pages 16 (timeline 16 two_buffers) ≡ 12 }
    ensures not_allocated { IsLegal 16 full
        (answered_instead (Reply.Allocated 3 8192) two_buffers) → ⊥ }
    ensures not_pending { IsLegal 16 full (answered_instead Reply.Pending two_buffers) → ⊥ }
    ensures not_closed { IsLegal 16 full
        (answered_instead (Reply.PeerClosed (Cause.Failed Failure.NoBuffers) (key 0)) two_buffers) →
        ⊥ }
{}

/// What two participants camp on is summed: 64 buffers are allocated and 65 fail the collection, and
/// that before the pool is looked at.
pub fn no_more_than_64_buffers_are_allocated()
    ensures most_buffers { IsLegal 64 full most_buffers }
    ensures free_1 { free_pages 64 (timeline 64 most_buffers) ≡ 0 }
    ensures not_allocated_1 { IsLegal 64 full
        (answered_instead (Reply.Allocated 32 4096) most_buffers) → ⊥ }
    ensures not_closed_1 { IsLegal 64 full
        (answered_instead
        (Reply.PeerClosed (Cause.Failed Failure.TooManyBuffers) (key 0)) most_buffers) → ⊥ }
    ensures too_many_buffers { IsLegal 64 full too_many_buffers }
    ensures free_2 { free_pages 64 (timeline 64 too_many_buffers) ≡ 64 }
    ensures not_allocated_2 { IsLegal 64 full
        (answered_instead (Reply.Allocated 64 4096) too_many_buffers) → ⊥ }
    ensures not_allocated_3 { IsLegal 64 full
        (answered_instead (Reply.Allocated 65 4096) too_many_buffers) → ⊥ }
    ensures too_many_for_the_pool_too { IsLegal 16 full too_many_for_the_pool_too }
    ensures not_closed_2 { IsLegal 16 full
        (answered_instead
        (Reply.PeerClosed (Cause.Failed Failure.PoolFull) (key 0)) too_many_for_the_pool_too)
        → ⊥ }
{}

/// A buffer of more pages than are free fails the collection, and takes no page.
pub fn a_full_pool_fails_the_collection()
    ensures legal { IsLegal 16 full pool_full }
    ensures live { live_nodes (timeline 16 pool_full) ≡ [] }
    ensures free { free_pages 16 (timeline 16 pool_full) ≡ 16 }
    ensures not_allocated { IsLegal 16 full
        (answered_instead (Reply.Allocated 1 65537) pool_full) → ⊥ }
    ensures not_pending { IsLegal 16 full (answered_instead Reply.Pending pool_full) → ⊥ }
{}

/// No strong node is live, no buffers are asked for, too many are: the first of these that applies
/// is the failure.
pub fn no_strong_node_is_looked_at_first()
    ensures legal { IsLegal 16 full weak_and_no_buffers }
    ensures not_closed { IsLegal 16 full
        (answered_instead
        (Reply.PeerClosed (Cause.Failed Failure.NoBuffers) (key 0)) weak_and_no_buffers)
        → ⊥ }
{}

/// A buffer is placed in the first hole that is long enough; pages that come back join the holes
/// beside them.
pub fn holes_are_filled_and_merged()
    ensures holes { IsLegal 16 full holes }
    ensures held_1 { held_by_page 16 (timeline 16 (take 18 holes))
        ≡ at (buffer 2 0) 0 4 ∷ at (buffer 16 0) 4 4 ∷ at (buffer 8 0) 8 8 ∷ [] }
    ensures held_2 { held_by_page 16 (timeline 16 holes)
        ≡ at (buffer 21 0) 0 8 ∷ at (buffer 8 0) 8 8 ∷ [] }
    ensures scattered_pages { IsLegal 16 full scattered_pages }
    ensures free { free_pages 16 (timeline 16 (take 15 scattered_pages)) ≡ 8 }
    ensures not_allocated { IsLegal 16 full
        (answered_instead (Reply.Allocated 1 20480) scattered_pages) → ⊥ }
    ensures two_holes { IsLegal 16 full two_holes }
    ensures held_3 { held_by_page 16 (timeline 16 two_holes)
        ≡ at (buffer 16 0) 0 3 ∷ at (buffer 5 0) 5 4 ∷ at (buffer 11 0) 12 4 ∷ [] }
    ensures buffers_apart { IsLegal 16 full buffers_apart }
    ensures held_4 { held_by_page 16 (timeline 16 buffers_apart)
        ≡ at (buffer 9 0) 0 3 ∷ at (buffer 5 0) 4 4 ∷ at (buffer 9 1) 8 3 ∷ [] }
{}
