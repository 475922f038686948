//! What worked runs show of weak nodes and weak handles.
ghost use Rattle.std.specs.Prelude.{◌≡◌, Some, [], take, ◌∷◌};
ghost use Rattle.sm_names.specs.declared.keys.Strength.{Strength};
ghost use Rattle.sm_names.specs.declared.messages.Reply.{Reply};
ghost use Rattle.sm_names.specs.declared.outcomes.Misuse.{Misuse};
ghost use Rattle.sm_names.specs.declared.tracking.Condition.{Condition};
ghost use Rattle.sm_names.specs.Legality.{IsLegal};
ghost use Rattle.worked_runs.specs.Words.{answered_instead, at, buffer, full, key, tracking};
ghost use Rattle.sm_names.specs.Timelines.{timeline};
ghost use Rattle.sm_names.specs.Trackers.{fired_at};
ghost use Rattle.sm_names.specs.Views.{held_by_page};
ghost use Rattle.worked_runs.specs.Weak.{weak_not_ok, weak_ok_for_children, weak_ok_stays, weak_ok_too_late, weak_ok_for_grandchildren, attached_to_weak, weak_ok_across_attached, weak_after_birth, weak_holders, last_handle_dropped};

/// A weak node that takes buffers, for which nobody sent SetWeakOk, fails; an ancestor that sent it
/// for children covers those born after, for good.
pub fn a_weak_node_takes_only_if_weak_is_ok()
    ensures weak_not_ok { IsLegal 16 full weak_not_ok }
    ensures not_taken_1 { IsLegal 16 full
        (answered_instead (Reply.Taken 2 Strength.Weak 1) (take 12 weak_not_ok)) → ⊥ }
    ensures not_allocated { IsLegal 16 full
        (answered_instead (Reply.Allocated 1 4096) weak_not_ok) → ⊥ }
    ensures weak_ok_for_children { IsLegal 16 full weak_ok_for_children }
    ensures not_misused_1 { IsLegal 16 full
        (answered_instead (Reply.Misused Misuse.WeakNotOk) (take 13 weak_ok_for_children)) → ⊥ }
    ensures not_taken_2 { IsLegal 16 full
        (answered_instead (Reply.Taken 2 Strength.Strong 1) (take 13 weak_ok_for_children)) → ⊥ }
    ensures weak_ok_stays { IsLegal 16 full weak_ok_stays }
    ensures not_misused_2 { IsLegal 16 full
        (answered_instead (Reply.Misused Misuse.WeakNotOk) (take 14 weak_ok_stays)) → ⊥ }
    ensures weak_ok_too_late { IsLegal 16 full weak_ok_too_late }
    ensures not_taken_3 { IsLegal 16 full
        (answered_instead (Reply.Taken 2 Strength.Weak 1) (take 13 weak_ok_too_late)) → ⊥ }
{}

/// SetWeakOk for children covers grandchildren too, and attached ones; and children of a weak node
/// are weak, attached ones too.
pub fn weak_ok_reaches_all_descendants()
    ensures weak_ok_for_grandchildren { IsLegal 16 full weak_ok_for_grandchildren }
    ensures not_misused_1 { IsLegal 16 full
        (answered_instead (Reply.Misused Misuse.WeakNotOk) weak_ok_for_grandchildren) → ⊥ }
    ensures attached_to_weak { IsLegal 16 full attached_to_weak }
    ensures not_taken { IsLegal 16 full
        (answered_instead (Reply.Taken 2 Strength.Strong 1) attached_to_weak) → ⊥ }
    ensures weak_ok_across_attached { IsLegal 16 full weak_ok_across_attached }
    ensures not_misused_2 { IsLegal 16 full
        (answered_instead (Reply.Misused Misuse.WeakNotOk) weak_ok_across_attached) → ⊥ }
{}

/// SetWeak makes the node weak, and not the children that it has.
pub fn weak_is_for_those_born_after()
    ensures legal { IsLegal 16 full weak_after_birth }
    ensures not_taken_1 { IsLegal 16 full
        (answered_instead (Reply.Taken 2 Strength.Weak 1) (take 12 weak_after_birth)) → ⊥ }
    ensures not_taken_2 { IsLegal 16 full
        (answered_instead (Reply.Taken 2 Strength.Strong 1) weak_after_birth) → ⊥ }
{}

/// A weak node and weak handles keep no buffer alive: the collection fails once nothing strong is
/// left. But the pages of a buffer go back only with its last handle.
pub fn weak_handles_keep_only_pages()
    ensures legal { IsLegal 16 full weak_holders }
    ensures held_1 { held_by_page 16 (timeline 16 (take 14 weak_holders))
        ≡ at (buffer 2 0) 0 1 ∷ at (buffer 2 1) 1 1 ∷ [] }
    ensures fires_1 { fired_at (timeline 16 (take 16 weak_holders))
        (tracking 12 (Condition.Weak (buffer 2 1)))
        ≡ Some 16 }
    ensures held_2 { held_by_page 16 (timeline 16 (take 17 weak_holders))
        ≡ at (buffer 2 0) 0 1 ∷ at (buffer 2 1) 1 1 ∷ [] }
    ensures held_3 { held_by_page 16 (timeline 16 (take 18 weak_holders))
        ≡ at (buffer 2 1) 1 1 ∷ [] }
    ensures held_4 { held_by_page 16 (timeline 16 weak_holders) ≡ [] }
    ensures fires_2 { fired_at (timeline 16 weak_holders)
        (tracking 11 (Condition.Lifetime (key 1) 2 0))
        ≡ Some 20 }
    ensures not_taken { IsLegal 16 full
        (answered_instead (Reply.Taken 2 Strength.Weak 3) (take 15 weak_holders)) → ⊥ }
    ensures not_pending { IsLegal 16 full
        (answered_instead Reply.Pending (take 17 weak_holders)) → ⊥ }
    ensures not_allocated { IsLegal 16 full
        (answered_instead (Reply.Allocated 2 4096) (take 17 weak_holders)) → ⊥ }
{}

/// A buffer is held until its last handle is dropped.
pub fn the_last_strong_handle_keeps_its_buffer()
    ensures legal { IsLegal 16 full last_handle_dropped }
    ensures held_1 { held_by_page 16 (timeline 16 (take 8 last_handle_dropped))
        ≡ at (buffer 2 0) 0 1 ∷ [] }
    ensures held_2 { held_by_page 16 (timeline 16 (take 9 last_handle_dropped)) ≡ [] }
    ensures not_done { IsLegal 16 full (answered_instead Reply.Done last_handle_dropped) → ⊥ }
{}
