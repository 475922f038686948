//! What worked runs show of misuses, limits and the order in which a call is looked at.
ghost use Rattle.std.specs.Prelude.{◌≡◌, [], take, ◌∷◌, ◌++◌};
ghost use Rattle.sm_names.specs.declared.keys.Strength.{Strength};
ghost use Rattle.sm_names.specs.declared.messages.Call.{Call};
ghost use Rattle.sm_names.specs.declared.messages.Reply.{Reply};
ghost use Rattle.sm_names.specs.declared.outcomes.Refusal.{Refusal};
ghost use Rattle.sm_names.specs.Legality.{IsLegal};
ghost use Rattle.sm_names.specs.Timelines.{timeline};
ghost use Rattle.sm_names.specs.Views.{live_nodes};
ghost use Rattle.worked_runs.specs.Words.{answered_instead, full, key};
ghost use Rattle.worked_runs.specs.Answered.{wrong_kinds, second_constraints, late_weak, late_weak_ok, weak_takes_early, misuse_before_limits, nodes_full, collections_full, trackers_full, handles_full, history_full, gift_of_a_spent_end, strangers, given_to_nobody, forged_keys};
ghost use Rattle.worked_runs.specs.Failures.{end_spent};

/// A call for an end of the other kind is refused and changes nothing.
pub fn kinds_are_told_apart()
    ensures legal { IsLegal 16 full wrong_kinds }
    ensures not_pending { IsLegal 16 full (answered_instead Reply.Pending (take 3 wrong_kinds)) →
        ⊥ }
    ensures not_done { IsLegal 16 full (answered_instead Reply.Done (take 5 wrong_kinds)) → ⊥ }
    ensures not_allocated { IsLegal 16 full
        (answered_instead (Reply.Allocated 0 1) wrong_kinds) → ⊥ }
{}

/// Constraints that are sent twice, SetWeak after constraints and SetWeakOk after a Take fail the
/// node; the caller keeps the end.
pub fn a_misuse_fails_the_node()
    ensures second_constraints { IsLegal 16 full second_constraints }
    ensures not_done_1 { IsLegal 16 full
        (answered_instead Reply.Done (take 5 second_constraints)) → ⊥ }
    ensures not_allocated_1 { IsLegal 16 full
        (answered_instead (Reply.Allocated 1 4096) second_constraints) → ⊥ }
    ensures late_weak { IsLegal 16 full late_weak }
    ensures not_done_2 { IsLegal 16 full (answered_instead Reply.Done (take 6 late_weak)) → ⊥ }
    ensures not_allocated_2 { IsLegal 16 full
        (answered_instead (Reply.Allocated 1 4096) late_weak) → ⊥ }
    ensures late_weak_ok { IsLegal 16 full late_weak_ok }
    ensures not_done_3 { IsLegal 16 full (answered_instead Reply.Done late_weak_ok) → ⊥ }
    ensures weak_takes_early { IsLegal 16 full weak_takes_early }
    ensures not_pending { IsLegal 16 full (answered_instead Reply.Pending weak_takes_early) → ⊥ }
    ensures misuse_before_limits { IsLegal 16 (record full { handles = 1 }) misuse_before_limits }
    ensures not_refused { IsLegal 16 (record full { handles = 1 })
        (answered_instead (Reply.Refused Refusal.TooManyHandles) misuse_before_limits) → ⊥ }
{}

/// A limit refuses the call that would go over it, and no other; as many events as the limit are
/// legal, and no more.
pub fn limits_refuse_exactly_at_their_number()
    ensures nodes_full { IsLegal 16 (record full { nodes = 2 }) nodes_full }
    ensures not_token_1 { IsLegal 16 (record full { nodes = 2 })
        (answered_instead (Reply.Token (key 99) 2) (take 4 nodes_full)) → ⊥ }
    ensures not_refused_1 { IsLegal 16 (record full { nodes = 2 })
        (answered_instead (Reply.Refused Refusal.TooManyNodes) nodes_full) → ⊥ }
    ensures collections_full { IsLegal 16 (record full { collections = 1 }) collections_full }
    ensures not_token_2 { IsLegal 16 (record full { collections = 1 })
        (answered_instead (Reply.Token (key 99) 3) (take 3 collections_full)) → ⊥ }
    ensures not_refused_2 { IsLegal 16 (record full { collections = 1 })
        (answered_instead (Reply.Refused Refusal.TooManyCollections) collections_full) → ⊥ }
    ensures trackers_full { IsLegal 16 (record full { trackers = 1 }) trackers_full }
    ensures not_tracker { IsLegal 16 (record full { trackers = 1 })
        (answered_instead (Reply.Tracker 4) trackers_full) → ⊥ }
    ensures handles_full { IsLegal 16 (record full { handles = 1 }) handles_full }
    ensures not_taken { IsLegal 16 (record full { handles = 1 })
        (answered_instead (Reply.Taken 2 Strength.Strong 1) (take 6 handles_full)) → ⊥ }
    ensures not_done { IsLegal 16 (record full { handles = 1 })
        (answered_instead Reply.Done handles_full) → ⊥ }
    ensures history_full { IsLegal 16 (record full { events = 2 }) history_full }
    ensures no_more { IsLegal 16 (record full { events = 2 })
        (history_full ++ (1, Call.Sync (key 0), Reply.Done) ∷ []) → ⊥ }
{}

/// A gift to nobody is refused first, then one to a shut client, and then the end is looked at.
pub fn the_receiver_is_looked_at_before_the_end()
    ensures legal { IsLegal 16 full gift_of_a_spent_end }
    ensures not_refused { IsLegal 16 full
        (answered_instead (Reply.Refused Refusal.NoSuchEnd) gift_of_a_spent_end) → ⊥ }
{}

/// Client 0 alone makes clients. A client that was not made is refused, whatever it calls and
/// whatever is given to it.
pub fn strangers_are_refused()
    ensures legal { IsLegal 16 full strangers }
    ensures not_token { IsLegal 16 full ((0, Call.OpenRoot, Reply.Token (key 0) 1) ∷ []) → ⊥ }
    ensures not_joined { IsLegal 16 full ((1, Call.Join, Reply.Joined 1) ∷ []) → ⊥ }
    ensures to_nobody { IsLegal 16 full given_to_nobody }
    ensures not_done { IsLegal 16 full (answered_instead Reply.Done (take 3 given_to_nobody)) → ⊥ }
    ensures not_refused { IsLegal 16 full (answered_instead (Reply.Refused Refusal.NoSuchEnd)
        (take 4 given_to_nobody)) → ⊥ }
{}

/// Keys that no node has, keys of an earlier generation, keys of others, and handles that the caller
/// does not have are refused, and change nothing.
pub fn forged_keys_are_refused()
    ensures legal { IsLegal 16 full forged_keys }
    ensures live { live_nodes (timeline 16 forged_keys) ≡ record { slot = 0; generation = 1 } ∷ [] }
    ensures not_done { IsLegal 16 full (answered_instead Reply.Done (take 5 forged_keys)) → ⊥ }
    ensures not_done_by_another { IsLegal 16 full
        (answered_instead Reply.Done (take 6 forged_keys)) → ⊥ }
    ensures not_dropped { IsLegal 16 full (answered_instead Reply.Done (take 8 forged_keys)) → ⊥ }
{}

/// A key is given to one node only: a new node never gets a key that an earlier one had.
pub fn keys_are_given_once()
    ensures not_again { IsLegal 16 full (answered_instead (Reply.Token (key 0) 4)
        (take 4 end_spent)) → ⊥ }
{}
