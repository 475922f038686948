//! What worked runs show of trackers, and of when they fire.
ghost use Rattle.std.specs.Prelude.{◌≡◌, None, Some, [], take, ◌∷◌};
ghost use Rattle.sm_names.specs.declared.messages.Reply.{Reply};
ghost use Rattle.sm_names.specs.declared.tracking.Condition.{Condition};
ghost use Rattle.sm_names.specs.Legality.{IsLegal};
ghost use Rattle.worked_runs.specs.Words.{answered_instead, fires, full, key, tracking};
ghost use Rattle.sm_names.specs.Timelines.{timeline};
ghost use Rattle.sm_names.specs.Trackers.{fired, fired_at};
ghost use Rattle.worked_runs.specs.Tracking.{attached_tracker, few_left, few_left_of_none, tracker_of_an_ended, tracker_of_an_unallocated_unit, node_trackers_full};

/// A tracker of a node fires at the event that takes the node, and keeps that event.
pub fn a_node_tracker_fires_once_the_node_is_gone()
    ensures legal { IsLegal 16 full attached_tracker }
    ensures quiet { fired_at (timeline 16 (take 6 attached_tracker))
        (tracking 6 (Condition.Node (key 1)))
        ≡ None }
    ensures fires_1 { fired_at (timeline 16 (take 7 attached_tracker))
        (tracking 6 (Condition.Node (key 1)))
        ≡ Some 7 }
    ensures fires_2 { fired_at (timeline 16 attached_tracker) (tracking 6 (Condition.Node (key 1)))
        ≡ Some 7 }
    ensures fired { fired (timeline 16 attached_tracker) ≡ fires 6 7 ∷ [] }
{}

/// A lifetime tracker fires once its unit is allocated and few enough buffers are not home, or its
/// node was gone before.
pub fn a_lifetime_tracker_waits_for_its_units_allocation()
    ensures few_left { IsLegal 16 full few_left }
    ensures quiet_1 { fired_at (timeline 16 (take 4 few_left))
        (tracking 4 (Condition.Lifetime (key 0) 2 1))
        ≡ None }
    ensures quiet_2 { fired_at (timeline 16 (take 5 few_left))
        (tracking 4 (Condition.Lifetime (key 0) 2 1))
        ≡ None }
    ensures fires_1 { fired_at (timeline 16 (take 7 few_left))
        (tracking 7 (Condition.Lifetime (key 0) 2 2))
        ≡ Some 7 }
    ensures fires_2 { fired_at (timeline 16 few_left) (tracking 4 (Condition.Lifetime (key 0) 2 1))
        ≡ Some 9 }
    ensures fired { fired (timeline 16 few_left) ≡ fires 7 7 ∷ fires 4 9 ∷ [] }
    ensures few_left_of_none { IsLegal 16 full few_left_of_none }
    ensures fires_3 { fired_at (timeline 16 (take 5 few_left_of_none))
        (tracking 4 (Condition.Lifetime (key 0) 2 0))
        ≡ Some 5 }
    ensures not_pending { IsLegal 16 full (answered_instead Reply.Pending few_left_of_none) → ⊥ }
    ensures tracker_of_an_ended { IsLegal 16 full tracker_of_an_ended }
    ensures fires_4 { fired_at (timeline 16 tracker_of_an_ended)
        (tracking 6 (Condition.Lifetime (key 1) 2 5))
        ≡ Some 7 }
    ensures tracker_of_an_unallocated_unit { IsLegal 16 full tracker_of_an_unallocated_unit }
    ensures quiet_3 { fired_at (timeline 16 (take 7 tracker_of_an_unallocated_unit))
        (tracking 7 (Condition.Lifetime (key 1) 2 5))
        ≡ None }
    ensures fires_5 { fired_at (timeline 16 tracker_of_an_unallocated_unit)
        (tracking 7 (Condition.Lifetime (key 1) 2 5))
        ≡ Some 8 }
{}

/// The 65th node tracker fails its node, and with that the 64 fire.
pub fn trackers_of_one_node_are_at_most_64()
    ensures legal { IsLegal 16 full node_trackers_full }
    ensures fires { fired_at (timeline 16 node_trackers_full) (tracking 3 (Condition.Node (key 0)))
        ≡ Some 67 }
    ensures not_tracker { IsLegal 16 full
        (answered_instead (Reply.Tracker 67) node_trackers_full) → ⊥ }
{}
