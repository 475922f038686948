//! What the definitions of changes imply.
ghost use Rattle.std.specs.Prelude.{◌≡◌, List, ℕ, map, reverse, true};
ghost use Rattle.std.specs.List.{list_any};
ghost use Rattle.sm_names.specs.declared.keys.Interval.{Interval};
ghost use Rattle.sm_names.specs.declared.keys.NodeKey.{NodeKey};
ghost use Rattle.sm_names.specs.declared.outcomes.Fault.{Fault};
ghost use Rattle.sm_names.specs.Sameness.{same_key};
ghost use Rattle.node_table.specs.Table.{Table};
ghost use Rattle.forest_store.specs.declared.change.Change.{Change};
ghost use Rattle.forest_store.specs.declared.node.Node.{Node};
ghost use Rattle.forest_store.specs.Decisions.{is_left_of};
ghost use Rattle.forest_store.specs.Forest.{Collection};
ghost use Rattle.forest_store.specs.Nodes.{after_loss, lost};
ghost use Rattle.forest_store.specs.Scenes.{are_distinct};
ghost use Rattle.forest_store.specs.Settling.{Handles, Settles, changed};
ghost use Rattle.forest_store.specs.Ties.{IsFall, FitsChange, IsTied, are_rooted};

/// What a failure takes of a node table, as `failure_domains::fall` finds it, is what a loss takes of
/// the collection whose nodes the table has.
pub fn falls_take_what_losses_take()
    ensures { (t : Table Node) (nodes : List Node) → IsTied t nodes → (fault : Fault) →
        is_left_of nodes fault.origin ≡ true → (keys : List NodeKey) → IsFall t fault.origin keys →
        map (lost (λ n. list_any (same_key n.key) keys) fault) nodes ≡ after_loss fault nodes }
{}

/// A change and the forced steps after it leave each node that is not gone below a parent that is not
/// gone and was born before it.
pub fn collections_stay_rooted()
    ensures changed { (change : Change) (key : NodeKey) (c : Collection) →
        FitsChange change key c.nodes →
        are_distinct c.nodes ≡ true → are_rooted (reverse c.nodes) ≡ true →
        are_rooted (reverse (changed change key c).nodes) ≡ true }
    ensures settled { (pool : ℕ) (handles : Handles) (others : List Interval)
        (c after : Collection) →
        are_distinct c.nodes ≡ true → are_rooted (reverse c.nodes) ≡ true →
        Settles pool handles others c after → are_rooted (reverse after.nodes) ≡ true }
{}
