//! Whether nodes are others under new names.
ghost use Rattle.std.specs.Prelude.{◌≡◌, true, map, option_map};
ghost use Rattle.alike_cores.specs.Renamed.{fault_renamed, node_renamed};
ghost use Rattle.alike_cores.specs.Cores.{node_undated};
ghost use Rattle.core_likeness.specs.Naming.{new_id, new_key};
ghost use Rattle.core_likeness.specs.Parts.{SameFlags};

use crate::names::Names;
use crate::sameness::{is_end, is_new_failure, is_new_key, is_new_option, is_same_demand};
use forest_store::Node;

// Whether all marks of the nodes are the same.
fn has_same_flags(one: &Node, other: &Node) -> bool
    ensures { result ≡ true → SameFlags one.now other.now }
{
    one.attached == other.attached
        && one.allocated == other.allocated
        && one.gone == other.gone
        && one.released == other.released
        && one.dispensable == other.dispensable
        && one.weak == other.weak
        && one.weak_ok == other.weak_ok
        && one.covers == other.covers
        && one.took == other.took
        && one.bound == other.bound
}

// Whether the other node has the names of the one under new names.
fn has_new_names(one: &Node, other: &Node, names: &Names) -> bool
    ensures key { result ≡ true → other.now.key ≡ new_key names.now one.now.key }
    ensures parent { result ≡ true → other.now.parent ≡ option_map (new_key names.now) one.now.parent }
    ensures head { result ≡ true → other.now.head ≡ new_key names.now one.now.head }
    ensures collection { result ≡ true → other.now.collection ≡ new_id names.now one.now.collection }
{
    is_new_key(one.key, other.key, names)
        && is_new_option(one.parent, other.parent, names)
        && is_new_key(one.head, other.head, names)
        && names.id(one.collection) == other.collection
}

// Whether the rest of the other node is that of the one.
fn has_same_rest(one: &Node, other: &Node, names: &Names) -> bool
    ensures fault { result ≡ true →
        other.now.fault ≡ option_map (fault_renamed (new_key names.now)) one.now.fault }
    ensures constraints { result ≡ true → other.now.constraints ≡ one.now.constraints }
    ensures trackers { result ≡ true → other.now.trackers ≡ one.now.trackers }
    ensures end { result ≡ true → other.now.end ≡ one.now.end }
{
    is_new_failure(one.fault, other.fault, names)
        && is_same_demand(&one.constraints, &other.constraints)
        && one.trackers == other.trackers
        && is_end(one.end, other.end)
}

// Whether the other node is the one under new names, whatever events they were born by.
fn is_new_node(one: &Node, other: &Node, names: &Names) -> bool
    ensures { result ≡ true →
        node_undated other.now ≡ node_renamed (new_key names.now) (new_id names.now) one.now }
{
    if !has_same_flags(one, other) {
        return false;
    }
    if !has_new_names(one, other, names) {
        return false;
    }
    has_same_rest(one, other, names)
}

// Whether the other nodes are the ones, in their order.
pub(crate) fn are_new_nodes(one: &[Node], other: &[Node], names: &Names) -> bool
    ensures { result ≡ true → map node_undated other.now
        ≡ map (node_renamed (new_key names.now) (new_id names.now)) one.now }
{
    if one.len() != other.len() {
        return false;
    }
    for at in 0..one.len() {
        if !is_new_node(&one[at], &other[at], names) {
            return false;
        }
    }
    true
}
