//! Tests of whether two values are one.
ghost use Rattle.std.specs.Prelude.{◌≡◌, true};
ghost use Rattle.core_likeness.specs.Naming.{new_key};
ghost use Rattle.std.specs.Prelude.{option_map};
ghost use Rattle.alike_cores.specs.Renamed.{fault_renamed};

use crate::names::Names;
use forest_store::End;
use sm_names::{Buffers, Constraints, Fault, NodeKey, Strength};

/// Whether the strengths are one. Costs O(1).
pub fn is_strength(one: Strength, other: Strength) -> bool
    ensures same { result ≡ true → other ≡ one }
    ensures all { other ≡ one → result ≡ true }
{
    match one {
        Strength::Strong => matches!(other, Strength::Strong),
        Strength::Weak => matches!(other, Strength::Weak),
    }
}

/// Whether the other key is the one under its new name. Costs O(k) for k new names.
pub fn is_new_key(one: NodeKey, other: NodeKey, names: &Names) -> bool
    ensures same { result ≡ true → other ≡ new_key names.now one }
    ensures all { other ≡ new_key names.now one → result ≡ true }
{
    names.key(one) == other
}

// Whether the other key is the one under its new name, or neither is there.
pub(crate) fn is_new_option(one: Option<NodeKey>, other: Option<NodeKey>, names: &Names) -> bool
    ensures { result ≡ true → other ≡ option_map (new_key names.now) one }
{
    match one {
        Some(key) => match other {
            Some(new) => is_new_key(key, new, names),
            None => false,
        },
        None => other.is_none(),
    }
}

/// Whether the faults are one, but for the new name of their origin. Costs O(k) for k new names.
pub fn is_new_fault(one: Fault, other: Fault, names: &Names) -> bool
    ensures same { result ≡ true → other ≡ fault_renamed (new_key names.now) one }
    ensures all { other ≡ fault_renamed (new_key names.now) one → result ≡ true }
{
    one.cause == other.cause && is_new_key(one.origin, other.origin, names)
}

/// Whether `is_new_fault` holds of the faults, or neither is there. Costs O(k) for k new names.
pub fn is_new_failure(one: Option<Fault>, other: Option<Fault>, names: &Names) -> bool
    ensures same { result ≡ true → other ≡ option_map (fault_renamed (new_key names.now)) one }
    ensures all { other ≡ option_map (fault_renamed (new_key names.now)) one → result ≡ true }
{
    match one {
        Some(fault) => match other {
            Some(new) => is_new_fault(fault, new, names),
            None => false,
        },
        None => other.is_none(),
    }
}

// Whether the demands are one.
fn is_demand(one: &Constraints, other: &Constraints) -> bool
    ensures { result ≡ true → other.now ≡ one.now }
{
    one.camping() == other.camping()
        && one.at_least() == other.at_least()
        && one.size() == other.size()
}

// Whether the demands are one, or neither is there.
pub(crate) fn is_same_demand(one: &Option<Constraints>, other: &Option<Constraints>) -> bool
    ensures { result ≡ true → other.now ≡ one.now }
{
    match one {
        Some(demand) => match other {
            Some(new) => is_demand(demand, new),
            None => false,
        },
        None => other.is_none(),
    }
}

// Whether the ends are at one place.
pub(crate) fn is_end(one: End, other: End) -> bool
    ensures { result ≡ true → other ≡ one }
{
    match one {
        End::Held(client) => match other {
            End::Held(new) => client == new,
            _ => false,
        },
        End::InTransit(client) => match other {
            End::InTransit(new) => client == new,
            _ => false,
        },
        End::Spent => matches!(other, End::Spent),
    }
}

// Whether the two were given as many buffers of one size, or neither was.
pub(crate) fn is_given(one: Option<Buffers>, other: Option<Buffers>) -> bool
    ensures { result ≡ true → other ≡ one }
{
    match one {
        Some(given) => match other {
            Some(new) => given.count == new.count && given.size == new.size,
            None => false,
        },
        None => other.is_none(),
    }
}
