//! Whether the same nodes fell alike under new names.
ghost use Rattle.std.specs.Prelude.{◌≡◌, true, option_map};
ghost use Rattle.std.specs.List.{find};
ghost use Rattle.sm_names.specs.Elements.{In};
ghost use Rattle.sm_names.specs.Sameness.{same_key};
ghost use Rattle.actor_plays.specs.declared.falls.GoneNode.{GoneNode as Gone};
ghost use Rattle.actor_plays.specs.Fates.{fault_fallen};
ghost use Rattle.alike_plays.specs.Falls.{FellAlike, fall_renamed};
ghost use Rattle.core_likeness.specs.Naming.{new_key};

use actor_plays::GoneNode;
use core_likeness::{Names, is_new_failure, is_new_key};
use sm_names::NodeKey;

// How the node fell first, if it did.
fn fall_of(falls: &[GoneNode], key: NodeKey) -> Option<GoneNode>
    ensures { result ≡ find (λ (f : Gone). same_key f.key key) falls.now }
{
    falls.iter().find(|fall| fall.key == key).copied()
}

// Whether the other fall is by the same as the one, or neither is there.
fn is_new_fall(one: Option<GoneNode>, other: Option<GoneNode>, names: &Names) -> bool
    ensures { result ≡ true → option_map (λ (f : Gone). f.fault) other
        ≡ option_map (fall_renamed (new_key names.now))
        (option_map (λ (f : Gone). f.fault) one) }
{
    match one {
        Some(fall) => match other {
            Some(new) => is_new_failure(fall.fault, new.fault, names),
            None => false,
        },
        None => other.is_none(),
    }
}

// Whether each of the ones fell alike among the others.
fn have_fallen(names: &Names, one: &[GoneNode], other: &[GoneNode]) -> bool
    ensures { result ≡ true → (g : Gone) → In g one.now →
        fault_fallen other.now (new_key names.now g.key)
        ≡ option_map (fall_renamed (new_key names.now)) (fault_fallen one.now g.key) }
{
    for gone in one {
        let new = names.key(gone.key);
        if !is_new_fall(fall_of(one, gone.key), fall_of(other, new), names) {
            return false;
        }
    }
    true
}

// Whether this is the new name of a node that fell.
fn has_fallen(names: &Names, falls: &[GoneNode], new: NodeKey) -> bool
    ensures { result ≡ true → (g : Gone) × In g falls.now × (new_key names.now g.key ≡ new) }
{
    for gone in falls {
        if is_new_key(gone.key, new, names) {
            return true;
        }
    }
    false
}

// Whether each of the others is one of the ones.
fn are_fallen(names: &Names, one: &[GoneNode], other: &[GoneNode]) -> bool
    ensures { result ≡ true → (h : Gone) → In h other.now →
        (g : Gone) × In g one.now × (new_key names.now g.key ≡ h.key) }
{
    for gone in other {
        if !has_fallen(names, one, gone.key) {
            return false;
        }
    }
    true
}

// Whether the same nodes fell, each alike the first time.
pub(crate) fn falls_alike(names: &Names, one: &[GoneNode], other: &[GoneNode]) -> bool
    ensures { result ≡ true → FellAlike (new_key names.now) one.now other.now }
{
    have_fallen(names, one, other) && are_fallen(names, one, other)
}
