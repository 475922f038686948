//! What is reserved in collections: the buffers that nodes of allocated units camp on.
ghost use Rattle.std.specs.Prelude.{◌≡◌, ◌+◌, ◌<◌, ◌^◌, ◌↔◌, ℕ, IfSome, IsSome};
ghost use Rattle.forest_store.specs.Reserved.{camped};

use crate::node::Node;
use sm_names::Constraints;

/// What is reserved, where so much of it is free again.
pub fn without(reserved: u128, freed: u128) -> u128
    ensures { (left : ℕ) → left + freed ≡ reserved → result ≡ left }
{
    reserved.saturating_sub(freed)
}

/// What is reserved, where a node camps on so much instead of what it camped on. `None` only where what
/// was reserved and what it camps on now take more than 128 bits together.
pub fn exchanged(reserved: u128, was: u8, is: u8) -> Option<u128>
    ensures told { IsSome result ↔ (reserved + is < 2 ^ 128) }
    ensures sum { IfSome result (λ now. (real : ℕ) → real + was ≡ reserved + is → now ≡ real) }
{
    let both = reserved.checked_add(is as u128)?;
    Some(without(both, was as u128))
}

/// How many buffers the node camps on where it asks for this, if its unit is allocated and it is not
/// gone.
pub fn camped(node: &Node, asks: Option<Constraints>) -> u8
    ensures { result ≡ camped (record node.now { constraints = asks }) }
{
    match asks {
        Some(demand) if !node.gone && node.allocated => demand.camping(),
        _ => 0,
    }
}
