//! What is read of one node.
ghost use Rattle.std.specs.Prelude.{◌≡◌, ◌&&◌, not, option_map, IfSome, false, None, option_copied};
ghost use Rattle.std.specs.Option.{option_and_then, option_map_or};
ghost use Rattle.sm_names.specs.declared.outcomes.Fault.{Fault};
ghost use Rattle.forest_store.specs.declared.node.Node.{Node as NodeValue};
ghost use Rattle.forest_store.specs.Nodes.{is_spent};
ghost use Rattle.core_state.specs.Reads.{open_end_in, open_end_of};
ghost use Rattle.core_state.specs.State.{State};

use forest_store::{End, Node};
use sm_names::{Cause, NodeKey};

/// Whether the node is there and live.
pub fn is_live(node: Option<&Node>) -> bool
    ensures { result
        ≡ option_map_or (λ (n : NodeValue). not n.gone && not n.released)
        (option_copied node.entry) false }
{
    match node {
        Some(node) => !node.gone && !node.released,
        None => false,
    }
}

/// The node, unless its end is spent.
#[inline(always)]
pub fn with_end(node: Option<&Node>) -> Option<&Node>
    ensures value { (s : State) → option_map (open_end_of s) (option_copied result)
        ≡ option_and_then (open_end_in s) (option_copied node.entry) }
    ensures unspent { IfSome result (λ n. is_spent n.now.end ≡ false) }
{
    let node = node?;
    match node.end {
        End::Spent => None,
        _ => Some(node),
    }
}

/// Why and where the node failed, if it is there and failed.
pub fn cause(node: Option<&Node>) -> Option<(Cause, NodeKey)>
    ensures { result ≡ option_map (λ (f : Fault). (f.cause, f.origin))
        (option_map_or (λ (n : NodeValue). n.fault) (option_copied node.entry) None) }
{
    match node {
        Some(node) => match node.fault {
            Some(fault) => Some((fault.cause, fault.origin)),
            None => None,
        },
        None => None,
    }
}
