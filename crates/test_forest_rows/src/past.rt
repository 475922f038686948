//! A forest without further changes: the ends of its nodes are spent, and nodes that are gone and spent are forgotten.
use crate::ground::HERE;
use crate::line::Range;
use alloc_event::forest::Forest;
use alloc_event::node::End;
use sm_names::NodeKey;

/// A forest without a pool.
#[derive(Drop)]
pub struct Past {
    forest: Forest,
}

/// What is done with a node: its end is spent; it is forgotten, if it is gone and its end is spent; or its end is spent, and
/// then one pass over all nodes forgets this node alone.
#[derive(Clone, Copy)]
pub enum Leaving {
    Spend,
    Forget,
    End,
}

// Spends the end of a node, if it is kept.
fn spend(forest: &mut Forest, key: NodeKey) {
    if forest.node(key).is_some() {
        forest.set_end(key, End::Spent);
    }
}

// Forgets a node, if it is gone and its end is spent, and answers whether it is.
fn forget(forest: &mut Forest, key: NodeKey) -> bool {
    match forest.node(key).copied() {
        Some(node) if node.gone && matches!(node.end, End::Spent) => {
            forest.forget(key);
            true
        }
        _ => false,
    }
}

// Spends the end of a node, and answers whether a pass over all nodes then forgets this node alone.
fn end(forest: &mut Forest, key: NodeKey) -> bool {
    let before = forest.len();
    spend(forest, key);
    forest.forget_unkept(HERE);
    forest.node(key).is_none() && forest.len().checked_add(1) == Some(before)
}

impl Past {
    /// The past of this forest.
    pub fn new(forest: Forest) -> Past {
        Past { forest }
    }

    /// What is left of it.
    pub fn forest(&self) -> &Forest {
        &self.forest
    }

    // Does this with the node, and answers whether it could be done.
    fn leave(&mut self, key: NodeKey, how: Leaving) -> bool {
        match how {
            Leaving::Spend => {
                spend(&mut self.forest, key);
                true
            }
            Leaving::Forget => forget(&mut self.forest, key),
            Leaving::End => end(&mut self.forest, key),
        }
    }

    /// Does this with each node of the range, and answers whether it could be done with all.
    pub fn leave_each(&mut self, keys: &[NodeKey], range: Range, how: Leaving) -> bool {
        for step in 0..=range.steps() {
            let Some(key) = keys.get(range.at(step)) else {
                return false;
            };
            if !self.leave(*key, how) {
                return false;
            }
        }
        true
    }

    /// Forgets all nodes that are gone and spent, in one pass.
    pub fn forget_unkept(&mut self) {
        self.forest.forget_unkept(HERE);
    }

    /// Forgets the collection, if nothing is left of it, and answers whether that is so.
    pub fn forget_collection(&mut self) -> bool {
        match self.forest.collection(HERE) {
            Some(summary) if summary.nodes == 0 && summary.held == 0 => {
                self.forest.forget_collection(HERE);
                true
            }
            _ => false,
        }
    }
}
