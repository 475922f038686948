//! What became of nodes, which are named by the steps that made them.
ghost use Rattle.std.specs.Prelude.{◌≡◌};
ghost use Rattle.actor_plays.specs.Endings.{birth_at, fate_fallen, fate_gone, fate_in, fate_of, maker_in};
ghost use Rattle.actor_plays.specs.Fates.{fault_fallen};
ghost use Rattle.actor_plays.specs.Moves.{position_of};
ghost use Rattle.actor_plays.specs.Plays.{stages_of};

use crate::falls::GoneNode;
use crate::play::Play;
use explore_model::{Fate, StepPlace};
use forest_store::Node;
use sm_names::{Fault, NodeKey};

// How the node fell first, if it did: by its fault, or without one.
fn fallen(falls: &[GoneNode], key: NodeKey) -> Option<Option<Fault>>
    ensures { result ≡ fault_fallen falls.now key }
{
    match falls.iter().find(|fall| fall.key == key) {
        Some(fall) => Some(fall.fault),
        None => None,
    }
}

impl Play {
    // The step of the actor of this place whose call made the node.
    fn birth_at(&self, key: NodeKey, actor: usize) -> Option<StepPlace>
        ensures { result ≡ birth_at (stages_of self.now) key actor }
    {
        match self.actor(actor) {
            Some(one) => match one.birth(key) {
                Some(at) => Some(StepPlace { actor, at }),
                None => None,
            },
            None => None,
        }
    }

    // The step whose call made the node.
    fn maker(&self, key: NodeKey) -> Option<StepPlace>
        ensures { result ≡ maker_in (stages_of self.now) key }
    {
        let mut maker = None;
        'actors: for actor in 0..self.actors.len() {
            maker = maker.or(self.birth_at(key, actor));
        }
        maker
    }

    // What became of a node that is gone.
    fn fate_gone(&self, fault: Option<Fault>) -> Fate
        ensures { result ≡ fate_gone (maker_in (stages_of self.now)) fault }
    {
        match fault {
            Some(fault) => Fate::Failed {
                cause: fault.cause,
                by: self.maker(fault.origin),
            },
            None => Fate::Ended,
        }
    }

    // What became of a node that is kept.
    fn fate_of(&self, node: &Node) -> Fate
        ensures { result ≡ fate_of (maker_in (stages_of self.now)) node.now }
    {
        if node.gone {
            return self.fate_gone(node.fault);
        }
        let allocated = node.allocated;
        if node.released {
            Fate::Released { allocated }
        } else {
            Fate::Live { allocated }
        }
    }

    // What became of a node that is not, as it fell first.
    fn fate_fallen(&self, key: NodeKey) -> Option<Fate>
        ensures { result
            ≡ fate_fallen (maker_in (stages_of self.now)) self.now.falls.items key }
    {
        match fallen(&self.falls, key) {
            Some(fault) => Some(self.fate_gone(fault)),
            None => None,
        }
    }

    /// What became of the node: what the core has of it, or else how it fell in calls that were told. `None` where it is neither
    /// kept nor fell. Costs O(n) for n calls and nodes that fell.
    pub fn fate(&self, key: NodeKey) -> Option<Fate>
        ensures { result ≡ fate_in (position_of self.now) key }
    {
        match self.core.node(key) {
            Some(node) => Some(self.fate_of(&node)),
            None => self.fate_fallen(key),
        }
    }
}
