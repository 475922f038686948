//! A forest and a pool of 16 pages, changed only as they may be.
ghost use Rattle.std.specs.Prelude.{◌≡◌, true};
ghost use Rattle.forest_store.specs.declared.change.Effect.{Effect as Effected};
ghost use Rattle.forest_store.specs.Forest.{IsPoolOf};
ghost use Rattle.forest_store.specs.Settling.{MayChange, has_collection, is_there};
ghost use Rattle.test_forest_rows.specs.declared.ground.TheConstants.{LIMIT};

use alloc_event::change::{Change, Effect};
use alloc_event::effects::effect_of;
use alloc_event::forest::Forest;
use alloc_event::node::Node;
use alloc_event::summary::Summary;
use buffer_holds::Holds;
use buffer_pool::Pool;
use sm_names::{BufferName, Call, Cause, CollectionId, NoMemory, NodeKey, Reply, Strength};
use std::alloc::Global;

/// How many nodes the forest has at most.
pub const LIMIT: usize = 1024;

/// The one collection.
pub const HERE: CollectionId = 5;

/// The forest, the pool that has its pages, and the open handles.
#[derive(Drop)]
pub struct Ground {
    forest: Forest,
    pool: Pool,
    holds: Holds,
    ghost limited: { forest.limit ≡ LIMIT },
    ghost pages: { IsPoolOf pool forest },
}

/// What is seen of a forest without memory.
#[derive(Clone, Copy, PartialEq, Eq)]
pub struct View {
    len: usize,
    collections: usize,
    here: Option<Summary>,
    first: [Option<Node>; 4],
    free_pages: u32,
}

// The collection's buffer with this index.
fn buffer(index: u8) -> BufferName {
    BufferName {
        collection: HERE,
        index,
    }
}

// Whether the effect is one more tracker of the node.
fn is_tracked(effect: &Effect) -> bool
    ensures { effect.now ≡ Effected.Tracked → result ≡ true }
{
    match *effect {
        Effect::Tracked => true,
        _ => false,
    }
}

impl Ground {
    /// An empty forest, and a pool with all pages free.
    pub fn new(alloc: Global) -> Option<Ground> {
        match Pool::new(alloc, 16) {
            Ok(pool) => Some(Ground {
                forest: Forest::new(alloc, LIMIT),
                pool,
                holds: Holds::new(alloc, 8),
            }),
            Err(_) => None,
        }
    }

    /// What is seen of it.
    pub fn view(&self) -> View {
        View {
            len: self.forest.len(),
            collections: self.forest.collections(),
            here: self.forest.collection(HERE),
            first: [
                self.first_of(0),
                self.first_of(1),
                self.first_of(2),
                self.first_of(3),
            ],
            free_pages: self.pool.free_pages(),
        }
    }

    fn first_of(&self, slot: u32) -> Option<Node> {
        self.forest
            .node(NodeKey {
                slot,
                generation: 0,
            })
            .copied()
    }

    fn is_kept(&self) -> bool
        ensures { result ≡ has_collection self.now.forest HERE }
    {
        self.forest.collection(HERE).is_some()
    }

    fn is_there(&self, key: NodeKey) -> bool
        ensures { result ≡ is_there self.now.forest HERE key }
    {
        match self.forest.node(key) {
            Some(node) => node.collection == HERE && !node.gone,
            None => false,
        }
    }

    fn may_change(&self, change: &Change) -> bool
        ensures { result ≡ true → MayChange self.now.forest HERE change.now }
    {
        match *change {
            Change::Birth {
                parent: Some(above),
                ..
            } => self.is_there(above) && self.forest.len() < LIMIT,
            Change::Birth { attached, .. } => {
                !self.is_kept() && !attached && self.forest.len() < LIMIT
            }
            Change::Effect(key, effect) => !is_tracked(&effect) && self.is_there(key),
            Change::Loss(origin, _) => self.is_there(origin),
            Change::Nothing => self.is_kept(),
        }
    }

    fn settle(&mut self, change: Change) -> Result<Option<NodeKey>, NoMemory>
        requires { MayChange self.old.forest HERE change }
    {
        self.forest
            .settle(&mut self.pool, &self.holds, HERE, change)
    }

    /// Makes the change, if it may be made. Where memory is refused nothing is seen to change, and
    /// the same call is made once more. `None` if the change was not made so.
    fn change(&mut self, change: Change) -> Option<Option<NodeKey>> {
        for _ in 0..2 {
            if !self.may_change(&change) {
                return None;
            }
            let before = self.view();
            match self.settle(change) {
                Ok(key) => return Some(key),
                Err(_) => {
                    if self.view() != before {
                        return None;
                    }
                }
            }
        }
        None
    }

    /// A node that is born, whose end client 3 holds.
    pub fn bear(&mut self, parent: Option<NodeKey>, attached: bool) -> Option<NodeKey> {
        let event = self.forest.len() as u64;
        let birth = Change::Birth {
            parent,
            attached,
            client: 3,
            event,
        };
        self.change(birth)?
    }

    /// The call takes effect, and was answered Done. Answers whether it did.
    pub fn settle_done(&mut self, call: Call) -> bool {
        match effect_of(&call, &Reply::Done) {
            Some(effect) => self.change(effect).is_some(),
            None => false,
        }
    }

    /// The node fails. Answers whether it did.
    pub fn lose(&mut self, key: NodeKey) -> bool {
        self.change(Change::Loss(key, Cause::Lost)).is_some()
    }

    /// Only handles changed. Answers whether that was seen.
    pub fn look_again(&mut self) -> bool {
        self.change(Change::Nothing).is_some()
    }

    /// Client 3 opens such a handle of the collection's buffer with this index, at the second time where memory is
    /// refused. Answers whether it did.
    pub fn open(&mut self, index: u8, strength: Strength) -> bool {
        for _ in 0..2 {
            if let Ok(()) = self.holds.add(3, buffer(index), strength) {
                return true;
            }
        }
        false
    }

    /// And closes it, if it is there.
    pub fn close(&mut self, index: u8, strength: Strength) -> bool {
        self.holds.sub(3, buffer(index), strength)
    }

    /// The forest.
    pub fn forest(&self) -> &Forest {
        &self.forest
    }

    /// The forest, out of its ground.
    pub fn into_forest(self) -> Forest {
        self.forest
    }

    /// How many pages are free.
    pub fn free_pages(&self) -> u32 {
        self.pool.free_pages()
    }
}
