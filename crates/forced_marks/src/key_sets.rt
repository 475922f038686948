//! Sets of keys of nodes.
ghost use Rattle.std.specs.Prelude.{◌≡◌, ◌||◌, ◌&&◌, false, if◌then◌else◌, OnOk};
ghost use Rattle.sm_names.specs.declared.keys.NodeKey.{NodeKey as Key};
ghost use Rattle.sm_names.specs.Sameness.{same_key};
ghost use Rattle.forced_marks.specs.KeySets.{has as is_in};

use sm_names::NodeKey;
use std::alloc::{AllocError, Global};
use std::collections::BTreeSet;

/// A set of keys of nodes.
#[derive(Drop)]
pub struct KeySet {
    keys: BTreeSet<NodeKey>,
}

impl KeySet {
    /// No keys. Costs O(1).
    pub fn new(alloc: Global) -> KeySet
        ensures { (key : Key) → is_in result key ≡ false }
    {
        KeySet {
            keys: BTreeSet::new(alloc),
        }
    }

    /// Whether the key is one of these. Costs O(log n) for n keys.
    pub fn has(&self, key: NodeKey) -> bool
        ensures { result ≡ is_in self.now key }
    {
        self.keys.contains(&key)
    }

    /// Adds the key, if it is to be there.
    ///
    /// `AllocError` where memory is refused. Costs O(log n) for n keys.
    pub fn add_if(&mut self, key: NodeKey, there: bool) -> Result<(), AllocError>
        ensures { OnOk result ((other : Key) →
            is_in self.new other ≡ (there && same_key key other || is_in self.old other)) }
    {
        if there {
            self.keys.insert(key)?;
        }
        Ok(())
    }

    /// Adds the key if it is to be there, and removes it if not.
    ///
    /// `AllocError` where memory is refused. Costs O(log n) for n keys.
    pub fn put(&mut self, key: NodeKey, there: bool) -> Result<(), AllocError>
        ensures { OnOk result ((other : Key) →
            is_in self.new other ≡ (if same_key key other then there else is_in self.old other)) }
    {
        if there {
            return self.add_if(key, true);
        }
        self.keys.remove(&key);
        Ok(())
    }
}
