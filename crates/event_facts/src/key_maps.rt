//! Sets of keys of nodes, and values by these keys.
ghost use Rattle.std.specs.Prelude.{◌≡◌, ◌++◌, ◌∷◌, [], None, Some, if◌then◌else◌, IfOk, OnOk};
ghost use Rattle.std.specs.Option.{option_copied, option_or};
ghost use Rattle.sm_names.specs.declared.keys.NodeKey.{NodeKey as Key};
ghost use Rattle.sm_names.specs.Sameness.{same_key};
ghost use Rattle.event_facts.specs.KeyMaps.{HasKeys, values_at, value_at};

use forced_marks::key_sets::KeySet;
use sm_names::NodeKey;
use std::alloc::{AllocError, Global};
use std::collections::BTreeMap;

/// The keys as a set.
///
/// `AllocError` where memory is refused. Costs O(n log n) for n keys.
pub fn keys_of(alloc: Global, keys: &[NodeKey]) -> Result<KeySet, AllocError>
    ensures { IfOk result (λ set. HasKeys set keys.now) }
{
    let mut set = KeySet::new(alloc);
    for key in keys {
        set.add_if(*key, true)?;
    }
    Ok(set)
}

/// A value for each of some keys of nodes.
#[derive(Drop)]
pub struct KeyMap<V> {
    values: BTreeMap<NodeKey, V>,
}

impl<V: Drop> KeyMap<V> {
    /// No values. Costs O(1).
    pub fn new(alloc: Global) -> KeyMap<V>
        ensures { (key : Key) → value_at result key ≡ None }
    {
        KeyMap {
            values: BTreeMap::new(alloc),
        }
    }

    /// The value of this key. Costs O(log n) for n keys.
    pub fn get(&self, key: NodeKey) -> Option<&V>
        ensures { option_copied result ≡ value_at self.now key }
    {
        self.values.get(&key)
    }

    /// Gives the key this value, unless it has one.
    ///
    /// `AllocError` where memory is refused. Costs O(log n) for n keys.
    pub fn add(&mut self, key: NodeKey, value: V) -> Result<(), AllocError>
        ensures { OnOk result ((other : Key) → value_at self.new other
            ≡ option_or (value_at self.old other) (if same_key key other then Some value else None)) }
    {
        if self.values.contains_key(&key) {
            return Ok(());
        }
        self.values.insert(key, value)?;
        Ok(())
    }
}

/// A row of values for each key of a node.
#[derive(Drop)]
pub struct KeyRows<V> {
    rows: BTreeMap<NodeKey, Vec<V>>,
}

impl<V: Copy + Drop> KeyRows<V> {
    /// Each row is empty. Costs O(1).
    pub fn new(alloc: Global) -> KeyRows<V>
        ensures { (key : Key) → values_at result key ≡ [] }
    {
        KeyRows {
            rows: BTreeMap::new(alloc),
        }
    }

    /// The row of this key. Costs O(log n) for n rows that are not empty.
    pub fn row(&self, key: NodeKey) -> &[V]
        ensures { result.now ≡ values_at self.now key }
    {
        match self.rows.get(&key) {
            Some(row) => row.as_slice(),
            None => &[],
        }
    }

    /// Puts the value behind the others of the key's row.
    ///
    /// `AllocError` where memory is refused. Costs O(log n) for n rows that are not empty.
    pub fn add(&mut self, alloc: Global, key: NodeKey, value: V) -> Result<(), AllocError>
        ensures { OnOk result ((other : Key) → values_at self.new other
            ≡ values_at self.old other ++ (if same_key key other then value ∷ [] else [])) }
    {
        let mut row = self.cut(alloc, key);
        row.push(value)?;
        self.put(key, row)
    }

    // The row of this key, which is empty then.
    fn cut(&mut self, alloc: Global, key: NodeKey) -> Vec<V>
        ensures row { result.items ≡ values_at self.old key }
        ensures others { (other : Key) → values_at self.new other
            ≡ (if same_key key other then [] else values_at self.old other) }
    {
        match self.rows.remove(&key) {
            Some(row) => row,
            None => Vec::new(alloc),
        }
    }

    // The key has this row.
    fn put(&mut self, key: NodeKey, row: Vec<V>) -> Result<(), AllocError>
        ensures { OnOk result ((other : Key) → values_at self.new other
            ≡ (if same_key key other then row.items else values_at self.old other)) }
    {
        self.rows.insert(key, row)?;
        Ok(())
    }
}
