//! The two walks of a failure: up from its origin, and then down to all that lies below. And a walk
//! down within a bound.
ghost use Rattle.std.specs.Prelude.{[], ◌≡◌, ◌≢◌, ◌↔◌, ◌+◌, ◌++◌, ◌^◌, ◌<◌, ◌≤◌, None, false, IsSome, OnSome, OnOk, OnErr, IfOk, AllPairs, IsOk, Contains, length, vec_len, vec_capacity};
ghost use Rattle.sm_names.specs.declared.keys.NodeKey.{NodeKey as Key};
ghost use Rattle.sm_names.specs.Losses.{Reach};
ghost use Rattle.node_table.specs.Table.{row_at, parent_at, children_at, table_len};
ghost use Rattle.node_table.specs.Forest.{IsForest, depth_at};
ghost use Rattle.failure_domains.specs.Falls.{blocked_at, way_up, links_climbed, stopped_at, children_within, Within, IsByLayers};
ghost use Rattle.failure_domains.specs.Walks.{Climb, IsWalk};

use crate::found::Fall;
use crate::link::{Link, Unbounded, WalkBound};
use node_table::NodeTable;
use sm_names::{NoMemory, NodeKey};
use std::alloc::Global;

/// What a failure of `origin` takes: the node itself, the parent of each node that it takes and
/// whose link does not block, and every child of each node that it takes.
///
/// The first key is the highest node, and then come the children of each key in turn, by birth.
/// Takes memory for the keys alone. `NoMemory` comes only where the list of keys was refused room.
/// The table stays as it is. Costs O(1) for each visit.
pub fn fall<N: Link>(alloc: Global, table: &NodeTable<N>, origin: NodeKey) -> Result<Fall, NoMemory>
    requires { IsSome (row_at table.now origin) }

    ensures keys { IfOk result (λ fall. (key : Key) → Contains fall.keys.items key
        ↔ Reach (parent_at table.now) (blocked_at N.blocks table.now) origin key) }
    ensures once { IfOk result (λ fall. AllPairs (λ (a b : Key). a ≢ b) fall.keys.items) }
    ensures layers { IfOk result (λ fall. IsByLayers (children_at table.now) fall.keys.items) }

    // Each key is taken from the list once, and each link climbed is a step.
    ensures visits { IfOk result (λ fall.
        fall.visits ≡ vec_len fall.keys + links_climbed N.blocks table.now origin) }
    ensures few_visits { IfOk result (λ fall.
        fall.visits ≤ vec_len fall.keys + depth_at table.now origin) }
{
    let mut keys = Vec::new(alloc);
    let visits = fall_into(table, origin, &mut keys)?;
    Ok(Fall { keys, visits })
}

/// The same, written into this list, which is emptied first. Answers the visits.
///
/// Where the list has room for as many keys as there are nodes, it takes no memory and never
/// fails. It never loses room. On `NoMemory`, which comes only where it was refused more, it is
/// empty.
pub fn fall_into<N: Link>(
    table: &NodeTable<N>,
    origin: NodeKey,
    keys: &mut Vec<NodeKey>,
) -> Result<u64, NoMemory>
    requires { IsSome (row_at table.now origin) }

    ensures keys { OnOk result ((key : Key) → Contains keys.new.items key
        ↔ Reach (parent_at table.now) (blocked_at N.blocks table.now) origin key) }
    ensures once { OnOk result (AllPairs (λ (a b : Key). a ≢ b) keys.new.items) }
    ensures layers { OnOk result (IsByLayers (children_at table.now) keys.new.items) }
    ensures visits { IfOk result (λ visits.
        visits ≡ vec_len keys.new + links_climbed N.blocks table.now origin) }
    ensures few_visits { IfOk result (λ visits.
        visits ≤ vec_len keys.new + depth_at table.now origin) }
    ensures err { OnErr result (keys.new.items ≡ []) }
    ensures room { table_len table.now ≤ vec_capacity keys.old → IsOk result }
    ensures capacity { vec_capacity keys.old ≤ vec_capacity keys.new }
    ensures forest { OnOk result (IsForest table.now) }
{
    let (top, steps) = climb(table, origin);
    let Ok(below) = walk(table, top, keys, &Unbounded) else {
        keys.clear();
        return Err(NoMemory);
    };
    Ok(steps + below)
}

/// The highest node that a failure of `origin` climbs to, and the steps to it: fewer than there are
/// nodes.
fn climb<N: Link>(table: &NodeTable<N>, origin: NodeKey) -> (NodeKey, u64)
    requires { IsSome (row_at table.now origin) }
    ensures path { Climb (parent_at table.now) (blocked_at N.blocks table.now)
        origin result.0 result.1 }
    ensures top { way_up N.blocks table.now result.0 ≡ None }
    ensures there { IsSome (row_at table.now result.0) }
{
    let mut top = origin;
    'up: for steps in 0..table.len() as u64 {
        match way_up(table, top) {
            Some(above) => top = above,
            None => return (top, steps),
        }
    }
    unreachable!()
}

/// The parent that a failure of `key`, which is there, climbs to, if it climbs.
fn way_up<N: Link>(table: &NodeTable<N>, key: NodeKey) -> Option<NodeKey>
    requires { IsSome (row_at table.now key) }
    ensures value { result ≡ way_up N.blocks table.now key }
    ensures forest { OnSome result (IsForest table.now) }
{
    if table.kept(key).blocks() {
        None
    } else {
        table.kept_parent(key)
    }
}

/// The top node and what lies below it within the bound: every child of the top, and of each node
/// that it takes and that doesn't stop it. They are written into this list, which is emptied first:
/// the top first, and then such children of each key in turn, by birth.
///
/// Where the list has room for as many keys as there are nodes, it takes no memory and never fails.
/// It never loses room. On `NoMemory`, which comes only where it was refused more, it is empty. The
/// table stays as it is. Costs O(1) for each key, and nothing for what lies below a node that stops
/// it.
pub fn walk_within<N, B: WalkBound<N>>(
    table: &NodeTable<N>,
    top: NodeKey,
    keys: &mut Vec<NodeKey>,
    bound: &B,
) -> Result<(), NoMemory>
    requires { IsSome (row_at table.now top) }

    ensures keys { OnOk result ((key : Key) → Contains keys.new.items key
        ↔ Within (parent_at table.now) (stopped_at (B.stops bound.now) table.now top) top key) }
    ensures once { OnOk result (AllPairs (λ (a b : Key). a ≢ b) keys.new.items) }
    ensures layers { OnOk result
        (IsByLayers (children_within (B.stops bound.now) table.now top) keys.new.items) }
    ensures err { OnErr result (keys.new.items ≡ []) }
    ensures room { table_len table.now ≤ vec_capacity keys.old → IsOk result }
    ensures capacity { vec_capacity keys.old ≤ vec_capacity keys.new }
{
    let Ok(_) = walk(table, top, keys, bound) else {
        keys.clear();
        return Err(NoMemory);
    };
    Ok(())
}

/// The same. Each key is taken once from the list, which is a visit: how many there were.
fn walk<N, B: WalkBound<N>>(
    table: &NodeTable<N>,
    top: NodeKey,
    keys: &mut Vec<NodeKey>,
    bound: &B,
) -> Result<u64, NoMemory>
    requires { IsSome (row_at table.now top) }
    ensures keys { OnOk result (IsWalk (children_within (B.stops bound.now) table.now top)
        (depth_at table.now)
        top (length keys.new.items) keys.new.items) }
    ensures visits { IfOk result (λ visits. visits ≡ length keys.new.items) }
    ensures few { IfOk result (λ visits. visits < 2 ^ 63) }
    ensures forest { OnOk result (IsForest table.now) }
    ensures room { table_len table.now ≤ vec_capacity keys.old → IsOk result }
    ensures capacity { vec_capacity keys.old ≤ vec_capacity keys.new }
{
    keys.clear();
    if keys.push(top).is_err() {
        return Err(NoMemory);
    }
    let mut visits = 0;
    'down: while visits < keys.len() {
        append_within(table, top, keys[visits], keys, bound)?;
        visits += 1;
    }
    Ok(visits as u64)
}

/// Appends the children of the key to the list, if it is the top or its node doesn't stop the walk.
fn append_within<N, B: WalkBound<N>>(
    table: &NodeTable<N>,
    top: NodeKey,
    key: NodeKey,
    keys: &mut Vec<NodeKey>,
    bound: &B,
) -> Result<(), NoMemory>
    ensures ok { OnOk result (keys.new.items
        ≡ keys.old.items ++ children_within (B.stops bound.now) table.now top key) }
    ensures room { vec_len keys.old
        + length (children_within (B.stops bound.now) table.now top key) ≤ vec_capacity keys.old
        → IsOk result }
    ensures capacity { vec_capacity keys.old ≤ vec_capacity keys.new }
    ensures forest { stopped_at (B.stops bound.now) table.now top key ≡ false → IsForest table.now }
{
    if stops_at(table, top, key, bound) {
        return Ok(());
    }
    table.append_children(key, keys)
}

/// Whether the key is not the top, and its node stops the walk.
fn stops_at<N, B: WalkBound<N>>(table: &NodeTable<N>, top: NodeKey, key: NodeKey, bound: &B) -> bool
    ensures { result ≡ stopped_at (B.stops bound.now) table.now top key }
{
    if key == top {
        return false;
    }
    match table.get(key) {
        Some(node) => bound.stops(node),
        None => false,
    }
}
