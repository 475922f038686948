//! The links that failures followed at one event.
ghost use Rattle.std.specs.Prelude.{◌≡◌, ◌++◌, [], IfOk, List, OnOk, map};
ghost use Rattle.std.specs.List.{filter, fold};
ghost use Rattle.forced_marks.specs.KeySets.{has};
ghost use Rattle.picture_model.specs.declared.failure_view.Reached.{Reached as Lost};
ghost use Rattle.picture_model.specs.declared.failure_view.Travel.{Travel as Link};
ghost use Rattle.picture_model.specs.Travels.{FindsReached, FindsTravels, climbed, failed, fallen, fallen_to, followed, generation_below as generation_under, generations_of as generations_in, has_parent as hangs};
ghost use Rattle.picture_model.specs.Travels.{is_past, link_down, number_at as number_in, ones_of as ones_in, stopped, summed, sums_of, trace_in, travels_of, way_in, with_one};

use crate::picture_state::last_key;
use event_facts::failure_path::{find, way_up};
use event_facts::takings::taken_under;
use event_facts::{KeyMap, keys_of};
use forced_marks::key_sets::KeySet;
use forced_marks::{Forced, Moment};
use forest_store::Node;
use sm_names::NodeKey;
use std::alloc::{AllocError, Global};

/// How a failure followed a link, and at which step of the event.
#[derive(Clone, Copy)]
pub enum TravelWay {
    /// From the node to its parent.
    Up(u64),
    /// From the parent to the node.
    Down(u64),
    /// It stopped at the node.
    Stop,
}

/// The link of a node to its parent, and how a failure followed it.
#[derive(Clone, Copy)]
pub struct Travel {
    pub node: NodeKey,
    pub way: TravelWay,
}

/// The links by their nodes.
///
/// `AllocError` where memory is refused. Costs O(n log n) for n links.
pub fn travels_by_node(alloc: Global, travels: &[Travel]) -> Result<KeyMap<Travel>, AllocError>
    ensures { IfOk result (λ map. FindsTravels map travels.now) }
{
    let mut map = KeyMap::new(alloc);
    for travel in travels {
        map.add(travel.node, *travel)?;
    }
    Ok(map)
}

/// How a failure followed the link of this node. Costs O(log n) for n links.
pub fn way_of(travels: &KeyMap<Travel>, node: NodeKey) -> Option<TravelWay>
    ensures { (links : List Link) → FindsTravels travels.now links → result ≡ way_in links node }
{
    match travels.get(node) {
        Some(travel) => Some(travel.way),
        None => None,
    }
}

// The links that failures followed so far, and the last step. Where a link stands twice, the first counts: the
// nodes that an earlier failure took are gone, so that no later one follows their links.
#[derive(Drop)]
struct Trail {
    travels: Vec<Travel>,
    step: u64,
}

// The links that the failures among these marks followed. Costs O(n log n) for the n nodes of each mark
// that is a failure.
pub(crate) fn travels(alloc: Global, moments: &[Moment]) -> Result<Vec<Travel>, AllocError>
    ensures { IfOk result (λ links. links.items ≡ travels_of moments.now) }
{
    let mut trail = Trail {
        travels: Vec::new(alloc),
        step: 0,
    };
    follow(&mut trail, moments)?;
    let Trail { travels, .. } = trail;
    Ok(travels)
}

// The failures among these marks go on.
fn follow(trail: &mut Trail, moments: &[Moment]) -> Result<(), AllocError>
    ensures { OnOk result (trace_in trail.new ≡ fold followed (trace_in trail.old) moments.now) }
{
    for moment in moments {
        follow_mark(trail, moment)?;
    }
    Ok(())
}

// The failure goes on, if the mark is one.
#[tactic(auto, unfolding(crate::specs::Travels::marked_on))]
fn follow_mark(trail: &mut Trail, moment: &Moment) -> Result<(), AllocError>
    ensures { OnOk result (trace_in trail.new ≡ followed (trace_in trail.old) moment.now) }
{
    match moment.mark {
        Forced::Loss(fault) => trace_failure(trail, &moment.before.nodes, fault.origin),
        Forced::Allocated(_) | Forced::Ended(_) => Ok(()),
    }
}

// The failure of the node climbs, and falls to all that it takes.
#[tactic(auto, unfolding(crate::specs::Travels::failed))]
fn trace_failure(trail: &mut Trail, nodes: &Vec<Node>, origin: NodeKey) -> Result<(), AllocError>
    ensures { OnOk result
        (trace_in trail.new ≡ failed nodes.now.items origin (trace_in trail.old)) }
{
    let way = way_up(nodes, origin)?;
    let top = last_key(&way, origin);
    trace_up(trail, &way[..way.len().saturating_sub(1)])?;
    note_stop(trail, nodes, top)?;
    let taken = taken_under(nodes, top)?;
    trace_down(trail, &taken, &way)
}

// The failure climbs from each of these.
fn trace_up(trail: &mut Trail, below: &[NodeKey]) -> Result<(), AllocError>
    ensures { OnOk result (trace_in trail.new ≡ fold climbed (trace_in trail.old) below.now) }
{
    for node in below {
        climb_from(trail, *node)?;
    }
    Ok(())
}

// The failure climbs from the node, one step later.
#[tactic(auto, unfolding(crate::specs::Travels::climbed))]
fn climb_from(trail: &mut Trail, node: NodeKey) -> Result<(), AllocError>
    ensures { OnOk result (trace_in trail.new ≡ climbed (trace_in trail.old) node) }
{
    let step = trail.step.saturating_add(1);
    trail.step = step;
    trail.travels.push(Travel {
        node,
        way: TravelWay::Up(step),
    })?;
    Ok(())
}

// The failure stopped at the node, unless that is a root.
#[tactic(auto, unfolding(crate::specs::Travels::stopped))]
fn note_stop(trail: &mut Trail, nodes: &[Node], top: NodeKey) -> Result<(), AllocError>
    ensures { OnOk result (trace_in trail.new ≡ stopped nodes.now top (trace_in trail.old)) }
{
    if has_parent(nodes, top) {
        trail.travels.push(Travel {
            node: top,
            way: TravelWay::Stop,
        })?;
    }
    Ok(())
}

// Whether the node with this key has a parent.
fn has_parent(nodes: &[Node], key: NodeKey) -> bool
    ensures { result ≡ hangs nodes.now key }
{
    match find(nodes, key) {
        Some(node) => node.parent.is_some(),
        None => false,
    }
}

// A node that a failure takes, and how many generations it is below the top one.
#[derive(Clone, Copy)]
struct Reached {
    node: NodeKey,
    generation: usize,
}

// The failure falls to all that are taken, which stand by birth, the top one first, but for those on its
// way up: one generation a step. A generation that is all on the way takes no step.
#[tactic(auto, unfolding(crate::specs::Travels::fallen_on))]
fn trace_down(trail: &mut Trail, taken: &Vec<Node>, way: &[NodeKey]) -> Result<(), AllocError>
    ensures { OnOk result (trace_in trail.new
        ≡ fallen taken.now.items way.now (trace_in trail.old)) }
{
    let reached = reached_below(taken, way)?;
    let ones = ones_of(&reached, taken.len())?;
    let (steps, last) = add_up(&ones, trail.step)?;
    trail.step = last;
    link_all(trail, &reached, &steps)
}

// Those of the taken nodes below the top one that are not on the way up.
fn reached_below(taken: &Vec<Node>, way: &[NodeKey]) -> Result<Vec<Reached>, AllocError>
    ensures { IfOk result (λ reached. reached.items ≡ fallen_to way.now taken.now.items) }
{
    let passed = keys_of(*taken.allocator(), way)?;
    let all = generations_of(taken)?;
    let reached = reached_past(&all, &passed)?;
    Ok(reached)
}

// Those below the top one that are not among these.
fn reached_past(all: &Vec<Reached>, passed: &KeySet) -> Result<Vec<Reached>, AllocError>
    ensures { IfOk result (λ reached.
        reached.items ≡ filter (is_past (has passed.now)) all.now.items) }
{
    let mut reached = Vec::new(*all.allocator());
    for node in all {
        if is_reached(node, passed) {
            reached.push(*node)?;
        }
    }
    Ok(reached)
}

// Whether the node is below the top one, and not among these.
fn is_reached(node: &Reached, passed: &KeySet) -> bool
    ensures { result ≡ is_past (has passed.now) node.now }
{
    0 < node.generation && !passed.has(node.node)
}

// The taken nodes, each with its generation.
fn generations_of(taken: &Vec<Node>) -> Result<Vec<Reached>, AllocError>
    ensures { IfOk result (λ all. all.items ≡ generations_in taken.now.items) }
{
    let alloc = *taken.allocator();
    let mut generations = KeyMap::new(alloc);
    let mut all = Vec::new(alloc);
    for node in taken {
        let generation = generation_below(&generations, node);
        generations.add(node.key, generation)?;
        all.push(Reached {
            node: node.key,
            generation,
        })?;
    }
    Ok(all)
}

// The generation of a node whose parent is among these, and 0 for the top one.
fn generation_below(above: &KeyMap<usize>, node: &Node) -> usize
    ensures { (known : List Lost) → FindsReached above.now known →
        result ≡ generation_under known node.now }
{
    let Some(parent) = node.parent else {
        return 0;
    };
    match above.get(parent) {
        Some(generation) => generation.saturating_add(1),
        None => 0,
    }
}

// For each of this many generations 1, if some of these nodes are of it, and else 0.
fn ones_of(reached: &Vec<Reached>, count: usize) -> Result<Vec<u64>, AllocError>
    ensures { IfOk result (λ ones. ones.items ≡ ones_in count reached.now.items) }
{
    let mut ones = vec![in *reached.allocator(); 0u64; count]?;
    for node in reached {
        set_one(&mut ones, node.generation);
    }
    Ok(ones)
}

// Puts a one at this place.
fn set_one(ones: &mut Vec<u64>, at: usize)
    ensures { ones.new.items ≡ with_one ones.old.items at }
{
    if at < ones.len() {
        ones[at] = 1;
    }
}

// The sum of all up to each place, and of what was before; and the last sum.
fn add_up(ones: &Vec<u64>, before: u64) -> Result<(Vec<u64>, u64), AllocError>
    ensures { IfOk result (λ sums. sums_of sums.0.items sums.1
        ≡ fold summed (sums_of [] before) ones.now.items) }
{
    let mut steps = Vec::new(*ones.allocator());
    let mut last = before;
    for one in ones {
        last = last.saturating_add(*one);
        steps.push(last)?;
    }
    Ok((steps, last))
}

// The failure falls to each of these, at the step of its generation.
fn link_all(trail: &mut Trail, reached: &Vec<Reached>, steps: &[u64]) -> Result<(), AllocError>
    ensures step { OnOk result (trail.new.step ≡ trail.old.step) }
    ensures links { OnOk result (trail.new.travels.items
        ≡ trail.old.travels.items ++ map (link_down steps.now) reached.now.items) }
{
    for node in reached {
        trail.travels.push(down_to(node, steps))?;
    }
    Ok(())
}

// The link by which the failure falls to the node.
fn down_to(node: &Reached, steps: &[u64]) -> Travel
    ensures { result ≡ link_down steps.now node.now }
{
    Travel {
        node: node.node,
        way: TravelWay::Down(number_at(steps, node.generation)),
    }
}

// The number at this place, or 0.
fn number_at(numbers: &[u64], at: usize) -> u64
    ensures { result ≡ number_in numbers.now at }
{
    match numbers.get(at) {
        Some(number) => *number,
        None => 0,
    }
}
