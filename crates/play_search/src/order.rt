//! The values in an order that does not depend on how they were found.
use crate::graph::Graph;
use std::alloc::{AllocError, Global};

// A value behind what it is ordered by: how far it is, and its place among those met.
pub(crate) type Ordered = ((u64, usize), usize);

// Adds the number, unless it was seen.
fn meet(seen: &mut [bool], met: &mut Vec<usize>, number: usize) -> Result<(), AllocError> {
    if number < seen.len() && !seen[number] {
        seen[number] = true;
        met.push(number)?;
    }
    Ok(())
}

// Adds the values to which this one leads, by its turns in order.
fn meet_next(
    graph: &Graph,
    seen: &mut [bool],
    met: &mut Vec<usize>,
    at: usize,
) -> Result<(), AllocError> {
    for edge in graph.edges_of(at) {
        meet(seen, met, edge.to as usize)?;
    }
    Ok(())
}

// The values in the order in which they are met from the first on, if each in turn goes on by its turns.
pub(crate) fn met_of(alloc: Global, graph: &Graph) -> Result<Vec<usize>, AllocError> {
    let mut seen = vec![in alloc; false; graph.rows.len()]?;
    let mut met = Vec::new(alloc);
    meet(&mut seen, &mut met, 0)?;
    for place in 0..graph.rows.len() {
        if place < met.len() {
            let at = met[place];
            meet_next(graph, &mut seen, &mut met, at)?;
        }
    }
    Ok(met)
}

// The endings in the order in which they are met by these values.
pub(crate) fn endings_of(
    alloc: Global,
    graph: &Graph,
    met: &[usize],
) -> Result<Vec<usize>, AllocError> {
    let mut seen = vec![in alloc; false; graph.endings.len()]?;
    let mut endings = Vec::new(alloc);
    for at in met {
        if let Some(ending) = graph.ending_at(*at) {
            meet(&mut seen, &mut endings, ending as usize)?;
        }
    }
    Ok(endings)
}

// These values by the number of steps that are passed in them: each turn passes at least one.
pub(crate) fn order_of(
    alloc: Global,
    graph: &Graph,
    met: &[usize],
) -> Result<Vec<Ordered>, AllocError> {
    let mut order = Vec::new(alloc);
    for place in 0..met.len() {
        order.push(((graph.level_at(met[place]), place), met[place]))?;
    }
    order.as_mut_slice().sort_unstable();
    Ok(order)
}
