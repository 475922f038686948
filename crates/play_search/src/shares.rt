//! How many orders lead to each ending, which share of runs, and where only one is left.
use crate::graph::{Edge, Graph};
use crate::order::Ordered;
use std::alloc::{AllocError, Global};

// How many orders there are, and for each ending the share of the runs that come to it, where each turn is drawn
// evenly among those that there are, the end of the run among them where it may end.
#[derive(Drop)]
pub(crate) struct Shares {
    pub(crate) orders: f64,
    pub(crate) shares: Vec<f64>,
    // How many orders lead to each value, and the share of the runs that come by it.
    paths: Vec<f64>,
    chances: Vec<f64>,
}

fn add_at(numbers: &mut [f64], at: usize, more: f64) {
    if at < numbers.len() {
        numbers[at] = numbers[at] + more;
    }
}

pub(crate) fn number_at(numbers: &[f64], at: usize) -> f64 {
    match numbers.get(at) {
        Some(number) => *number,
        None => 0.0,
    }
}

// So many as a number, and one more if the run may end.
fn count_of(edges: &[Edge], ends: bool) -> f64 {
    let mut count = if ends { 1.0 } else { 0.0 };
    for _ in edges {
        count = count + 1.0;
    }
    count
}

impl Shares {
    // Hands on what comes to the value to its ending, and along its edges.
    fn hand_on(&mut self, graph: &Graph, at: usize) {
        let path = number_at(&self.paths, at);
        let chance = number_at(&self.chances, at);
        let edges = graph.edges_of(at);
        let ending = graph.ending_at(at);
        let part = chance / count_of(edges, ending.is_some());
        if let Some(ending) = ending {
            add_at(&mut self.shares, ending as usize, part);
            self.orders = self.orders + path;
        }
        for edge in edges {
            add_at(&mut self.paths, edge.to as usize, path);
            add_at(&mut self.chances, edge.to as usize, part);
        }
    }
}

pub(crate) fn shares_of(
    alloc: Global,
    graph: &Graph,
    order: &[Ordered],
) -> Result<Shares, AllocError> {
    let mut shares = Shares {
        orders: 0.0,
        shares: vec![in alloc; 0.0; graph.endings.len()]?,
        paths: vec![in alloc; 0.0; graph.rows.len()]?,
        chances: vec![in alloc; 0.0; graph.rows.len()]?,
    };
    add_at(&mut shares.paths, 0, 1.0);
    add_at(&mut shares.chances, 0, 1.0);
    for (_, at) in order {
        shares.hand_on(graph, *at);
    }
    Ok(shares)
}

// The ending that is left at the value, counted from 1: 0 where there are several.
pub(crate) fn left_at(lefts: &[u32], at: usize) -> u32 {
    match lefts.get(at) {
        Some(left) => *left,
        None => 0,
    }
}

// The ending to which the first of these edges leads.
fn first_left(lefts: &[u32], edges: &[Edge]) -> u32 {
    match edges.first() {
        Some(edge) => left_at(lefts, edge.to as usize),
        None => 0,
    }
}

// The ending, if all of these edges lead to it.
fn left_by(lefts: &[u32], edges: &[Edge], first: u32) -> u32 {
    let mut left = first;
    for edge in edges {
        if left_at(lefts, edge.to as usize) != left {
            left = 0;
        }
    }
    left
}

fn left_from(lefts: &[u32], graph: &Graph, at: usize) -> u32 {
    let edges = graph.edges_of(at);
    let first = match graph.ending_at(at) {
        Some(ending) => ending.wrapping_add(1),
        None => first_left(lefts, edges),
    };
    left_by(lefts, edges, first)
}

// For each value the ending that every order leads to from there on, counted from 1; 0 where there are several.
pub(crate) fn lefts_of(
    alloc: Global,
    graph: &Graph,
    order: &[Ordered],
) -> Result<Vec<u32>, AllocError> {
    let mut lefts = vec![in alloc; 0; graph.rows.len()]?;
    for (_, at) in order.iter().rev() {
        let left = left_from(&lefts, graph, *at);
        if *at < lefts.len() {
            lefts[*at] = left;
        }
    }
    Ok(lefts)
}
