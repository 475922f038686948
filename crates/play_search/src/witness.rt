//! The shortest way to each ending: of the fewest calls, and of these with the fewest changes of the actor.
use crate::graph::Graph;
use crate::numbers::small;
use crate::order::Ordered;
use crate::turns::{actor_of, turn_of};
use explore_model::Turn;
use std::alloc::{AllocError, Global};

// A way to a value whose last turn was an actor's: how many calls, how many times another actor took over, where it
// comes from, the actor of the turn before the last, and the number of the last turn.
#[derive(Clone, Copy)]
pub(crate) struct Way {
    calls: u32,
    changes: u32,
    from: u32,
    last: u32,
    turn: u32,
}

fn no_way() -> Way {
    Way {
        calls: u32::MAX,
        changes: u32::MAX,
        from: 0,
        last: 0,
        turn: 0,
    }
}

// The ways to all values, for each by each actor whose turn was the last; behind these the way without a turn.
#[derive(Drop)]
pub(crate) struct Ways {
    actors: usize,
    ways: Vec<Way>,
}

pub(crate) fn is_less(one: &Way, other: &Way) -> bool {
    one.calls < other.calls || one.calls == other.calls && one.changes < other.changes
}

// A turn of a way, and the value that it leads to.
#[derive(Clone, Copy)]
pub(crate) struct WayTurn {
    pub(crate) turn: Turn,
    pub(crate) to: usize,
}

impl Ways {
    fn place(&self, at: usize, last: usize) -> usize {
        at.wrapping_mul(self.actors.wrapping_add(1))
            .wrapping_add(last)
    }

    fn way(&self, at: usize, last: usize) -> Way {
        match self.ways.get(self.place(at, last)) {
            Some(way) => *way,
            None => no_way(),
        }
    }

    fn improve(&mut self, at: usize, last: usize, way: Way) {
        let place = self.place(at, last);
        if place < self.ways.len() && is_less(&way, &self.ways[place]) {
            self.ways[place] = way;
        }
    }

    // Goes on from a way to the value by the turn of this number, which leads to the next value.
    fn go_on(&mut self, at: usize, last: usize, turn: u32, to: usize) {
        let way = self.way(at, last);
        if way.calls == u32::MAX {
            return;
        }
        let actor = actor_of(turn);
        let more = if last == actor { 0 } else { 1 };
        self.improve(
            to,
            actor,
            Way {
                calls: way.calls.saturating_add(1),
                changes: way.changes.saturating_add(more),
                from: small(at),
                last: small(last),
                turn,
            },
        );
    }

    // Goes on from all ways to the value.
    fn go_on_all(&mut self, at: usize, turn: u32, to: usize) {
        for last in 0..self.actors {
            self.go_on(at, last, turn, to);
        }
        self.go_on(at, self.actors, turn, to);
    }

    // Goes on along all edges of the value.
    fn hand_on(&mut self, graph: &Graph, at: usize) {
        for edge in graph.edges_of(at) {
            self.go_on_all(at, edge.turn, edge.to as usize);
        }
    }

    // The actor whose turn ends the best way to the value.
    fn best_last(&self, at: usize) -> usize {
        let mut best = self.actors;
        for last in 0..self.actors {
            if is_less(&self.way(at, last), &self.way(at, best)) {
                best = last;
            }
        }
        best
    }

    // The best way to the value.
    fn best(&self, at: usize) -> Way {
        self.way(at, self.best_last(at))
    }

    // The turns of the best way to the value, the last one first.
    fn turns_back(&self, alloc: Global, at: usize) -> Result<Vec<WayTurn>, AllocError> {
        let mut turns = Vec::new(alloc);
        let mut at = at;
        let mut last = self.best_last(at);
        for _ in 0..self.best(at).calls {
            if last == self.actors {
                break;
            }
            let way = self.way(at, last);
            turns.push(WayTurn {
                turn: turn_of(way.turn),
                to: at,
            })?;
            at = way.from as usize;
            last = way.last as usize;
        }
        Ok(turns)
    }

    // The turns of the best way to the value.
    pub(crate) fn turns_to(&self, alloc: Global, at: usize) -> Result<Vec<WayTurn>, AllocError> {
        let mut turns = self.turns_back(alloc, at)?;
        turns.as_mut_slice().reverse();
        Ok(turns)
    }
}

// The best ways to all values, which stand in this order.
pub(crate) fn ways_of(
    alloc: Global,
    graph: &Graph,
    actors: usize,
    order: &[Ordered],
) -> Result<Ways, AllocError> {
    let count = graph.rows.len().saturating_mul(actors.saturating_add(1));
    let mut ways = Ways {
        actors,
        ways: vec![in alloc; no_way(); count]?,
    };
    let none = Way {
        calls: 0,
        changes: 0,
        from: 0,
        last: 0,
        turn: 0,
    };
    ways.improve(0, actors, none);
    for (_, at) in order {
        ways.hand_on(graph, *at);
    }
    Ok(ways)
}

// For each ending the value with the best way to it, among these.
pub(crate) fn goals_of(
    alloc: Global,
    graph: &Graph,
    ways: &Ways,
    met: &[usize],
) -> Result<Vec<Option<usize>>, AllocError> {
    let mut goals = vec![in alloc; None; graph.endings.len()]?;
    for at in met {
        if let Some(ending) = graph.ending_at(*at) {
            improve_goal(&mut goals, ways, ending as usize, *at);
        }
    }
    Ok(goals)
}

// The value is the goal of the ending, unless there is a better one.
fn improve_goal(goals: &mut [Option<usize>], ways: &Ways, ending: usize, at: usize) {
    if ending < goals.len() {
        let better = match goals[ending] {
            Some(other) => is_less(&ways.best(at), &ways.best(other)),
            None => true,
        };
        if better {
            goals[ending] = Some(at);
        }
    }
}
