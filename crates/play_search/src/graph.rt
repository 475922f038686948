//! The values of plays that were met, and the turns that lead from one to another.
ghost use Rattle.std.specs.Prelude.{◌≡◌, ◌≤◌, ◌+◌, is_some, reverse, slice_get, true, IfOk, OnOk, vec_len};
ghost use Rattle.actor_plays.specs.Plays.{IsPlay};
ghost use Rattle.play_search.specs.Closing.{way_to};
ghost use Rattle.play_search.specs.Searches.{IsPool, IsWithin};

use crate::falls::NamedFall;
use crate::fault::ExploreFault;
use crate::next::{Ended, Group, Met, ended_in, met_in, next_in, nexts_of};
use crate::numbers::small;
use crate::progress::{Progress, tell_met};
use crate::replay::{Ground, made_again};
use crate::turns::{code_of, is_step, turn_of};
use crate::unmade::note_made;
use actor_plays::Play;
use explore_model::Turn;
use indexmap::IndexSet;
use script_lines::LabelHash;
use std::alloc::{AllocError, Global};
use std::collections::HashMap;

// The turn of this number leads to this value, or to none that is known, if it was not tried.
#[derive(Clone, Copy)]
pub(crate) struct Edge {
    pub(crate) turn: u32,
    pub(crate) to: u32,
}

// What is known of a value: the value and the number of the turn from which it was met first, how far it is, which of
// the edges are its own, how many of these were tried, whether it was looked at what it ends in, and the ending, from 0, if
// a play may end there.
#[derive(Clone, Copy)]
pub(crate) struct Row {
    pub(crate) parent: u32,
    pub(crate) turn: u32,
    pub(crate) level: u64,
    pub(crate) first: usize,
    pub(crate) count: u32,
    pub(crate) tried: u32,
    pub(crate) closed: bool,
    pub(crate) ending: Option<u32>,
}

// All values that were met, in that order, each with a row and the nodes that fell.
#[derive(Drop)]
pub(crate) struct Graph {
    values: IndexSet<Vec<u8>, LabelHash>,
    falls: Vec<Vec<NamedFall>>,
    pub(crate) rows: Vec<Row>,
    pub(crate) edges: Vec<Edge>,
    pub(crate) endings: IndexSet<Vec<u8>, LabelHash>,
    // Who vanished in each ending.
    pub(crate) groups: Vec<Group>,
    // The steps whose call some play made, by their numbers.
    pub(crate) made: HashMap<u32, bool>,
    // What the search has cost: the bytes of all values, and the calls of all plays.
    cost: usize,
    // How many values it has room for.
    most: usize,
    // There was no room for a value.
    full: bool,
}

// The number of a text in a set, and whether it is new there.
fn number_in(
    set: &mut IndexSet<Vec<u8>, LabelHash>,
    text: Vec<u8>,
) -> Result<(usize, bool), AllocError> {
    match set.insert_full(text) {
        Ok(placed) => Ok(placed),
        Err(_) => Err(AllocError),
    }
}

impl Graph {
    // No value, and room for this many.
    fn new(alloc: Global, hash: LabelHash, most: usize) -> Graph
        ensures within { IsWithin result }
        ensures most { result.most ≡ most }
    {
        Graph {
            values: IndexSet::with_hasher(alloc, hash),
            falls: Vec::new(alloc),
            rows: Vec::new(alloc),
            edges: Vec::new(alloc),
            endings: IndexSet::with_hasher(alloc, hash),
            groups: Vec::new(alloc),
            made: HashMap::new(alloc),
            cost: 0,
            most,
            full: false,
        }
    }

    // Whether so much is more than 1,024 bytes and calls for each value that there is room for.
    pub(crate) fn is_costly(&self, cost: usize) -> bool {
        self.most.saturating_mul(1024) < cost
    }

    // Whether the search stops: there was no room for a value, or it was too costly.
    fn stops(&self) -> bool {
        self.full || self.is_costly(self.cost)
    }

    fn add_cost(&mut self, more: usize)
        ensures { self.new ≡ record self.old { cost = self.new.cost } }
    {
        self.cost = self.cost.saturating_add(more);
    }

    pub(crate) fn row(&self, at: usize) -> Option<Row>
        ensures { result ≡ slice_get self.now.rows.items at }
    {
        self.rows.get(at).copied()
    }

    // How far the value at this place is.
    pub(crate) fn level_at(&self, at: usize) -> u64 {
        match self.row(at) {
            Some(row) => row.level,
            None => 0,
        }
    }

    // The turns by which the value was met first, the last one first.
    fn path_back(&self, alloc: Global, place: usize) -> Result<Vec<Turn>, AllocError>
        ensures { IfOk result (λ turns.
            reverse turns.items ≡ way_to self.now.rows.items place) }
    {
        let mut turns = Vec::new(alloc);
        let mut at = place;
        'rows: for _ in 0..self.rows.len() {
            if at == 0 {
                return Ok(turns);
            }
            let Some(row) = self.row(at) else {
                return Ok(turns);
            };
            turns.push(turn_of(row.turn))?;
            at = row.parent as usize;
        }
        Ok(turns)
    }

    // The turns by which the value was met first.
    pub(crate) fn path_to(&self, alloc: Global, at: usize) -> Result<Vec<Turn>, AllocError>
        ensures { IfOk result (λ turns. turns.items ≡ way_to self.now.rows.items at) }
    {
        let mut turns = self.path_back(alloc, at)?;
        turns.as_mut_slice().reverse();
        Ok(turns)
    }

    // The nodes that fell in the value.
    fn falls_at(&self, at: usize) -> &[NamedFall] {
        match self.falls.get(at) {
            Some(falls) => falls,
            None => &[],
        }
    }

    // Adds a value that is new, with its nodes that fell and its row.
    fn push(&mut self, value: Vec<u8>, falls: Vec<NamedFall>, row: Row) -> Result<usize, AllocError>
        ensures rows { OnOk result (vec_len self.new.rows ≡ vec_len self.old.rows + 1) }
        ensures most { OnOk result (self.new.most ≡ self.old.most) }
    {
        self.add_cost(value.len());
        let (place, _) = number_in(&mut self.values, value)?;
        self.falls.push(falls)?;
        self.rows.push(row)?;
        Ok(place)
    }

    // Adds the value, to which the turn of this number led from the one at this place, and answers its place, and whether it
    // is new. `None` where it is new and there is no room for it.
    fn add(
        &mut self,
        parent: usize,
        turn: u32,
        met: Met,
    ) -> Result<Option<(usize, bool)>, AllocError>
        requires { IsWithin self.old }
        ensures within { OnOk result (IsWithin self.new) }
        ensures most { OnOk result (self.new.most ≡ self.old.most) }
    {
        let Met {
            value,
            falls,
            level,
        } = met;
        if let Some(place) = self.values.get_index_of(&value) {
            return Ok(Some((place, false)));
        }
        if self.most <= self.rows.len() {
            return Ok(None);
        }
        let row = Row {
            parent: small(parent),
            turn,
            level,
            first: 0,
            count: 0,
            tried: 0,
            closed: false,
            ending: None,
        };
        let place = self.push(value, falls, row)?;
        Ok(Some((place, true)))
    }

    // Notes the ending of the value at this place, in which these vanished.
    fn note_ending(&mut self, at: usize, ended: Ended) -> Result<(), AllocError>
        requires { IsWithin self.old }
        ensures within { OnOk result (IsWithin self.new) }
        ensures most { OnOk result (self.new.most ≡ self.old.most) }
    {
        let Ended { text, group } = ended;
        let (place, new) = number_in(&mut self.endings, text)?;
        if new {
            self.groups.push(group)?;
        }
        if at < self.rows.len() {
            self.rows[at].ending = Some(small(place));
        }
        Ok(())
    }

    // It is looked at what the value at this place ends in.
    fn close(&mut self, at: usize)
        requires { IsWithin self.old }
        ensures within { IsWithin self.new }
        ensures most { self.new.most ≡ self.old.most }
    {
        if at < self.rows.len() {
            self.rows[at].closed = true;
        }
    }

    // Notes what the value at this place ends in, at which the play stands, if a play may end there.
    fn end(&mut self, ground: &Ground<'_>, play: &Play, at: usize) -> Result<(), AllocError>
        requires { IsWithin self.old }
        ensures within { OnOk result (IsWithin self.new) }
        ensures most { OnOk result (self.new.most ≡ self.old.most) }
    {
        self.close(at);
        match ended_in(ground, self.falls_at(at), play)? {
            Some(ended) => self.note_ending(at, ended),
            None => Ok(()),
        }
    }

    // These turns, none of which was tried, are those of the value at this place.
    fn push_turns(&mut self, at: usize, nexts: &[Turn]) -> Result<(), AllocError>
        requires { IsWithin self.old }
        ensures within { OnOk result (IsWithin self.new) }
        ensures most { OnOk result (self.new.most ≡ self.old.most) }
    {
        if at < self.rows.len() {
            self.rows[at].first = self.edges.len();
            self.rows[at].count = small(nexts.len());
        }
        push_edges(&mut self.edges, nexts)
    }

    // Notes by which turns the value at this place goes on, which is new and at which the play stands; if none of them is a
    // step, what it ends in.
    fn open(&mut self, ground: &Ground<'_>, play: &Play, at: usize) -> Result<(), AllocError>
        requires { IsWithin self.old }
        ensures within { OnOk result (IsWithin self.new) }
        ensures most { OnOk result (self.new.most ≡ self.old.most) }
    {
        let nexts = nexts_of(ground, play)?;
        self.push_turns(at, &nexts)?;
        if nexts.iter().all(|turn| !is_step(code_of(*turn))) {
            self.end(ground, play, at)?;
        }
        Ok(())
    }

    // Adds the value without a turn, at which the play stands.
    fn begin(&mut self, ground: &Ground<'_>, play: &Play) -> Result<(), AllocError>
        requires { IsWithin self.old }
        ensures within { OnOk result (IsWithin self.new) }
        ensures most { OnOk result (self.new.most ≡ self.old.most) }
    {
        let met = met_in(ground, &[], play)?;
        match self.add(0, 0, met)? {
            Some((at, _)) => self.open(ground, play, at),
            None => {
                self.full = true;
                Ok(())
            }
        }
    }

    // The first turn of the value at this place that was not tried.
    fn untried(&self, at: usize) -> Option<u32> {
        let row = self.row(at)?;
        if row.count <= row.tried {
            return None;
        }
        let edge = self
            .edges
            .get(row.first.saturating_add(row.tried as usize))?;
        Some(edge.turn)
    }

    // That turn leads to this value.
    fn lead(&mut self, at: usize, to: usize)
        requires { IsWithin self.old }
        ensures within { IsWithin self.new }
        ensures most { self.new.most ≡ self.old.most }
    {
        if at < self.rows.len() {
            let row = self.rows[at];
            let place = row.first.saturating_add(row.tried as usize);
            if place < self.edges.len() {
                self.edges[place].to = small(to);
            }
            self.rows[at].tried = row.tried.saturating_add(1);
        }
    }

    // That turn is not made.
    fn give_up(&mut self, at: usize)
        requires { IsWithin self.old }
        ensures within { IsWithin self.new }
        ensures most { self.new.most ≡ self.old.most }
    {
        if at < self.rows.len() {
            let row = self.rows[at];
            let end = row.first.saturating_add(row.count as usize);
            let place = row.first.saturating_add(row.tried as usize);
            if place < end && end <= self.edges.len() {
                self.edges[place..end].rotate_left(1);
            }
            self.rows[at].count = row.count.saturating_sub(1);
        }
    }

    // Adds the value to which that turn led, at which the play stands, and answers its place. `None` where there is no room.
    fn arrive(
        &mut self,
        ground: &Ground<'_>,
        play: &Play,
        at: usize,
        turn: u32,
        met: Met,
    ) -> Result<Option<usize>, AllocError>
        requires { IsWithin self.old }
        ensures within { OnOk result (IsWithin self.new) }
        ensures most { OnOk result (self.new.most ≡ self.old.most) }
    {
        let Some((to, new)) = self.add(at, turn, met)? else {
            self.full = true;
            return Ok(None);
        };
        self.lead(at, to);
        note_made(&mut self.made, ground, play, turn)?;
        if new {
            self.open(ground, play, to)?;
        }
        Ok(Some(to))
    }

    // Tries the next turn of the value at this place, at which the play stands, and answers to which value the turn led.
    // `None` where none is left, it is not made or there is no room.
    fn go_on(
        &mut self,
        ground: &Ground<'_>,
        play: &mut Play,
        at: usize,
    ) -> Result<Option<usize>, ExploreFault>
        requires plays { IsPlay ground.now.plans.now play.old }
        requires within { IsWithin self.old }
        ensures plays { IfOk result (λ to. is_some to ≡ true → IsPlay ground.now.plans.now play.new) }
        ensures within { OnOk result (IsWithin self.new) }
        ensures most { OnOk result (self.new.most ≡ self.old.most) }
    {
        let Some(turn) = self.untried(at) else {
            return Ok(None);
        };
        self.add_cost(1);
        match next_in(play, ground, self.falls_at(at), turn_of(turn))? {
            Some(met) => Ok(self.arrive(ground, play, at, turn, met)?),
            None => {
                self.give_up(at);
                Ok(None)
            }
        }
    }

    // Goes on from value to value, from the one at this place, at which the play stands, as long as there are turns to try.
    fn walk(&mut self, ground: &Ground<'_>, play: &mut Play, at: usize) -> Result<(), ExploreFault>
        requires plays { IsPlay ground.now.plans.now play.old }
        requires within { IsWithin self.old }
        ensures within { OnOk result (IsWithin self.new) }
        ensures most { OnOk result (self.new.most ≡ self.old.most) }
    {
        let mut at = at;
        'walk: for _ in 0..self.most {
            match self.go_on(ground, play, at)? {
                Some(to) => at = to,
                None => return Ok(()),
            }
        }
        Ok(())
    }

    // A play that has come to the value at this place.
    fn play_at(&mut self, ground: &Ground<'_>, at: usize) -> Result<Box<Play>, ExploreFault>
        requires { IsPool ground.now.setting.pages }
        ensures plays { IfOk result (λ play. IsPlay ground.now.plans.now play.value) }
        ensures rest { OnOk result (self.new ≡ record self.old { cost = self.new.cost }) }
    {
        let turns = self.path_to(ground.alloc, at)?;
        self.add_cost(turns.len().saturating_add(ground.plans.len()));
        made_again(ground, &turns, false)
    }

    // The same by a play that is made again.
    fn walk_from(&mut self, ground: &Ground<'_>, at: usize) -> Result<(), ExploreFault>
        requires pages { IsPool ground.now.setting.pages }
        requires within { IsWithin self.old }
        ensures within { OnOk result (IsWithin self.new) }
        ensures most { OnOk result (self.new.most ≡ self.old.most) }
    {
        let mut play = self.play_at(ground, at)?;
        self.walk(ground, &mut play, at)
    }

    // Tries all turns of the value at this place, unless the search stops.
    fn expand(&mut self, ground: &Ground<'_>, at: usize) -> Result<(), ExploreFault>
        requires pages { IsPool ground.now.setting.pages }
        requires within { IsWithin self.old }
        ensures within { OnOk result (IsWithin self.new) }
        ensures most { OnOk result (self.new.most ≡ self.old.most) }
    {
        'turns: for _ in 0..self.edges_of(at).len() {
            if self.stops() || self.untried(at).is_none() {
                return Ok(());
            }
            self.walk_from(ground, at)?;
        }
        Ok(())
    }

    // Whether no step is made in the value at this place, and it was not looked at what it ends in.
    fn is_open(&self, at: usize) -> bool {
        match self.row(at) {
            Some(row) => !row.closed && self.edges_of(at).iter().all(|edge| !is_step(edge.turn)),
            None => false,
        }
    }

    // Notes what the value at this place ends in, if no step is made there, by a play that is made again.
    fn end_at(&mut self, ground: &Ground<'_>, at: usize) -> Result<(), ExploreFault>
        requires pages { IsPool ground.now.setting.pages }
        requires within { IsWithin self.old }
        ensures within { OnOk result (IsWithin self.new) }
        ensures most { OnOk result (self.new.most ≡ self.old.most) }
    {
        if !self.is_open(at) {
            return Ok(());
        }
        let play = self.play_at(ground, at)?;
        Ok(self.end(ground, &play, at)?)
    }

    // The ending at this place, if a play may end there.
    pub(crate) fn ending_at(&self, at: usize) -> Option<u32> {
        match self.row(at) {
            Some(row) => row.ending,
            None => None,
        }
    }

    // The edges of the value at this place.
    pub(crate) fn edges_of(&self, at: usize) -> &[Edge] {
        match self.row(at) {
            Some(row) => {
                let end = row.first.saturating_add(row.count as usize);
                if end <= self.edges.len() {
                    &self.edges[row.first..end]
                } else {
                    &[]
                }
            }
            None => &[],
        }
    }
}

// Adds an edge for each of these turns, which were not tried.
fn push_edges(edges: &mut Vec<Edge>, nexts: &[Turn]) -> Result<(), AllocError> {
    for turn in nexts {
        edges.push(Edge {
            turn: code_of(*turn),
            to: u32::MAX,
        })?;
    }
    Ok(())
}

// The graph of all values, this many at most, and whether it is whole.
pub(crate) fn graph_of<P: Progress>(
    ground: &Ground<'_>,
    hash: LabelHash,
    most: usize,
    progress: &P,
) -> Result<(Graph, bool), ExploreFault>
    requires { IsPool ground.now.setting.pages }
    ensures { IfOk result (λ found. vec_len found.0.rows ≤ most) }
{
    let mut graph = Graph::new(ground.alloc, hash, most);
    let whole = fill(&mut graph, ground, most, progress)?;
    Ok((graph, whole))
}

// Adds all values, and answers whether there was room for all.
fn fill<P: Progress>(
    graph: &mut Graph,
    ground: &Ground<'_>,
    most: usize,
    progress: &P,
) -> Result<bool, ExploreFault>
    requires pages { IsPool ground.now.setting.pages }
    requires within { IsWithin graph.old }
    ensures within { OnOk result (IsWithin graph.new) }
    ensures most { OnOk result (graph.new.most ≡ graph.old.most) }
{
    begin(graph, ground)?;
    explore_all(graph, ground, most, progress)?;
    if graph.stops() {
        return Ok(false);
    }
    end_all(graph, ground)?;
    Ok(true)
}

// Adds the value without a turn.
fn begin(graph: &mut Graph, ground: &Ground<'_>) -> Result<(), ExploreFault>
    requires pages { IsPool ground.now.setting.pages }
    requires within { IsWithin graph.old }
    ensures within { OnOk result (IsWithin graph.new) }
    ensures most { OnOk result (graph.new.most ≡ graph.old.most) }
{
    let play = graph.play_at(ground, 0)?;
    Ok(graph.begin(ground, &play)?)
}

// Goes on from each value, unless the search stops, and tells how many were met.
fn explore_all<P: Progress>(
    graph: &mut Graph,
    ground: &Ground<'_>,
    most: usize,
    progress: &P,
) -> Result<(), ExploreFault>
    requires pages { IsPool ground.now.setting.pages }
    requires within { IsWithin graph.old }
    ensures within { OnOk result (IsWithin graph.new) }
    ensures most { OnOk result (graph.new.most ≡ graph.old.most) }
{
    let mut told = 0;
    'values: for at in 0..most {
        if graph.stops() || graph.rows.len() <= at {
            return Ok(());
        }
        graph.expand(ground, at)?;
        told = tell_met(progress, graph.rows.len(), told);
    }
    Ok(())
}

// Notes what each value ends in, for which it was not done.
fn end_all(graph: &mut Graph, ground: &Ground<'_>) -> Result<(), ExploreFault>
    requires pages { IsPool ground.now.setting.pages }
    requires within { IsWithin graph.old }
    ensures within { OnOk result (IsWithin graph.new) }
    ensures most { OnOk result (graph.new.most ≡ graph.old.most) }
{
    'values: for at in 0..graph.rows.len() {
        graph.end_at(ground, at)?;
    }
    Ok(())
}
