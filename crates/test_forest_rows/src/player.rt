//! The lines of a tree. Nodes are called by their numbers, in the order in which they are born.
use crate::ground::Ground;
use crate::line::{Line, Range, line_of};
use crate::past::{Leaving, Past};
use crate::texts::{
    Tally, push_birth, push_kept, push_node, push_pool, push_tally, tally_in, tally_of,
};
use crate::verb::Verb;
use alloc_event::forest::Forest;
use sm_names::{Call, Constraints, NodeKey, Strength};
use std::alloc::Global;
use std::mem;
use test_streams::Text;

/// A ground, and the keys of the nodes that were born on it; or what is left of its forest.
#[derive(Drop)]
pub struct Player {
    alloc: Global,
    ground: Ground,
    past: Option<Past>,
    keys: Vec<NodeKey>,
}

// The constraints of the last three numbers of a line, if these are in range.
fn demand_of(line: &Line) -> Option<Constraints> {
    let [_, _, camping, at_least, size] = line.numbers;
    let camping = u8::try_from(camping).ok()?;
    let at_least = u8::try_from(at_least).ok()?;
    Constraints::new(camping, at_least, size)
}

// The index of a buffer that the line names.
fn index_of(line: &Line) -> u8 {
    let [index, ..] = line.numbers;
    u8::try_from(index).unwrap_or(u8::MAX)
}

/// What is done with each node of a range.
#[derive(Clone, Copy)]
enum Act {
    Ask(Constraints),
    Release,
    Lose,
    Weaken,
    AllowWeak,
    MakeDispensable,
    BearBelow,
}

// What the line does with nodes.
fn act_of(line: &Line) -> Option<Act> {
    match line.verb {
        Verb::Ask => Some(Act::Ask(demand_of(line)?)),
        Verb::Release => Some(Act::Release),
        Verb::Lose => Some(Act::Lose),
        Verb::Weaken => Some(Act::Weaken),
        Verb::AllowWeak => Some(Act::AllowWeak),
        Verb::Dispensable => Some(Act::MakeDispensable),
        Verb::Below => Some(Act::BearBelow),
        _ => None,
    }
}

// The call by which that is done, if there is one.
fn call_of(act: &Act, key: NodeKey) -> Option<Call> {
    match *act {
        Act::Ask(asked) => Some(Call::SetConstraints(key, asked)),
        Act::Release => Some(Call::Release(key)),
        Act::Weaken => Some(Call::SetWeak(key)),
        Act::AllowWeak => Some(Call::SetWeakOk(key, false)),
        Act::MakeDispensable => Some(Call::SetDispensable(key)),
        Act::Lose | Act::BearBelow => None,
    }
}

// Puts behind what is there how each change altered the numbers, if all altered them alike.
fn push_turn(text: &mut Text, each: Option<Tally>) {
    match each {
        Some(tally) => {
            text.word(": each ");
            push_tally(text, tally, true);
        }
        None => text.word(": not alike"),
    }
}

// Spends the ends of nodes or forgets nodes, as the line says.
fn forget_in(past: &mut Past, keys: &[NodeKey], line: &Line) -> bool {
    let range = Range::of(line);
    match line.verb {
        Verb::Spend => past.leave_each(keys, range, Leaving::Spend),
        Verb::End => past.leave_each(keys, range, Leaving::End),
        Verb::Forget if line.count > 0 => past.leave_each(keys, range, Leaving::Forget),
        Verb::Forget => past.forget_collection(),
        _ => {
            past.forget_unkept();
            true
        }
    }
}

// What is said of a change.
fn made(is_made: bool, verb: Verb) -> &'static str {
    match (is_made, verb) {
        (true, Verb::End) => ": each forgotten alone",
        (true, _) => "",
        (false, _) => ": not made",
    }
}

impl Player {
    /// A player on an empty ground, if there is memory for one.
    pub fn new(alloc: Global) -> Option<Player> {
        let ground = Ground::new(alloc)?;
        Some(Player {
            alloc,
            ground,
            past: None,
            keys: Vec::new(alloc),
        })
    }

    // Another player stands in the place of this one, which is dropped by a call, so that its drop is proved once.
    fn put(&mut self, player: Player) {
        mem::drop(mem::replace(self, player));
    }

    // Begins anew with an empty ground.
    fn begin(&mut self) -> bool {
        match Player::new(self.alloc) {
            Some(player) => {
                self.put(player);
                true
            }
            None => false,
        }
    }

    // Ends the changes of the tree: from here on its ends are spent, and its nodes are forgotten.
    fn leave(&mut self) -> bool {
        match Ground::new(self.alloc) {
            Some(next) => {
                let ground = mem::replace(&mut self.ground, next);
                self.past = Some(Past::new(ground.into_forest()));
                true
            }
            None => false,
        }
    }

    fn forest(&self) -> &Forest {
        match &self.past {
            Some(past) => past.forest(),
            None => self.ground.forest(),
        }
    }

    // The key of the node with this number.
    fn key(&self, number: usize) -> Option<NodeKey> {
        self.keys.get(number).copied()
    }

    // The key of the node that the line names first.
    fn first_key(&self, line: &Line) -> Option<NodeKey> {
        let [number, ..] = line.numbers;
        self.key(number as usize)
    }

    // A node below another one, or a root.
    fn bear(&mut self, parent: Option<NodeKey>, attached: bool) -> Option<NodeKey> {
        let key = self.ground.bear(parent, attached)?;
        match self.keys.push(key) {
            Ok(()) => Some(key),
            Err(_) => None,
        }
    }

    // This many nodes below one, each beside the one before, or below it; all in one unit, or each in its own.
    fn bear_each(&mut self, above: NodeKey, count: u32, attached: bool, deep: bool) -> bool {
        let mut above = above;
        for _ in 0..count {
            let Some(key) = self.bear(Some(above), attached) else {
                return false;
            };
            if deep {
                above = key;
            }
        }
        true
    }

    // A unit of two nodes below one.
    fn bear_pair(&mut self, above: NodeKey) -> bool {
        match self.bear(Some(above), true) {
            Some(head) => self.bear(Some(head), false).is_some(),
            None => false,
        }
    }

    // This many units of two nodes below one.
    fn bear_pairs(&mut self, above: NodeKey, count: u32) -> bool {
        for _ in 0..count {
            if !self.bear_pair(above) {
                return false;
            }
        }
        true
    }

    // The nodes that the line makes below one.
    fn bear_below(&mut self, line: &Line) -> bool {
        let [_, count, ..] = line.numbers;
        let Some(above) = self.first_key(line) else {
            return false;
        };
        match line.verb {
            Verb::Child => self.bear_each(above, count, false, false),
            Verb::Unit => self.bear_each(above, count, true, false),
            Verb::Line => self.bear_each(above, count, false, true),
            Verb::Chain => self.bear_each(above, count, true, true),
            _ => self.bear_pairs(above, count),
        }
    }

    fn act_on(&mut self, number: usize, act: &Act) -> bool {
        let Some(key) = self.key(number) else {
            return false;
        };
        match *act {
            Act::Lose => self.ground.lose(key),
            Act::BearBelow => self.bear(Some(key), false).is_some(),
            _ => match call_of(act, key) {
                Some(call) => self.ground.settle_done(call),
                None => false,
            },
        }
    }

    // Acts on each node of the range.
    fn act_on_each(&mut self, range: Range, act: &Act) -> bool {
        for step in 0..=range.steps() {
            if !self.act_on(range.at(step), act) {
                return false;
            }
        }
        true
    }

    // Acts on a node, and answers how that altered the numbers of the whole tree.
    fn act_and_count(&mut self, number: usize, act: &Act) -> Option<Tally> {
        let before = tally_of(self.ground.forest(), &self.keys);
        if !self.act_on(number, act) {
            return None;
        }
        Some(tally_of(self.ground.forest(), &self.keys).less(before))
    }

    // Acts on each node of the range, and answers how each altered the numbers, if all altered them alike.
    fn act_in_turn(&mut self, range: Range, act: &Act) -> Option<Tally> {
        let first = self.act_and_count(range.at(0), act)?;
        for step in 1..=range.steps() {
            if self.act_and_count(range.at(step), act) != Some(first) {
                return None;
            }
        }
        Some(first)
    }

    // Acts on nodes, if the line says that.
    fn act(&mut self, line: &Line) -> bool {
        match act_of(line) {
            Some(act) => self.act_on_each(Range::of(line), &act),
            None => false,
        }
    }

    // Spends ends or forgets nodes, once the changes have ended.
    fn forget(&mut self, line: &Line) -> bool {
        match &mut self.past {
            Some(past) => forget_in(past, &self.keys, line),
            None => false,
        }
    }

    // Makes the change of the line, and answers whether it was made.
    fn change(&mut self, line: &Line) -> bool {
        match line.verb {
            Verb::Root => self.bear(None, false).is_some(),
            Verb::Child | Verb::Unit | Verb::Line | Verb::Chain | Verb::Pairs => {
                self.bear_below(line)
            }
            Verb::Leave => self.leave(),
            Verb::Spend | Verb::Forget | Verb::End | Verb::Over => self.forget(line),
            Verb::Open => self.ground.open(index_of(line), Strength::Strong),
            Verb::Close => self.ground.close(index_of(line), Strength::Strong),
            Verb::OpenWeak => self.ground.open(0, Strength::Weak),
            Verb::CloseWeak => self.ground.close(0, Strength::Weak),
            Verb::Look => self.ground.look_again(),
            _ => self.act(line),
        }
    }

    // Puts behind what is there what is seen of a node.
    fn push_one(&self, line: &Line, text: &mut Text) {
        match self.first_key(line) {
            Some(key) => push_node(text, self.forest(), key),
            None => text.word(": never born"),
        }
    }

    // Puts behind what is there what is seen of the birth of a node.
    fn push_born(&self, line: &Line, text: &mut Text) {
        match self.first_key(line) {
            Some(key) => push_birth(text, self.forest(), key),
            None => text.word(": never born"),
        }
    }

    // Puts behind what is there the numbers for the nodes of the range.
    fn push_count(&self, range: Range, text: &mut Text) {
        text.word(": ");
        push_tally(text, tally_in(self.forest(), &self.keys, range), false);
    }

    // Puts behind what is there what the line asks to see, or what became of its change.
    fn answer(&mut self, line: &Line, text: &mut Text) {
        match line.verb {
            Verb::Node => self.push_one(line, text),
            Verb::Born => self.push_born(line, text),
            Verb::Count => self.push_count(Range::of(line), text),
            Verb::Kept => push_kept(text, self.forest()),
            Verb::Pool => push_pool(text, &self.ground),
            _ => {
                let is_made = self.change(line);
                text.word(made(is_made, line.verb));
            }
        }
    }

    // Makes a change node by node, and puts behind what is there how each altered the numbers.
    fn turn(&mut self, line: &Line, text: &mut Text) {
        let each = match act_of(line) {
            Some(act) => self.act_in_turn(Range::of(line), &act),
            None => None,
        };
        push_turn(text, each);
    }

    // Takes a line that begins no tree.
    fn play(&mut self, words: &str, text: &mut Text) {
        let (is_turn, rest) = match words.strip_prefix("turn ") {
            Some(rest) => (true, rest),
            None => (false, words),
        };
        match line_of(rest) {
            Some(line) if is_turn => self.turn(&line, text),
            Some(line) => self.answer(&line, text),
            None => text.word(": not understood"),
        }
    }

    /// Takes a line, which begins a tree, changes it, or asks what is seen, and puts its answer behind what is there.
    pub fn take(&mut self, words: &str, text: &mut Text) {
        if words.is_empty() {
            return;
        }
        if !words.starts_with("tree ") {
            return self.play(words, text);
        }
        if !self.begin() {
            text.word(": no memory");
        }
    }
}
