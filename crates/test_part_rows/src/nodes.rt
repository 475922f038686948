//! A table of nodes. Nodes are called by their numbers, in the order in which they are born.
ghost use Rattle.std.specs.Prelude.{IsSome, IfSome};
ghost use Rattle.node_table.specs.Table.{row_at};

use crate::line::Line;
use crate::runs::Runs;
use crate::verb::Verb;
use failure_domains::{Fall, Link, WalkBound, fall, walk_within};
use node_table::{NodeTable, TableFault};
use script_lines::Part;
use sm_names::NodeKey;
use std::alloc::Global;
use test_streams::Text;

/// A node: its number, what was written into it, and whether its failure leaves its parent alone.
#[derive(Clone, Copy)]
pub struct Item {
    number: u64,
    content: u64,
    blocks: bool,
}

impl Link for Item {
    ghost blocks = { λ item. item.blocks };

    fn blocks(&self) -> bool {
        self.blocks
    }
}

// A walk that leaves out all below the nodes that block.
struct Open;

impl WalkBound<Item> for Open {
    ghost stops = { λ _ item. item.blocks };

    fn stops(&self, item: &Item) -> bool {
        item.blocks
    }
}

/// What became of a birth.
#[derive(Clone, Copy)]
enum Birth {
    Born(u64, NodeKey),
    // The table is full, and this content came back.
    Full(u64),
    Refused,
}

/// A table, and the keys that it gave.
#[derive(Drop)]
pub struct Nodes {
    alloc: Global,
    table: NodeTable<Item>,
    keys: Vec<NodeKey>,
}

// Puts what became of a birth behind what is there.
fn push_birth(text: &mut Text, birth: Birth) {
    match birth {
        Birth::Born(number, key) => text.push(&[
            Part::Word(": node "),
            Part::Number(number),
            Part::Word(" in slot "),
            Part::Number(u64::from(key.slot)),
            Part::Word(", generation "),
            Part::Number(u64::from(key.generation)),
        ]),
        Birth::Full(content) => text.push(&[
            Part::Word(": full, and "),
            Part::Number(content),
            Part::Word(" comes back"),
        ]),
        Birth::Refused => text.word(": not inserted"),
    }
}

// Puts a word and the number of a node behind what is there, if there is one.
fn push_other(text: &mut Text, word: &str, number: Option<u64>) {
    if let Some(number) = number {
        text.push(&[Part::Word(word), Part::Number(number)]);
    }
}

impl Nodes {
    /// A table for this many nodes, whose slots begin at this generation.
    pub fn new(alloc: Global, limit: usize, generation: u32) -> Nodes {
        Nodes {
            alloc,
            table: NodeTable::starting_at(alloc, limit, generation),
            keys: Vec::new(alloc),
        }
    }

    // The key of a node that is there.
    fn there(&self, number: u64) -> Option<NodeKey>
        ensures { IfSome result (λ key. IsSome (row_at self.now.table key)) }
    {
        match self.keys.get(number as usize) {
            Some(key) if self.table.contains(*key) => Some(*key),
            _ => None,
        }
    }

    // The number of the node with this key.
    fn number_of(&self, key: NodeKey) -> Option<u64> {
        if self.table.contains(key) {
            Some(self.table.kept(key).number)
        } else {
            None
        }
    }

    // Bears a node.
    fn bear(&mut self, parent: Option<NodeKey>, content: u64, blocks: bool) -> Birth
        requires { IfSome parent (λ above. IsSome (row_at self.old.table above)) }
    {
        let number = self.keys.len() as u64;
        let item = Item {
            number,
            content,
            blocks,
        };
        match self.table.insert(parent, item) {
            Ok(key) => match self.keys.push(key) {
                Ok(()) => Birth::Born(number, key),
                Err(_) => Birth::Refused,
            },
            Err((back, TableFault::Full)) => Birth::Full(back.content),
            Err(_) => Birth::Refused,
        }
    }

    // Bears a child of a node that is there.
    fn bear_below(&mut self, above: u64, content: u64, blocks: bool) -> Birth {
        match self.there(above) {
            Some(key) => self.bear(Some(key), content, blocks),
            None => Birth::Refused,
        }
    }

    // Bears this many nodes below one, each beside the one before, or below it. Answers the last birth.
    fn bear_each(&mut self, above: u64, count: u64, deep: bool) -> Birth {
        let mut parent = above;
        let mut last = Birth::Refused;
        for _ in 0..count {
            last = self.bear_below(parent, 0, false);
            if let Birth::Born(number, _) = last {
                if deep {
                    parent = number;
                }
            }
        }
        last
    }

    // Cuts a node off, and whether it then has no parent and no sibling.
    fn cut(&mut self, number: u64) -> bool {
        match self.there(number) {
            Some(key) => {
                self.table.cut(key);
                self.table.parent(key).is_none() && self.table.next_sibling(key).is_none()
            }
            None => false,
        }
    }

    // The number of the first child of the node with this key, if there is one.
    fn first_below(&self, above: Option<NodeKey>) -> Option<u64> {
        let above = above?;
        self.other(self.table.first_child(above))
    }

    // The parent of a node that is there.
    fn parent_of(&self, number: u64) -> Option<NodeKey> {
        let key = self.there(number)?;
        self.table.parent(key)
    }

    // Cuts a node off, and puts behind what is there whether it is alone then, and the first child that is left.
    fn push_cut(&mut self, number: u64, text: &mut Text) {
        let parent = self.parent_of(number);
        if self.cut(number) {
            text.word(": alone");
            push_other(text, ", first left ", self.first_below(parent));
        } else {
            text.word(": not alone");
        }
    }

    // Cuts three children of a node off, bears one, and puts those that it has then behind what is there.
    fn turn(&mut self, numbers: [u64; 4], text: &mut Text) {
        let [above, first, second, third] = numbers;
        if self.cut(first) && self.cut(second) && self.cut(third) {
            self.bear_below(above, 1, false);
            self.push_children(above, text);
        } else {
            text.word(": not alone");
        }
    }

    // Takes out a node that is there and has no children, and puts its content behind what is there.
    fn push_removed(&mut self, number: u64, text: &mut Text) {
        match self.there(number) {
            Some(key) if self.table.first_child(key).is_none() => {
                let item = self.table.remove(key);
                text.push(&[Part::Word(": "), Part::Number(item.content)]);
            }
            _ => text.word(": not removed"),
        }
    }

    // Writes into a node.
    fn write(&mut self, number: u64, content: u64) {
        if let Some(key) = self.there(number) {
            self.table.kept_mut(key).content = content;
        }
    }

    // The table is its copy from now on.
    fn copy(&mut self, text: &mut Text) {
        match self.table.copy() {
            Ok(copy) => self.table = copy,
            Err(_) => text.word(": no memory"),
        }
    }

    // The number of the node with this key, if there is one.
    fn other(&self, key: Option<NodeKey>) -> Option<u64> {
        match key {
            Some(key) => self.number_of(key),
            None => None,
        }
    }

    // The sibling of this key that was born next.
    fn next_to(&self, key: NodeKey) -> Option<NodeKey> {
        if self.table.parent(key).is_some() {
            self.table.kept_next_sibling(key)
        } else {
            self.table.next_sibling(key)
        }
    }

    // Puts behind what is there which nodes are next to the one with this key: its parent, first child and next sibling.
    fn push_others(&self, key: NodeKey, text: &mut Text)
        requires { IsSome (row_at self.now.table key) }
    {
        push_other(text, ", below ", self.other(self.table.kept_parent(key)));
        push_other(
            text,
            ", first child ",
            self.other(self.table.kept_first_child(key)),
        );
        push_other(text, ", next ", self.other(self.next_to(key)));
    }

    // Puts behind what is there what a node has: its content, and the nodes that are next to it.
    fn push_node(&self, number: u64, text: &mut Text) {
        match self.keys.get(number as usize) {
            Some(key) => match self.table.get(*key) {
                Some(item) => {
                    text.push(&[Part::Word(": "), Part::Number(item.content)]);
                    self.push_others(*key, text);
                }
                None => text.word(": gone"),
            },
            None => text.word(": never born"),
        }
    }

    // Puts the nodes with these keys behind what is there.
    fn push_nodes(&self, keys: &[NodeKey], text: &mut Text) {
        let mut runs = Runs::new(1);
        text.word(":");
        for key in keys {
            runs.add(text, self.number_of(*key).unwrap_or(u64::MAX));
        }
        runs.end(text);
    }

    // Puts the children of a node behind what is there.
    fn push_children(&self, number: u64, text: &mut Text) {
        match self.there(number) {
            Some(key) => match self.table.children(key) {
                Ok(keys) => self.push_nodes(&keys, text),
                Err(_) => text.word(": no memory"),
            },
            None => text.word(": gone"),
        }
    }

    // Puts behind what is there what a failure took, and by how many visits that was found.
    fn push_found(&self, found: &Fall, text: &mut Text) {
        self.push_nodes(&found.keys, text);
        text.push(&[Part::Word(" by "), Part::Counted(found.visits, "visit")]);
    }

    // The same of a failure of a node.
    fn push_fall(&self, number: u64, text: &mut Text) {
        match self.there(number) {
            Some(origin) => match fall(self.alloc, &self.table, origin) {
                Ok(found) => self.push_found(&found, text),
                Err(_) => text.word(": no memory"),
            },
            None => text.word(": gone"),
        }
    }

    // Puts behind what is there what a walk down from a node lists, that leaves out all below those that block.
    fn push_walk(&self, number: u64, text: &mut Text) {
        let Some(top) = self.there(number) else {
            return text.word(": gone");
        };
        let mut keys = Vec::new(self.alloc);
        match walk_within(&self.table, top, &mut keys, &Open) {
            Ok(()) => self.push_nodes(&keys, text),
            Err(_) => text.word(": no memory"),
        }
    }

    // Puts behind what is there how many nodes there are, and which slot the next one takes.
    fn push_size(&self, text: &mut Text) {
        let nodes = self.table.len() as u64;
        let slot = self.table.next_slot() as u64;
        text.push(&[
            Part::Word(": "),
            Part::Counted(nodes, "node"),
            Part::Word(", next slot "),
            Part::Number(slot),
        ]);
    }

    // Bears what a line says, if it says that.
    fn birth(&mut self, line: &Line) -> Option<Birth> {
        let [first, second, ..] = line.numbers;
        match line.verb {
            Verb::Root => Some(self.bear(None, first, false)),
            Verb::Child => Some(self.bear_below(first, second, false)),
            Verb::Block => Some(self.bear_below(first, second, true)),
            Verb::Star => Some(self.bear_each(first, second, false)),
            Verb::Line => Some(self.bear_each(first, second, true)),
            _ => None,
        }
    }

    // Takes a line that bears no node.
    fn play(&mut self, line: &Line, text: &mut Text) {
        let [first, second, ..] = line.numbers;
        match line.verb {
            Verb::Cut => self.push_cut(first, text),
            Verb::Remove => self.push_removed(first, text),
            Verb::Turn => self.turn(line.numbers, text),
            Verb::Copy => self.copy(text),
            Verb::Write => self.write(first, second),
            Verb::Node => self.push_node(first, text),
            Verb::Children => self.push_children(first, text),
            Verb::Fall => self.push_fall(first, text),
            Verb::Walk => self.push_walk(first, text),
            Verb::Size => self.push_size(text),
            _ => text.word(": not understood"),
        }
    }

    /// Takes a line, which changes the table or asks what is seen of it.
    pub fn take(&mut self, line: &Line, text: &mut Text) {
        match self.birth(line) {
            Some(birth) => push_birth(text, birth),
            None => self.play(line, text),
        }
    }
}
