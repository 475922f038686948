//! What is played on.
use crate::handles::Handles;
use crate::line::{Line, line_of, small};
use crate::nodes::Nodes;
use crate::pages::Pages;
use crate::verb::Verb;
use crate::watch::Watch;
use std::alloc::Global;
use test_streams::Text;

/// The part that the last heading made.
#[derive(Drop)]
pub enum Player {
    None,
    Nodes(Nodes),
    Pages(Pages),
    Handles(Handles),
    Watch(Watch),
}

impl Player {
    // Another part stands in the place of this one.
    fn put(&mut self, player: Player) {
        *self = player;
    }

    // A pool of this many pages, if one can be made.
    fn put_pages(&mut self, alloc: Global, pages: u32) -> bool {
        match Pages::new(alloc, pages) {
            Some(pages) => {
                self.put(Player::Pages(pages));
                true
            }
            None => false,
        }
    }

    // Makes the part that a line makes anew. Answers whether it makes one.
    fn begin(&mut self, alloc: Global, line: &Line) -> bool {
        let [first, second, ..] = line.numbers;
        match line.verb {
            Verb::Table => self.put(Player::Nodes(Nodes::new(
                alloc,
                first as usize,
                small(second),
            ))),
            Verb::Pool => return self.put_pages(alloc, small(first)),
            Verb::Counts => self.put(Player::Handles(Handles::new(alloc, small(first), second))),
            Verb::Trackers => self.put(Player::Watch(Watch::new(alloc, small(first)))),
            _ => return false,
        }
        true
    }

    // Takes a line that makes no part.
    fn play(&mut self, line: &Line, text: &mut Text) {
        match self {
            Player::None => text.word(": nothing is there"),
            Player::Nodes(nodes) => nodes.take(line, text),
            Player::Pages(pages) => pages.take(line, text),
            Player::Handles(handles) => handles.take(line, text),
            Player::Watch(watch) => watch.take(line, text),
        }
    }

    /// Takes a line, and puts its answer behind what is there. One that is empty or begins with # has none.
    pub fn take(&mut self, alloc: Global, line: &str, text: &mut Text) {
        if line.is_empty() || line.starts_with('#') {
            return;
        }
        match line_of(line) {
            Some(line) => {
                if !self.begin(alloc, &line) {
                    self.play(&line, text);
                }
            }
            None => text.word(": not understood"),
        }
    }
}
