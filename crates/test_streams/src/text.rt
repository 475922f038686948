//! The text that a player writes.
use script_lines::{Part, push_parts};
use std::alloc::Global;

/// The lines that were played, with their answers. It remembers whether memory was refused, so that its callers need not
/// ask at each part.
#[derive(Drop)]
pub struct Text {
    bytes: Vec<u8>,
    is_whole: bool,
}

impl Text {
    /// No text. Takes no memory. Costs O(1).
    pub fn new(alloc: Global) -> Text {
        Text {
            bytes: Vec::new(alloc),
            is_whole: true,
        }
    }

    /// Appends the parts. If memory is refused, some of them may be missing, and `whole` answers `None`
    /// from then on. Costs O(their length), amortized.
    pub fn push(&mut self, parts: &[Part]) {
        match push_parts(&mut self.bytes, parts) {
            Ok(()) => {}
            Err(_) => self.is_whole = false,
        }
    }

    /// Appends a word, as `push` appends parts.
    pub fn word(&mut self, word: &str) {
        self.push(&[Part::Word(word)]);
    }

    /// The whole text. `None` if memory was refused for some of it. Costs O(1).
    pub fn whole(&self) -> Option<&[u8]> {
        if self.is_whole {
            Some(self.bytes.as_slice())
        } else {
            None
        }
    }
}
