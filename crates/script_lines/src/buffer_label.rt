//! What a script calls its buffers.
ghost use Rattle.std.specs.Prelude.{◌≡◌};
ghost use Rattle.script_lines.specs.BufferLabels.{buffer_label_of, index_in_range, labelled_by};

use crate::label::Label;
use crate::number::number;
use crate::words::place_of;
use sm_names::MAX_BUFFERS;

/// A name of a buffer in a script: a label of a node of its collection, a point, and its index.
#[derive(Clone, Copy, PartialEq, Eq)]
pub struct BufferLabel {
    pub node: Label,
    pub index: u8,
}

impl BufferLabel {
    /// The buffer that is spelled so, or `None` if the word is none. Costs O(n) for a word of n
    /// bytes.
    pub fn new(word: &[u8]) -> Option<BufferLabel>
        ensures { result ≡ buffer_label_of word.now }
    {
        match place_of(b'.', word) {
            Some(at) => labelled(&word[..at], &word[at + 1..]),
            None => None,
        }
    }
}

// The buffer with this label and this index.
fn labelled(label: &[u8], index: &[u8]) -> Option<BufferLabel>
    ensures { result ≡ labelled_by label.now index.now }
{
    match (Label::new(label), number(index)) {
        (Some(node), Some(index)) => match in_range(index) {
            Some(index) => Some(BufferLabel { node, index }),
            None => None,
        },
        _ => None,
    }
}

// The index, if a collection may have such a buffer.
fn in_range(index: u32) -> Option<u8>
    ensures { result ≡ index_in_range index }
{
    if index < MAX_BUFFERS {
        Some(index as u8)
    } else {
        None
    }
}
