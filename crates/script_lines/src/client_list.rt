//! Lists of clients: their labels, or `all` alone.
ghost use Rattle.std.specs.Prelude.{◌≡◌, ◌==◌, ◌&&◌, ◌||◌, length, map, IfOk};
ghost use Rattle.std.specs.List.{list_all, list_any, slice_split};
ghost use Rattle.std.specs.Option.{option_map};
ghost use Rattle.script_lines.specs.declared.label.Label.{Label as LabelTold};
ghost use Rattle.script_lines.specs.ClientLists.{are_clients as clients_told, is_among as among_told, is_called as called_told, says_all, vanish_text as text_told};

use crate::label::Label;
use std::alloc::{AllocError, Global};

// How the lines begin that say which clients may vanish.
const VANISH: &[u8] = b"#! vanish ";

/// The list of clients in a line that says which may vanish, without the end of the line: what stands behind its first
/// words, `#! vanish`. `None` where it is another line. Costs O(1).
pub fn vanish_text(line: &[u8]) -> Option<&[u8]>
    ensures { option_map (λ text. text.now) result ≡ text_told line.now }
{
    if line.starts_with(VANISH) {
        Some(&line[VANISH.len()..])
    } else {
        None
    }
}

/// The words of a list, which this byte separates.
///
/// `AllocError` where memory is refused. Costs O(n) for n bytes.
pub fn listed(alloc: Global, separator: u8, text: &[u8]) -> Result<Vec<&[u8]>, AllocError>
    ensures { IfOk result (λ words. map (λ word. word.now) words.items
        ≡ slice_split (λ byte. byte == separator) text.now) }
{
    text.split(|byte| *byte == separator).collect(alloc)
}

// Whether the word is the label.
fn is_called(word: &[u8], client: Label) -> bool
    ensures { result ≡ called_told client word.now }
{
    match Label::new(word) {
        Some(label) => client == label,
        None => false,
    }
}

// Whether one of the words is the label.
fn has_word(words: &[&[u8]], client: Label) -> bool
    ensures { result ≡ list_any (λ word. called_told client word.now) words.now }
{
    words.iter().any(|word| is_called(word, client))
}

// Whether the word is the label of one of the clients.
fn is_one_of(word: &[u8], labels: &[Label]) -> bool
    ensures { result ≡ list_any (λ (label : LabelTold). called_told label word.now) labels.now }
{
    labels.iter().any(|label| is_called(word, *label))
}

// Whether each word is.
fn are_labels(words: &[&[u8]], labels: &[Label]) -> bool
    ensures { result ≡ list_all
        (λ word. list_any (λ (label : LabelTold). called_told label word.now) labels.now) words.now }
{
    words.iter().all(|word| is_one_of(word, labels))
}

// Whether one of the words is `all`.
fn has_all(words: &[&[u8]]) -> bool
    ensures { result ≡ list_any (λ word. says_all word.now) words.now }
{
    words.iter().any(|word| *word == b"all".as_slice())
}

// Whether `all` is the only word.
fn is_all(words: &[&[u8]]) -> bool
    ensures { result ≡ (length words.now == 1 && list_any (λ word. says_all word.now) words.now) }
{
    words.len() == 1 && has_all(words)
}

/// Whether the client of this label is in the list of these words. Costs O(n) for n words.
pub fn is_among(words: &[&[u8]], client: Label) -> bool
    ensures { result ≡ among_told (map (λ word. word.now) words.now) client }
{
    is_all(words) || has_word(words, client)
}

/// Whether the list of these words is of some of these clients: `all` alone, or labels of theirs alone. Costs O(n m)
/// for n words and m clients.
pub fn are_clients(words: &[&[u8]], labels: &[Label]) -> bool
    ensures { result ≡ clients_told (map (λ word. word.now) words.now) labels.now }
{
    is_all(words) || are_labels(words, labels)
}
