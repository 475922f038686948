//! The words of a line.
ghost use Rattle.std.specs.Prelude.{◌≡◌, ◌∷◌, [], ◌==◌, ◌<◌, length, MatchOption, IfSome};
ghost use Rattle.std.specs.List.{position};
ghost use Rattle.std.specs.Str.{bytes_eq};
ghost use Rattle.script_lines.specs.Words.{words, words_left};

use memchr::memchr;

/// Whether the word is this one. Costs O(n) for a word of n bytes.
pub fn is_word(word: &[u8], name: &str) -> bool
    ensures { result ≡ bytes_eq word.now name.now }
{
    word == name.as_bytes()
}

/// The first word of the text, and what stands behind the space that ends it: `None` where no space does.
/// A text without bytes has one word, which has none either. Costs O(n) for a word of n bytes.
pub fn cut(text: &[u8]) -> (&[u8], Option<&[u8]>)
    ensures { words text.now ≡ result.0.now ∷ words_left result.1 }
{
    match place_of(b' ', text) {
        Some(at) => (&text[..at], Some(&text[at + 1..])),
        None => (text, None),
    }
}

/// The first of the words that are left, with those behind it, or `None` where no word is left. Costs
/// O(n) for a word of n bytes.
pub fn next_word(rest: Option<&[u8]>) -> Option<(&[u8], Option<&[u8]>)>
    ensures { MatchOption result (words_left rest.entry ≡ [])
        (λ w. words_left rest.entry ≡ w.0.now ∷ words_left w.1) }
{
    match rest {
        Some(text) => Some(cut(text)),
        None => None,
    }
}

/// Where the first line ends, if one does: the place of the first newline. Costs O(n) for a line of
/// n bytes, some dozens of them at a time.
pub fn line_end(bytes: &[u8]) -> Option<usize>
    ensures value { result ≡ position (λ b. b == 10) bytes.now }
    ensures within { IfSome result (λ at. at < length bytes.now) }
{
    memchr(b'\n', bytes)
}

/// Where the byte stands first, if it does. Costs O(n) for the n bytes up to there.
pub fn place_of(byte: u8, bytes: &[u8]) -> Option<usize>
    ensures value { result ≡ position (λ b. b == byte) bytes.now }
    ensures within { IfSome result (λ at. at < length bytes.now) }
{
    bytes.iter().position(|b| *b == byte)
}
