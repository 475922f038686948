//! What a script calls its clients, nodes and trackers.
ghost use Rattle.std.specs.Prelude.{◌≡◌, ◌≤◌, ◌||◌, IfSome, drop, length};
ghost use Rattle.std.specs.List.{list_all};
ghost use Rattle.script_lines.specs.Labels.{is_label as is_label_word, is_letter as is_letter_byte, is_digit as is_digit_byte, label_of, packed as packed_word, text_of_label};

/// A name of a client, a node or a tracker in a script: a letter from `a` to `z`, then up to
/// fifteen letters or digits.
#[derive(Clone, Copy, PartialEq, Eq, Hash)]
pub struct Label {
    // The bytes of the text as digits to the base 256.
    code: u128,
}

impl Label {
    /// The label that is spelled so, or `None` if the word is none. Costs O(1).
    pub fn new(word: &[u8]) -> Option<Label>
        ensures value { result ≡ label_of word.now }
        ensures text { IfSome result (λ label. text_of_label label ≡ word.now) }
    {
        if !is_label(word) {
            return None;
        }
        Some(Label { code: packed(word) })
    }

    /// How the label is spelled: the bytes from the number on. Costs O(1).
    pub fn spelled(&self) -> ([u8; 16], usize)
        ensures text { drop result.1 result.0 ≡ text_of_label self.now }
        ensures within { result.1 ≤ 16 }
    {
        let mut bytes = [0; 16];
        let mut start = 16;
        let mut code = self.code;
        while 0 < start && code != 0 {
            start -= 1;
            bytes[start] = (code % 256) as u8;
            code /= 256;
        }
        (bytes, start)
    }
}

// The word's bytes as digits to the base 256, the first the highest.
fn packed(word: &[u8]) -> u128
    requires { length word.now ≤ 16 }
    ensures { result ≡ packed_word word.now }
{
    let mut code: u128 = 0;
    for byte in word {
        code = code * 256 + *byte as u128;
    }
    code
}

// Whether the byte is a letter from `a` to `z`.
pub(crate) fn is_letter(byte: u8) -> bool
    ensures { result ≡ is_letter_byte byte }
{
    b'a' <= byte && byte <= b'z'
}

// Whether the byte is a digit.
pub(crate) fn is_digit(byte: u8) -> bool
    ensures { result ≡ is_digit_byte byte }
{
    b'0' <= byte && byte <= b'9'
}

// Whether the word may stand for a client, a node or a tracker.
fn is_label(word: &[u8]) -> bool
    ensures { result ≡ is_label_word word.now }
{
    match word.split_first() {
        Some((first, others)) => {
            is_letter(*first) && others.len() <= 15 && are_letters_or_digits(others)
        }
        None => false,
    }
}

// Whether all of the bytes are letters or digits.
fn are_letters_or_digits(bytes: &[u8]) -> bool
    ensures { result ≡ list_all (λ byte. is_letter_byte byte || is_digit_byte byte) bytes.now }
{
    bytes.iter().all(|byte| is_letter(*byte) || is_digit(*byte))
}
