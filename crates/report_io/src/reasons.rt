//! Why a line is bad: the first of the tests of a line that fails.
ghost use Rattle.std.specs.Prelude.{◌≡◌, ◌++◌, ◌∷◌, None, OnOk, codes, is_some, not, option_map};
ghost use Rattle.std.specs.Str.{bytes_eq};
ghost use Rattle.script_lines.specs.Lines.{strength_named};
ghost use Rattle.script_lines.specs.Words.{words_left};
ghost use Rattle.script_labels.specs.Names.{Names};
ghost use Rattle.script_labels.specs.Tables.{Keeps};
ghost use Rattle.report_io.specs.declared.wanted.Wanted.{Wanted as Word};
ghost use Rattle.report_io.specs.Reasons.{IsFor, before_word, bound, bound_reason, caller_reason, client_reason, is_within, label_reason, line_reason, missing_reason, named_reason, no_label as told_no_label, no_word, plain, reason_text, reason_unless, rest_reason, said_reason, told, verb_reason, view_reason, word_reason, words_reason};

use crate::wanted::{Wanted, wanted_words};
use crate::words::{
    has_empty_word, has_end, has_number, is_strength, is_view, part_before_point, push_shown,
};
use script_labels::Tables;
use script_lines::{BufferLabel, Label, MOST_LINE_BYTES, cut, is_word, next_word, push};
use sm_names::{MAX_AT_LEAST, MAX_CAMPING, MAX_SIZE};
use std::alloc::AllocError;

// A reason: words, a word of the line, and more words.
#[derive(Clone, Copy)]
pub(crate) struct Reason<'a> {
    before: &'static str,
    word: &'a [u8],
    behind: &'static str,
}

impl<'a> Reason<'a> {
    // Appends the text of the reason.
    pub(crate) fn push_text(&self, text: &mut Vec<u8>) -> Result<(), AllocError>
        ensures { OnOk result (text.new.items ≡ text.old.items ++ reason_text (told self.now)) }
    {
        push(text, self.before)?;
        push_shown(text, self.word)?;
        push(text, self.behind)
    }
}

// Words alone.
fn alone<'a>(before: &'static str) -> Reason<'a>
    ensures { told result ≡ plain before.now }
{
    Reason {
        before,
        word: &[],
        behind: "",
    }
}

// Words, and then a word of the line.
fn with_word<'a>(before: &'static str, word: &'a [u8]) -> Reason<'a>
    ensures { told result ≡ before_word before.now word.now }
{
    Reason {
        before,
        word,
        behind: "",
    }
}

// The reason of a test that is to hold.
fn unless<'a>(holds: bool, reason: Reason<'a>) -> Option<Reason<'a>>
    ensures { option_map told result ≡ reason_unless holds (told reason.entry) }
{
    if holds { None } else { Some(reason) }
}

// A label that is to be new is not bound.
fn new_label<'a>(word: &'a [u8], is_bound: bool) -> Option<Reason<'a>>
    ensures { option_map told result ≡ reason_unless (not is_bound) (bound word.now) }
{
    unless(
        !is_bound,
        Reason {
            before: "the label ",
            word,
            behind: " is bound already",
        },
    )
}

// A label that is used is bound; else these words are told of it.
fn used_label<'a>(before: &'static str, word: &'a [u8], is_bound: bool) -> Option<Reason<'a>>
    ensures { option_map told result ≡ reason_unless is_bound (before_word before.now word.now) }
{
    let reason = with_word(before, word);
    unless(is_bound, reason)
}

// The word is no label.
fn no_label<'a>(word: &'a [u8]) -> Reason<'a>
    ensures { told result ≡ told_no_label word.now }
{
    with_word(
        "a label is a lower-case letter and up to 15 lower-case letters or digits: ",
        word,
    )
}

// Why the line, which says something, is bad, where the labels of the lines before stand so: the first test
// that fails. Costs a walk over the line, and a look-up of each label.
pub(crate) fn line_fault<'a>(tables: Option<&Tables>, line: &'a [u8]) -> Option<Reason<'a>>
    ensures { IsFor (option_map (λ t. t.now) tables.entry) (λ known. line_reason known line.now)
        (option_map told result) }
{
    if MOST_LINE_BYTES < line.len() {
        return Some(alone("the line is longer than 256 bytes"));
    }
    if has_end(line, b'\r') {
        return Some(alone("the line ends in CR"));
    }
    if has_empty_word(line) {
        return Some(alone("put one space between words, and none elsewhere"));
    }
    let (first, rest) = cut(line);
    said_fault(tables, first, rest)
}

// Why the line, which says something, is bad whatever labels stand for.
pub(crate) fn form_fault<'a>(line: &'a [u8]) -> Option<Reason<'a>>
    ensures { option_map told result ≡ line_reason None line.now }
{
    line_fault(None, line)
}

// `show` and a view, or a client's label and what it asks.
fn said_fault<'a>(
    tables: Option<&Tables>,
    first: &'a [u8],
    rest: Option<&'a [u8]>,
) -> Option<Reason<'a>>
    ensures { IsFor (option_map (λ t. t.now) tables.entry) (λ known. said_reason known (first.now ∷ words_left rest.entry))
        (option_map told result) }
{
    if is_word(first, "show") {
        return view_fault(rest);
    }
    match Label::new(first) {
        Some(client) => verb_fault(tables, first, client, rest),
        None => Some(no_label(first)),
    }
}

// Exactly one view stands behind `show`.
fn view_fault<'a>(rest: Option<&'a [u8]>) -> Option<Reason<'a>>
    ensures { option_map told result ≡ view_reason (words_left rest.entry) }
{
    let Some((view, rest)) = next_word(rest) else {
        return Some(with_word("a word is missing after ", b"show"));
    };
    if !is_view(view) {
        return Some(with_word("no such view: ", view));
    }
    rest_fault(rest)
}

// No word is left.
fn rest_fault<'a>(rest: Option<&'a [u8]>) -> Option<Reason<'a>>
    ensures { option_map told result ≡ rest_reason (words_left rest.entry) }
{
    match next_word(rest) {
        Some((word, _)) => Some(with_word("a word too many: ", word)),
        None => None,
    }
}

// There is such a verb.
fn verb_fault<'a>(
    tables: Option<&Tables>,
    first: &'a [u8],
    client: Label,
    rest: Option<&'a [u8]>,
) -> Option<Reason<'a>>
    ensures { IsFor (option_map (λ t. t.now) tables.entry) (λ known. verb_reason known first.now client (words_left rest.entry))
        (option_map told result) }
{
    let Some((verb, rest)) = next_word(rest) else {
        return Some(with_word("a word is missing after ", first));
    };
    match wanted_words(verb) {
        Some(wanted) => {
            let fault = caller_fault(tables, first, client, is_word(verb, "join"));
            if fault.is_some() {
                return fault;
            }
            words_fault(tables, verb, &wanted, rest)
        }
        None => Some(with_word("no such word: ", verb)),
    }
}

// The label of a client is new where it joins, and stands for one at any other call.
fn client_fault<'a>(first: &'a [u8], joins: bool, is_bound: bool) -> Option<Reason<'a>>
    ensures { option_map told result ≡ client_reason first.now joins is_bound }
{
    if joins {
        new_label(first, is_bound)
    } else {
        used_label("no client has the label ", first, is_bound)
    }
}

// The same of the caller, if there are tables.
fn caller_fault<'a>(
    tables: Option<&Tables>,
    first: &'a [u8],
    client: Label,
    joins: bool,
) -> Option<Reason<'a>>
    ensures { IsFor (option_map (λ t. t.now) tables.entry) (λ known. caller_reason known first.now client joins)
        (option_map told result) }
{
    match tables {
        Some(tables) => client_fault(first, joins, tables.client(client).is_some()),
        None => None,
    }
}

// The words behind the last one are what they are to be, one by one.
fn words_fault<'a>(
    tables: Option<&Tables>,
    verb: &'a [u8],
    wanted: &[Wanted],
    rest: Option<&'a [u8]>,
) -> Option<Reason<'a>>
    ensures { IsFor (option_map (λ t. t.now) tables.entry) (λ known.
        words_reason known verb.now wanted.now (words_left rest.entry))
        (option_map told result) }
{
    let mut last = verb;
    let mut left = rest;
    let mut more = wanted;
    'words: while let Some((one, others)) = more.split_first() {
        let Some((word, behind)) = next_word(left) else {
            return missing_fault(last, *one);
        };
        let fault = word_fault(tables, *one, word);
        if fault.is_some() {
            return fault;
        }
        last = word;
        left = behind;
        more = others;
    }
    rest_fault(left)
}

// No word is left behind the last one: none is to follow, or only `children`, which may be left out.
fn missing_fault<'a>(last: &'a [u8], wanted: Wanted) -> Option<Reason<'a>>
    ensures { option_map told result ≡ missing_reason last.now wanted }
{
    match wanted {
        Wanted::End | Wanted::Children => None,
        _ => Some(with_word("a word is missing after ", last)),
    }
}

// The word is what it is to be.
fn word_fault<'a>(tables: Option<&Tables>, wanted: Wanted, word: &'a [u8]) -> Option<Reason<'a>>
    ensures { IsFor (option_map (λ t. t.now) tables.entry) (λ known. word_reason known wanted word.now)
        (option_map told result) }
{
    match wanted {
        Wanted::End => Some(with_word("a word too many: ", word)),
        Wanted::Client | Wanted::Node | Wanted::NewNode | Wanted::Tracker | Wanted::NewTracker => {
            name_fault(tables, wanted, word)
        }
        Wanted::Buffer => buffer_fault(tables, word),
        Wanted::Strength => strength_fault(word),
        Wanted::Children => children_fault(word),
        Wanted::Camping => number_fault(word, 0, u32::from(MAX_CAMPING), "camping is 0 to 64"),
        Wanted::AtLeast => number_fault(word, 0, u32::from(MAX_AT_LEAST), "at least is 0 to 64"),
        Wanted::Size => number_fault(word, 1, MAX_SIZE, "the size is 1 to 1073741824"),
        Wanted::Number => number_fault(word, 0, u32::MAX, "the number is 0 to 4294967295"),
    }
}

// The word is `strong` or `weak`.
fn strength_fault<'a>(word: &'a [u8]) -> Option<Reason<'a>>
    ensures { option_map told result ≡ reason_unless (is_some (strength_named word.now))
        (before_word (codes "expected strong or weak: ") word.now) }
{
    let reason = with_word("expected strong or weak: ", word);
    unless(is_strength(word), reason)
}

// The word is `children`.
fn children_fault<'a>(word: &'a [u8]) -> Option<Reason<'a>>
    ensures { option_map told result ≡ reason_unless (bytes_eq word.now (codes "children"))
        (no_word word.now) }
{
    let reason = with_word("no such word: ", word);
    unless(is_word(word, "children"), reason)
}

// The word spells a number from the least to the most.
fn number_fault<'a>(
    word: &'a [u8],
    least: u32,
    most: u32,
    before: &'static str,
) -> Option<Reason<'a>>
    ensures { option_map told result ≡ reason_unless (is_within least most word.now)
        (plain before.now) }
{
    let reason = alone(before);
    unless(has_number(word, least, most), reason)
}

// The word is a label, and the label is bound, or is not, as it is to be.
fn name_fault<'a>(tables: Option<&Tables>, wanted: Wanted, word: &'a [u8]) -> Option<Reason<'a>>
    ensures { IsFor (option_map (λ t. t.now) tables.entry) (λ known.
        label_reason (λ label. bound_reason known wanted label word.now) word.now)
        (option_map told result) }
{
    match Label::new(word) {
        Some(label) => bound_fault(tables, wanted, label, word),
        None => Some(no_label(word)),
    }
}

// The label is bound, or is not, as it is to be, if there are tables.
fn bound_fault<'a>(
    tables: Option<&Tables>,
    wanted: Wanted,
    label: Label,
    word: &'a [u8],
) -> Option<Reason<'a>>
    ensures { IsFor (option_map (λ t. t.now) tables.entry) (λ known. bound_reason known wanted label word.now)
        (option_map told result) }
{
    match tables {
        Some(tables) => label_fault(tables, wanted, label, word),
        None => None,
    }
}

// The label is bound, or is not, as it is to be.
fn label_fault<'a>(
    tables: &Tables,
    wanted: Wanted,
    label: Label,
    word: &'a [u8],
) -> Option<Reason<'a>>
    ensures { (names : Names) → Keeps tables.now names →
        option_map told result ≡ named_reason names wanted label word.now }
{
    match wanted {
        Wanted::Client => client_fault(word, false, tables.client(label).is_some()),
        Wanted::Node => used_label("no node has the label ", word, tables.node(label).is_some()),
        Wanted::NewNode => new_label(word, tables.node(label).is_some()),
        Wanted::Tracker => {
            used_label(
                "no tracker has the label ",
                word,
                tables.tracker(label).is_some(),
            )
        }
        Wanted::NewTracker => new_label(word, tables.tracker(label).is_some()),
        _ => None,
    }
}

// The word is the name of a buffer, and its label stands for a node.
fn buffer_fault<'a>(tables: Option<&Tables>, word: &'a [u8]) -> Option<Reason<'a>>
    ensures { IsFor (option_map (λ t. t.now) tables.entry) (λ known. word_reason known Word.Buffer word.now)
        (option_map told result) }
{
    match BufferLabel::new(word) {
        Some(buffer) => bound_fault(tables, Wanted::Node, buffer.node, part_before_point(word)),
        None => Some(with_word("no buffer: ", word)),
    }
}
