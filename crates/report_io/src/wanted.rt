//! What the words behind a verb are to be.
ghost use Rattle.std.specs.Prelude.{◌≡◌, option_map};
ghost use Rattle.report_io.specs.Reasons.{new_wanted, wanted_behind, wanted_by, wanted_of_kind, wanted_on};

use script_lines::is_word;
use sm_names::{ArgumentForm, CallKind, Product, Target, kind_named, row_of};

// What a word behind a verb is to be.
#[derive(Clone, Copy)]
pub(crate) enum Wanted {
    // Nothing more follows.
    End,
    Client,
    Node,
    NewNode,
    Tracker,
    NewTracker,
    Buffer,
    Strength,
    // The word `children`, or nothing.
    Children,
    Camping,
    AtLeast,
    Size,
    Number,
}

// The words behind this verb, if there is such a verb.
pub(crate) fn wanted_words(verb: &[u8]) -> Option<[Wanted; 4]>
    ensures { result ≡ wanted_behind verb.now }
{
    if is_word(verb, "poll") {
        return Some(four_words(Target::Nothing, Wanted::Tracker, Wanted::End, Wanted::End));
    }
    match kind_named(verb) {
        Some(kind) => Some(words_of_kind(kind)),
        None => None,
    }
}

// The words of a call of this kind.
fn words_of_kind(kind: CallKind) -> [Wanted; 4]
    ensures { result ≡ wanted_of_kind kind }
{
    let row = row_of(kind);
    words_by(row.says, row.on, new_word(row.brings))
}

// What a call is made on, what else it says, and a new label.
fn words_by(says: ArgumentForm, on: Target, new: Wanted) -> [Wanted; 4]
    ensures { result ≡ wanted_by says on new }
{
    match says {
        ArgumentForm::Nothing => four_words(on, new, Wanted::End, Wanted::End),
        ArgumentForm::Client => four_words(on, Wanted::Client, new, Wanted::End),
        ArgumentForm::Children => four_words(on, Wanted::Children, new, Wanted::End),
        ArgumentForm::Constraints => {
            four_words(on, Wanted::Camping, Wanted::AtLeast, Wanted::Size)
        }
        ArgumentForm::Most => four_words(on, Wanted::Number, new, Wanted::End),
        ArgumentForm::Strength => four_words(on, Wanted::Strength, new, Wanted::End),
        ArgumentForm::Gift => four_words(on, Wanted::Strength, Wanted::Client, new),
    }
}

// What a call is made on, and three more words.
fn four_words(on: Target, first: Wanted, second: Wanted, third: Wanted) -> [Wanted; 4]
    ensures { result ≡ wanted_on on first second third }
{
    match on {
        Target::Nothing => [first, second, third, Wanted::End],
        Target::Handle => [Wanted::Buffer, first, second, third],
        Target::Token | Target::Collection | Target::End => [Wanted::Node, first, second, third],
    }
}

// The new label of what a call brings, if that has one.
fn new_word(product: Product) -> Wanted
    ensures { result ≡ new_wanted product }
{
    if product.brings_end() {
        Wanted::NewNode
    } else if product.is_tracker() {
        Wanted::NewTracker
    } else {
        Wanted::End
    }
}
