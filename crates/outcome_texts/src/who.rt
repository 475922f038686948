//! Which clients may vanish, as a list or lines of the script say it.
ghost use Rattle.std.specs.Prelude.{◌≡◌, IfOk, false, map};
ghost use Rattle.std.specs.List.{list_any};
ghost use Rattle.std.specs.Option.{option_map};
ghost use Rattle.script_lines.specs.declared.label.Label.{Label as LabelTold};
ghost use Rattle.script_lines.specs.ClientLists.{is_among as among_told, listed as listed_told};
ghost use Rattle.outcome_texts.specs.ClaimLines.{lets_vanish as lets_told, may_vanish as may_told, texts_in, who_told};

use crate::claims::ClaimText;
use script_lines::{Label, is_among, listed, vanish_text};
use std::alloc::{AllocError, Global};

// Whether the client of this label is in the list, whose words spaces separate.
fn is_named(alloc: Global, names: &[u8], client: Label) -> Result<bool, AllocError>
    ensures { IfOk result (λ named. named ≡ among_told (listed_told 32 names.now) client) }
{
    let words = listed(alloc, b' ', names)?;
    Ok(is_among(&words, client))
}

// Whether the line lets the client of this label vanish.
fn lets_vanish(alloc: Global, line: &[u8], client: Label) -> Result<bool, AllocError>
    ensures { IfOk result (λ lets. lets ≡ lets_told client line.now) }
{
    match vanish_text(line) {
        Some(names) => is_named(alloc, names, client),
        None => Ok(false),
    }
}

// Whether one of these lines does.
fn may_vanish(alloc: Global, texts: &[ClaimText<'_>], client: Label) -> Result<bool, AllocError>
    ensures { IfOk result (λ may. may ≡ may_told (texts_in texts.now) client) }
{
    let mut found = false;
    'texts: for text in texts {
        let lets = lets_vanish(alloc, text.line, client)?;
        found = found || lets;
    }
    Ok(found)
}

// Which of the clients these lines let vanish.
fn who_in(alloc: Global, texts: &[ClaimText<'_>], labels: &[Label]) -> Result<Vec<bool>, AllocError>
    ensures { IfOk result (λ who. who.items ≡ map (may_told (texts_in texts.now)) labels.now) }
{
    let mut who = Vec::new(alloc);
    'labels: for label in labels {
        who.push(may_vanish(alloc, texts, *label)?)?;
    }
    Ok(who)
}

// Which of the clients are in the list of these words.
fn who_among(alloc: Global, words: &[&[u8]], labels: &[Label]) -> Result<Vec<bool>, AllocError>
    ensures { IfOk result
        (λ who. who.items ≡ map (among_told (map (λ word. word.now) words.now)) labels.now) }
{
    let mut who = Vec::new(alloc);
    'labels: for label in labels {
        who.push(is_among(words, *label))?;
    }
    Ok(who)
}

// Which of the clients are in the list, whose words commas separate.
fn who_listed(alloc: Global, names: &str, labels: &[Label]) -> Result<Vec<bool>, AllocError>
    ensures { IfOk result (λ who. who.items
        ≡ map (among_told (listed_told 44 names.now)) labels.now) }
{
    let words = listed(alloc, b',', names.as_bytes())?;
    who_among(alloc, &words, labels)
}

/// Which of these clients may vanish: those of the list, whose words commas separate, or if there is none those that the
/// lines let vanish.
///
/// `AllocError` where memory is refused. Costs O(n m) for n clients and m bytes of the list and the lines.
pub fn who_of(
    alloc: Global,
    list: Option<&str>,
    texts: &[ClaimText<'_>],
    labels: &[Label],
) -> Result<Vec<bool>, AllocError>
    ensures { IfOk result (λ who. who.items
        ≡ who_told (option_map (λ names. names.now) list.entry) (texts_in texts.now) labels.now) }
{
    match list {
        Some(names) => who_listed(alloc, names, labels),
        None => who_in(alloc, texts, labels),
    }
}
