//! What the words of the command line ask for.
ghost use Rattle.std.specs.Prelude.{IfSome, codes, option_map};
ghost use Rattle.clap.specs.Matches.{subcommand_name_of};
ghost use Rattle.command_line.specs.Asked.{AreAsked, HasCertificate, HasFailures, HasFormat, HasList, HasPatience, HasRecord, HasSearch, HasSummary, HasUntil, HasVanishing, IsFile, IsTask, subcommand_text, value_text};

use crate::commands::{FILE, PAGES, STANDARD_INPUT};
use crate::task::{ScriptTask, task_of};
use clap::ArgMatches;
use script_lines::Pages;

/// What the words of the command line ask for.
#[derive(Clone, Copy)]
pub struct CommandLine<'a> {
    /// What is done with the script.
    pub task: ScriptTask<'a>,
    /// The size of the pool.
    pub pages: Pages,
    /// The file that has the script; `None` where standard input has it.
    pub file: Option<&'a str>,
}

/// What the matches of a parse ask for. `None` where no pool has as many pages as they ask for.
/// Costs O(n) for n words.
pub fn request_of<'a>(matches: &ArgMatches<'a>) -> Option<CommandLine<'a>>
    ensures pages { AreAsked (value_text (codes "pages") matches.now)
        (option_map (λ request. request.pages.count) result) }
    ensures task { IfSome result (λ request. IsTask (subcommand_name_of matches.now) request.task) }
    ensures format { IfSome result (λ request.
        HasFormat (subcommand_text (codes "format") matches.now) request.task) }
    ensures until { IfSome result (λ request. HasUntil (value_text (codes "at") matches.now)
        (value_text (codes "line") matches.now) (value_text (codes "failure") matches.now)
        request.task) }
    ensures failures { IfSome result (λ request.
        HasFailures (value_text (codes "failures") matches.now) request.task) }
    ensures summary { IfSome result (λ request.
        HasSummary (value_text (codes "summary") matches.now) request.task) }
    ensures record { IfSome result (λ request. HasRecord (value_text (codes "record") matches.now)
        request.task) }
    ensures patience { IfSome result (λ request.
        HasPatience (value_text (codes "patient") matches.now) request.task) }
    ensures search { IfSome result (λ request. HasSearch (value_text (codes "once") matches.now)
        (value_text (codes "outcome") matches.now) (value_text (codes "states") matches.now)
        request.task) }
    ensures certified { IfSome result (λ request.
        HasCertificate (value_text (codes "certify") matches.now) request.task) }
    ensures listed { IfSome result (λ request. HasList (value_text (codes "list") matches.now)
        request.task) }
    ensures vanishing { IfSome result (λ request.
        HasVanishing (subcommand_text (codes "vanish") matches.now)
        (value_text (codes "most") matches.now) (value_text (codes "end") matches.now)
        request.task) }
    ensures file { IfSome result (λ request. IsFile (subcommand_text (codes "file") matches.now)
        (option_map (λ name. name.now) request.file)) }
{
    match pages_of(matches) {
        Some(pages) => Some(CommandLine {
            task: task_of(matches),
            pages,
            file: file_of(matches),
        }),
        None => None,
    }
}

// The pages that the matches of a parse ask for: the number that stands behind the subcommand's
// `--pages`, or its default. `None` where there is no subcommand, or no such text, or the text is
// no number from 1 to 1,048,576. The range is tested once more, since the parse of a subcommand
// says nothing of its values.
fn pages_of(matches: &ArgMatches<'_>) -> Option<Pages>
    ensures { AreAsked (value_text (codes "pages") matches.now)
        (option_map (λ pages. pages.count) result) }
{
    let (_, inner) = matches.subcommand()?;
    Pages::new(inner.get_one::<u32>(PAGES)?)
}

// The file that is read instead of standard input, if one is named.
fn file_of<'a>(matches: &ArgMatches<'a>) -> Option<&'a str>
    ensures { IsFile (subcommand_text (codes "file") matches.now)
        (option_map (λ name. name.now) result) }
{
    let (_, inner) = matches.subcommand()?;
    file_named(inner.get_str(FILE))
}

// The file of this name, if it is not the name of standard input.
fn file_named(name: Option<&str>) -> Option<&str>
    ensures { IsFile (option_map (λ text. text.now) name.entry)
        (option_map (λ text. text.now) result) }
{
    match name {
        Some(text) if text == STANDARD_INPUT => None,
        _ => name,
    }
}
