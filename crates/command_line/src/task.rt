//! What a command does with a script.
ghost use Rattle.std.specs.Prelude.{◌≡◌, Some, codes, option_map};
ghost use Rattle.clap.specs.Matches.{first_value, found_of, one_text, subcommand_name_of};
ghost use Rattle.command_line.specs.Asked.{HasCertificate, HasFailures, HasFormat, HasList, HasPatience, HasRecord, HasSearch, HasSummary, HasUntil, HasVanishing, IsFlag, IsFormat, IsSearch, IsTask, IsUntil, IsVanishing, most_asked, states_asked, subcommand_text, until_asked, value_text};

use crate::commands::{
    AT, CERTIFY, CHECK, DOT, DRAW, END, EXPLAIN, EXPLORE, FAILURE, FAILURES, FORMAT, LINE, LIST,
    MOST, ONCE, OUTCOME, PATIENT, RECORD, STATES, SUMMARY, SVG, THREADS, VANISH,
};
use clap::ArgMatches;
use report_io::{Format, Until, View};

/// Which search through the orders of the clients' steps is asked for.
#[derive(Clone, Copy)]
pub struct Search<'a> {
    /// No line waits: each step is made once.
    pub once: bool,
    /// Each line waits that can: not only those that stand twice or more in a row.
    pub is_patient: bool,
    /// Each client vanishes once its steps are done.
    pub at_end: bool,
    /// Which clients may vanish at any point: labels with commas between them, or `all`; `None` where the script says it.
    pub vanish: Option<&'a str>,
    /// How many clients vanish at most before their steps are done.
    pub most: u64,
    /// The number of the outcome whose play is written, from 1; `None` where the report is.
    pub outcome: Option<u64>,
    /// How many states are met at most.
    pub states: u64,
    /// Every state is played again, so that it is known whether an outcome is missing.
    pub certifies: bool,
    /// The report is in lines for programs.
    pub lists: bool,
}

/// What a command does with a script.
#[derive(Clone, Copy)]
pub enum ScriptTask<'a> {
    /// Answers each line.
    Run,
    /// Runs the clients as actors, and writes the record too if it is asked for. A patient actor makes a step
    /// again while nothing is there for it.
    Threads {
        has_record: bool,
        is_patient: bool,
    },
    /// Repeats each line with its reply and what its event forced, or only the lines whose event made a
    /// node fail, and tells a summary behind them if it is asked for.
    Explain {
        only_failures: bool,
        has_summary: bool,
    },
    /// Draws the trees.
    Draw(View),
    /// Compares the replies of a transcript.
    Check,
    /// Goes through all orders of the clients' steps.
    Explore(Search<'a>),
}

/// What the matches of a parse ask for: the task of the subcommand of that name, and `Run` for any other
/// name. Costs O(n) for n words.
pub fn task_of<'a>(matches: &ArgMatches<'a>) -> ScriptTask<'a>
    ensures task { IsTask (subcommand_name_of matches.now) result }
    ensures format { HasFormat (subcommand_text (codes "format") matches.now) result }
    ensures until { HasUntil (value_text (codes "at") matches.now)
        (value_text (codes "line") matches.now) (value_text (codes "failure") matches.now) result }
    ensures failures { HasFailures (value_text (codes "failures") matches.now) result }
    ensures summary { HasSummary (value_text (codes "summary") matches.now) result }
    ensures record { HasRecord (value_text (codes "record") matches.now) result }
    ensures patience { HasPatience (value_text (codes "patient") matches.now) result }
    ensures search { HasSearch (value_text (codes "once") matches.now)
        (value_text (codes "outcome") matches.now) (value_text (codes "states") matches.now) result }
    ensures certified { HasCertificate (value_text (codes "certify") matches.now) result }
    ensures listed { HasList (value_text (codes "list") matches.now) result }
    ensures vanishing { HasVanishing (subcommand_text (codes "vanish") matches.now)
        (value_text (codes "most") matches.now) (value_text (codes "end") matches.now) result }
{
    let Some((name, inner)) = matches.subcommand() else {
        return ScriptTask::Run;
    };
    if name == THREADS {
        return ScriptTask::Threads {
            has_record: inner.get_flag(RECORD),
            is_patient: inner.get_flag(PATIENT),
        };
    }
    if name == EXPLAIN {
        return ScriptTask::Explain {
            only_failures: inner.get_flag(FAILURES),
            has_summary: inner.get_flag(SUMMARY),
        };
    }
    if name == DRAW {
        return ScriptTask::Draw(view_of(inner));
    }
    if name == EXPLORE {
        return ScriptTask::Explore(search_of(inner));
    }
    if name == CHECK {
        ScriptTask::Check
    } else {
        ScriptTask::Run
    }
}

// The picture that the matches of `draw` ask for.
fn view_of(matches: &ArgMatches<'_>) -> View
    ensures format { IsFormat (first_value (found_of matches.now) (codes "format")) result.format }
    ensures until { IsUntil (one_text (found_of matches.now) (codes "at"))
        (one_text (found_of matches.now) (codes "line"))
        (one_text (found_of matches.now) (codes "failure")) result.until }
{
    let event = matches.get_one::<u64>(AT);
    let line = matches.get_one::<u64>(LINE);
    let failure = matches.get_one::<u64>(FAILURE);
    View {
        format: format_of(matches.get_str(FORMAT)),
        until: until_of(event, line, failure),
    }
}

// The search that the matches of `explore` ask for.
fn search_of<'a>(matches: &ArgMatches<'a>) -> Search<'a>
    ensures once { IsFlag (one_text (found_of matches.now) (codes "once")) result.once }
    ensures patience { IsFlag (one_text (found_of matches.now) (codes "patient"))
        result.is_patient }
    ensures search { IsSearch (one_text (found_of matches.now) (codes "outcome"))
        (one_text (found_of matches.now) (codes "states")) result }
    ensures certified { IsFlag (one_text (found_of matches.now) (codes "certify"))
        result.certifies }
    ensures listed { IsFlag (one_text (found_of matches.now) (codes "list")) result.lists }
    ensures end { IsFlag (one_text (found_of matches.now) (codes "end")) result.at_end }
    ensures vanishing { IsVanishing (first_value (found_of matches.now) (codes "vanish"))
        (one_text (found_of matches.now) (codes "most")) result }
{
    let outcome = matches.get_one::<u64>(OUTCOME);
    let states = matches.get_one::<u64>(STATES);
    let most = matches.get_one::<u64>(MOST);
    Search {
        once: matches.get_flag(ONCE),
        is_patient: matches.get_flag(PATIENT),
        at_end: matches.get_flag(END),
        vanish: matches.get_str(VANISH),
        most: most_of(most),
        outcome,
        states: states_of(states),
        certifies: matches.get_flag(CERTIFY),
        lists: matches.get_flag(LIST),
    }
}

// How many states are met at most, if this number is asked for.
fn states_of(states: Option<u64>) -> u64
    ensures { result ≡ states_asked states }
{
    match states {
        Some(states) => states,
        None => 1_000_000,
    }
}

// How many clients vanish at most, if this number is asked for.
fn most_of(most: Option<u64>) -> u64
    ensures { result ≡ most_asked most }
{
    match most {
        Some(most) => most,
        None => 1,
    }
}

// Behind what the trees are drawn: the event of this number, or else this line, or else this failure.
fn until_of(event: Option<u64>, line: Option<u64>, failure: Option<u64>) -> Until
    ensures { result ≡ until_asked event line failure }
{
    match (event, line, failure) {
        (Some(event), _, _) => Until::Event(event),
        (None, Some(line), _) => Until::Line(line),
        (None, None, Some(failure)) => Until::Failure(failure),
        (None, None, None) => Until::Last,
    }
}

// The format of this name: text for any other name.
fn format_of(name: Option<&str>) -> Format
    ensures { IsFormat (option_map (λ text. text.now) name.entry) result }
{
    match name {
        Some(text) => format_named(text),
        None => Format::Text,
    }
}

// The same, where there is a name.
fn format_named(name: &str) -> Format
    ensures { IsFormat (Some name.now) result }
{
    if name == DOT {
        Format::Dot
    } else if name == SVG {
        Format::Svg
    } else {
        Format::Text
    }
}
