//! What is done with a script.
use script_draw::{Format, Until, View};
use script_explain::Scope;
use test_streams::decimal;

/// What is done with a script.
#[derive(Clone, Copy)]
pub enum Task {
    Run,
    Explain(Scope),
    Check,
    Draw(View),
}

/// What the title says: `run`, `explain`, `failures`, `summary` or `check`, and any words; or `text`, `dot` or `svg`, and an
/// event, or `line` or `failure` and its number.
pub fn task_of(title: &str) -> Task {
    let (verb, rest) = title.split_once(' ').unwrap_or((title, ""));
    match verb {
        "run" => Task::Run,
        "explain" => explained(false, false),
        "failures" => explained(true, false),
        "summary" => explained(false, true),
        "check" => Task::Check,
        _ => drawn(verb, rest),
    }
}

// Trees in the format of this name, text for any other name, behind what these words say.
fn drawn(name: &str, words: &str) -> Task {
    let format = match name {
        "dot" => Format::Dot,
        "svg" => Format::Svg,
        _ => Format::Text,
    };
    Task::Draw(View {
        format,
        until: until_of(words),
    })
}

// An explanation of this scope.
fn explained(only_failures: bool, has_summary: bool) -> Task {
    Task::Explain(Scope {
        only_failures,
        has_summary,
    })
}

// Behind what the trees are drawn: an event, a line or a failure; the last line where there is no number.
fn until_of(words: &str) -> Until {
    let (sought, rest) = words.split_once(' ').unwrap_or(("event", words));
    let Some(number) = decimal(rest) else {
        return Until::Last;
    };
    match sought {
        "line" => Until::Line(u64::from(number)),
        "failure" => Until::Failure(u64::from(number)),
        _ => Until::Event(u64::from(number)),
    }
}
