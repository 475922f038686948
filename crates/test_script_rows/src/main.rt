//! Plays each script of its input, and writes what it gives: `stdout` has what that is to be, with `! ` before a fault.
//!
//!     = run TITLE                       begins a script that is run, with two seeds of its tables
//!     = explain WORDS, = check WORDS    begins a script that is explained; a transcript that is checked
//!     = failures WORDS                  begins a script of which only the failures are explained
//!     = summary WORDS                   begins a script that is explained, with a summary
//!     = text EVENT, = dot EVENT, = svg EVENT
//!                                       begins a script whose trees are drawn after this event, or after its last line
//!     = text line N, = text failure K   begins one whose trees are drawn after this line, or this failure
//!     @ pages N                         sets the pages of its pool, 16 by default
//!     @ limits EVENTS NODES COLLECTIONS TRACKERS HANDLES
//!                                       sets its limits, the greatest by default
#![tactic(auto)]

mod setting;
mod task;

use report_io::behind;
use script_draw::{DrawJob, View, draw_script};
use script_explain::{ExplainJob, ReportFault, Scope, check_script, explain_script};
use script_lines::line_end;
use setting::Setting;
use sm_script::report_run;
use std::alloc::{AllocError, Global};
use std::io::{Read, Write};
use std::test::Fail;
use std::{io, str};
use task::{Task, task_of};

// Appends what is told of the script.
fn explain(
    alloc: Global,
    setting: Setting,
    scope: Scope,
    script: &[u8],
    out: &mut Vec<u8>,
) -> Result<(), ReportFault> {
    let mut reader = script;
    let Setting { pages, limits, .. } = setting;
    let job = ExplainJob { pages, scope };
    explain_script(alloc, [0; 16], &mut reader, out, job, limits)
}

// Appends what comes of comparing the transcript.
fn check(
    alloc: Global,
    setting: Setting,
    script: &[u8],
    out: &mut Vec<u8>,
) -> Result<(), ReportFault> {
    let mut reader = script;
    let Setting { pages, limits, .. } = setting;
    check_script(alloc, [0; 16], &mut reader, out, pages.count, limits)?;
    Ok(())
}

// Appends a picture of the script.
fn draw(
    alloc: Global,
    setting: Setting,
    view: View,
    script: &[u8],
    out: &mut Vec<u8>,
) -> Result<(), ReportFault> {
    let mut reader = script;
    let Setting { pages, limits, .. } = setting;
    let job = DrawJob { pages, view };
    draw_script(alloc, [0; 16], &mut reader, out, job, limits)
}

// Appends the replies to the script with this seed of its tables, and its fault, if it has one.
fn run_with(
    alloc: Global,
    seed: [u8; 16],
    setting: &Setting,
    script: &[u8],
    out: &mut Vec<u8>,
) -> Result<(), AllocError> {
    let mut reader = script;
    let Setting { pages, limits, .. } = *setting;
    let ended = report_run(alloc, seed, &mut reader, out, pages.count, limits);
    push_end(ended, out)
}

// Appends the replies to the script, if they are the same with another seed.
fn run(
    alloc: Global,
    setting: &Setting,
    script: &[u8],
    out: &mut Vec<u8>,
) -> Result<(), AllocError> {
    let mut text = Vec::new(alloc);
    let mut again = Vec::new(alloc);
    run_with(alloc, [0; 16], setting, script, &mut text)?;
    run_with(alloc, [3; 16], setting, script, &mut again)?;
    if text != again {
        return out.extend_from_slice(b"! another text with another seed\n");
    }
    out.extend_from_slice(text.as_slice())
}

// Appends the fault, if there is one.
fn push_end(ended: Result<(), ReportFault>, out: &mut Vec<u8>) -> Result<(), AllocError> {
    match ended {
        Ok(()) => Ok(()),
        Err(fault) => {
            out.extend_from_slice(b"! ")?;
            fault.push_text(out)?;
            out.extend_from_slice(b"\n")
        }
    }
}

// Appends what a script gives, and how it ends.
fn push_played(
    alloc: Global,
    task: Task,
    setting: &Setting,
    script: &[u8],
    out: &mut Vec<u8>,
) -> Result<(), AllocError> {
    let ended = match task {
        Task::Run => return run(alloc, setting, script, out),
        Task::Explain(scope) => explain(alloc, *setting, scope, script, out),
        Task::Check => check(alloc, *setting, script, out),
        Task::Draw(view) => draw(alloc, *setting, view, script, out),
    };
    push_end(ended, out)
}

// A script of the input, and what is done with it. Before the first title there is no setting.
#[derive(Drop)]
struct Row {
    task: Task,
    setting: Option<Setting>,
    script: Vec<u8>,
}

impl Row {
    // Appends what the script gives, where it has a setting.
    fn play(&self, alloc: Global, out: &mut Vec<u8>) -> Result<(), AllocError> {
        match &self.setting {
            Some(setting) => push_played(alloc, self.task, setting, &self.script, out),
            None => Ok(()),
        }
    }

    // Takes a line, with its end, that is no title.
    fn take(&mut self, line: &[u8]) -> Result<(), AllocError> {
        let text = str::from_utf8(line.strip_suffix(b"\n").unwrap_or(line)).unwrap_or("");
        match self.setting {
            Some(setting) if text.starts_with("@ ") => {
                self.setting = setting.with(text);
                Ok(())
            }
            _ => self.script.extend_from_slice(line),
        }
    }

    // Begins a script with this title.
    fn begin(&mut self, title: &[u8]) {
        self.task = task_of(str::from_utf8(title).unwrap_or(""));
        self.setting = Setting::full();
        self.script.clear();
    }
}

// Appends what all scripts give, each behind its title.
fn play_all(
    alloc: Global,
    input: &[u8],
    row: &mut Row,
    out: &mut Vec<u8>,
) -> Result<(), AllocError> {
    let mut rest = input;
    'lines: while let Some(at) = line_end(rest) {
        let line = rest.get(..at.saturating_add(1)).unwrap_or(rest);
        rest = behind(rest, at);
        match line.strip_prefix(b"= ") {
            Some(title) => {
                row.play(alloc, out)?;
                out.extend_from_slice(line)?;
                row.begin(title.strip_suffix(b"\n").unwrap_or(title));
            }
            None => row.take(line)?,
        }
    }
    row.play(alloc, out)
}

// The same, from before the first title on.
fn all_played(alloc: Global, input: &[u8]) -> Result<Vec<u8>, AllocError> {
    let mut out = Vec::new(alloc);
    let mut row = Row {
        task: Task::Run,
        setting: None,
        script: Vec::new(alloc),
    };
    play_all(alloc, input, &mut row, &mut out)?;
    Ok(out)
}

fn main(rt: HostRuntime) -> Result<(), Fail> {
    let alloc = rt.alloc();
    let mut input = Vec::new(alloc);
    rt.reader().read_to_end(&mut input)?;
    let out = all_played(alloc, &input)?;
    io::writer(&rt).write_all(out.as_slice())?;
    Ok(())
}
