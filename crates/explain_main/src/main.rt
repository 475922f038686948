//! `sysmem explain` alone, on a pool of 16 pages: a first look needs a third of the whole program's build.
#![tactic(auto)]

use script_explain::{ExplainJob, Scope, explain_to_exit};
use script_lines::Pages;
use std::io;
use std::process::ExitCode;

fn main(rt: HostRuntime) -> ExitCode {
    let reader = &mut rt.reader();
    let writer = &mut io::writer(&rt);
    let stderr = rt.stderr();
    let faults = &mut io::writer(&stderr);
    let Some(pages) = Pages::new(16) else {
        return ExitCode::from(2);
    };
    let scope = Scope {
        only_failures: false,
        has_summary: false,
    };
    explain_to_exit(
        rt.alloc(),
        [0; 16],
        reader,
        writer,
        faults,
        ExplainJob { pages, scope },
    )
}
