//! The summary behind an explanation.
ghost use Rattle.std.specs.Prelude.{◌≡◌, IfOk};
ghost use Rattle.event_texts.specs.Called.{Knows};
ghost use Rattle.event_texts.specs.SummaryTexts.{summary_text};
ghost use Rattle.script_labels.specs.Names.{Names};
ghost use Rattle.script_labels.specs.Tables.{Keeps};
ghost use Rattle.report_io.specs.IndentedLines.{indented};
ghost use Rattle.sm_script.specs.Scenes.{Scene};
ghost use Rattle.script_explain.specs.Progress.{SummaryTold, seen_summary};

use crate::seen::Seen;
use report_io::{ReportFault, push_indented, put_out};
use script_labels::LineStop;
use std::alloc::Global;
use std::io::Write;

// Writes the summary of the lines so far, each line of it behind four spaces.
pub(crate) fn put_summary<W: Write>(
    alloc: Global,
    seen: &Seen,
    writer: &mut W,
) -> Result<(), ReportFault>
    ensures { (scene : Scene) → Knows seen.now.event_writer scene →
        SummaryTold (W.contents writer.old) (W.contents writer.new) (seen_summary seen.now scene) result }
{
    match summary_of(alloc, seen) {
        Ok(text) => put_out(writer, &text),
        Err(_) => Err(ReportFault::NoMemory),
    }
}

// The summary of the lines so far, each line of it behind four spaces.
fn summary_of(alloc: Global, seen: &Seen) -> Result<Vec<u8>, LineStop>
    ensures { IfOk result (λ text. (scene : Scene) → Knows seen.now.event_writer scene →
        text.items ≡ seen_summary seen.now scene) }
{
    let mut lines = Vec::new(alloc);
    seen.event_writer.push_summary(&seen.failing, &mut lines)?;
    let mut text = Vec::new(alloc);
    push_indented(&mut text, &lines)?;
    Ok(text)
}
