//! The text of a report.
ghost use Rattle.std.specs.Prelude.{◌≡◌, ◌++◌, OnOk};
ghost use Rattle.thread_runs.specs.Reports.{client_line_text, lines_text, report_text};

use event_laws::ClientLine;
use script_lines::{Label, push, push_label, push_number};
use std::alloc::AllocError;

/// Puts behind the text how many events there were, then for each client, in this order, how many
/// it made after its join, and how many handles of each strength it has open, and at last that all
/// was gathered. Each of these is a line with its end, and begins with `front`. Where there are more
/// labels than clients, or more clients than labels, those behind are left out.
///
/// Where memory is refused a part may stand behind the text. O(what is appended).
pub fn push_report(
    text: &mut Vec<u8>,
    front: &str,
    labels: &[Label],
    events: u64,
    lines: &[ClientLine],
) -> Result<(), AllocError>
    ensures { OnOk result (text.new.items
        ≡ text.old.items ++ report_text front.now labels.now events lines.now) }
{
    push(text, front)?;
    push(text, "events ")?;
    push_number(text, events)?;
    push(text, "\n")?;
    push_lines(text, front, labels, lines)?;
    push(text, front)?;
    push(text, "gather ok\n")
}

// Puts a line for each client behind the text.
fn push_lines(
    text: &mut Vec<u8>,
    front: &str,
    labels: &[Label],
    lines: &[ClientLine],
) -> Result<(), AllocError>
    ensures { OnOk result (text.new.items
        ≡ text.old.items ++ lines_text front.now labels.now lines.now) }
{
    let mut labels = labels;
    let mut lines = lines;
    while let (Some((label, more)), Some((line, others))) = (
        labels.split_first(),
        lines.split_first(),
    ) {
        push_line(text, front, *label, *line)?;
        labels = more;
        lines = others;
    }
    Ok(())
}

// Puts the line of a client behind the text.
fn push_line(
    text: &mut Vec<u8>,
    front: &str,
    label: Label,
    line: ClientLine,
) -> Result<(), AllocError>
    ensures { OnOk result (text.new.items
        ≡ text.old.items ++ client_line_text front.now label line) }
{
    push(text, front)?;
    push_label(text, Some(label))?;
    push(text, " events ")?;
    push_number(text, line.events)?;
    push(text, " strong ")?;
    push_number(text, line.strong)?;
    push(text, " weak ")?;
    push_number(text, line.weak)?;
    push(text, "\n")
}
