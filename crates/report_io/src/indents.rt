//! Lines that begin with spaces.
ghost use Rattle.std.specs.Prelude.{◌≡◌, ◌++◌, OnOk, option_map};
ghost use Rattle.report_io.specs.IndentedLines.{behind_indent as text_behind_indent, indented, is_indented as is_indented_line};

use script_lines::{Part, line_end, push_parts};
use std::alloc::AllocError;

/// Whether the line begins with two spaces. Costs O(1).
pub fn is_indented(line: &[u8]) -> bool
    ensures { result ≡ is_indented_line line.now }
{
    line.starts_with(b"  ")
}

/// What stands behind the two spaces that the line begins with, if it does. Costs O(1).
pub fn behind_indent(line: &[u8]) -> Option<&[u8]>
    ensures { option_map (λ text. text.now) result ≡ text_behind_indent line.now }
{
    if is_indented(line) {
        line.get(2..)
    } else {
        None
    }
}

/// Appends the whole lines, each behind four spaces; some of them where memory is refused. What
/// stands behind the last end of a line is left out. Costs O(n) for lines of n bytes.
pub fn push_indented(text: &mut Vec<u8>, lines: &[u8]) -> Result<(), AllocError>
    ensures { OnOk result (text.new.items ≡ text.old.items ++ indented lines.now) }
{
    let mut rest = lines;
    'lines: while let Some(at) = line_end(rest) {
        push_parts(
            text,
            &[
                Part::Word("    "),
                Part::Bytes(&rest[..at]),
                Part::Word("\n"),
            ],
        )?;
        rest = &rest[at + 1..];
    }
    Ok(())
}
