//! Texts, put together piece by piece.
ghost use Rattle.std.specs.Prelude.{◌≡◌, ◌++◌, OnOk, OnErr, decimal};
ghost use Rattle.script_lines.specs.Labels.{label_text};

use crate::label::Label;
use itoa::Buffer;
use std::alloc::AllocError;

/// Appends the text; nothing where memory is refused. Costs O(n) for n bytes, and once in a while a
/// move of all that is there.
pub fn push(text: &mut Vec<u8>, more: &str) -> Result<(), AllocError>
    ensures ok { OnOk result (text.new.items ≡ text.old.items ++ more.now) }
    ensures err { OnErr result (text.new.items ≡ text.old.items) }
{
    text.extend_from_slice(more.as_bytes())
}

/// Appends the number, in decimal; nothing where memory is refused. Costs what `push` costs.
pub fn push_number(text: &mut Vec<u8>, number: u64) -> Result<(), AllocError>
    ensures ok { OnOk result (text.new.items ≡ text.old.items ++ decimal number) }
    ensures err { OnErr result (text.new.items ≡ text.old.items) }
{
    let mut buffer = Buffer::new();
    text.extend_from_slice(buffer.format(number).as_bytes())
}

/// Appends the label, if there is one; nothing where memory is refused. Costs what `push` costs.
pub fn push_label(text: &mut Vec<u8>, label: Option<Label>) -> Result<(), AllocError>
    ensures ok { OnOk result (text.new.items ≡ text.old.items ++ label_text label) }
    ensures err { OnErr result (text.new.items ≡ text.old.items) }
{
    match label {
        Some(label) => {
            let (bytes, start) = label.spelled();
            text.extend_from_slice(&bytes[start..])
        }
        None => Ok(()),
    }
}
