//! Writing into the arrays of a caller in C.
ghost use Rattle.std.specs.Prelude.{◌≡◌, length, map};
ghost use Rattle.sysmem.specs.Arrays.{text_in, written_over};

use crate::encode::Encode;

// Writes the words of the first items over the first places, as many as there are of both.
pub(crate) fn write_array<T: Copy, W: Encode<T>>(out: &mut [W], items: &[T])
    ensures { out.new ≡ written_over (map W.encoded items.now) out.old }
{
    let room = out.len().min(items.len());
    for i in 0..room {
        out[i] = W::encode(items[i]);
    }
}

// Writes a text and a zero over the first places. Where there are fewer, the text is cut, so that the last
// place has the zero.
pub(crate) fn write_text(out: &mut [u8], text: &[u8])
    ensures { out.new ≡ written_over (text_in text.now (length out.old)) out.old }
{
    let Some(most) = out.len().checked_sub(1) else {
        return;
    };
    let end = most.min(text.len());
    write_array(out, &text[..end]);
    out[end] = 0;
}
