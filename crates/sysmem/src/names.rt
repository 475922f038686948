//! Names of the numbers for C.
ghost use Rattle.std.specs.Prelude.{◌≡◌, ◌≢◌, ◌↔◌, ◌⊎◌, length, []};
ghost use Rattle.sysmem.specs.Arrays.{text_in, written_over};
ghost use Rattle.sysmem.specs.Names.{cause_name, code_name, misuse_at, name, refusal_at};

use crate::arrays::write_text;
use crate::codes::{DONE, NO_NAME};
use sm_names::{Misuse, Refusal};

/// The library's version: 10,000 times the major number, and 100 times the minor one, and the patch.
const VERSION: u32 = 100;

/// Answers the library's version: `VERSION`. Costs O(1).
#[unsafe(no_mangle)]
pub extern "C" fn sysmem_version() -> u32
    ensures { result ≡ VERSION }
{
    VERSION
}

// The name of the code.
fn code_name(number: u32) -> &'static str
    ensures { result.now ≡ code_name number }
{
    match number {
        0 => "done",
        1 => "not open",
        2 => "already open",
        3 => "bad limits",
        4 => "bad call",
        5 => "history full",
        6 => "no memory",
        7 => "not failed",
        8 => "no name",
        9 => "no client",
        _ => "",
    }
}

// The refusal with this number.
fn refusal_at(number: u32) -> Option<Refusal>
    ensures { result ≡ refusal_at number }
{
    match number {
        1 => Some(Refusal::NoSuchClient),
        2 => Some(Refusal::ClientShut),
        3 => Some(Refusal::NoSuchEnd),
        4 => Some(Refusal::InTransit),
        5 => Some(Refusal::WrongKind),
        6 => Some(Refusal::TooManyNodes),
        7 => Some(Refusal::TooManyCollections),
        8 => Some(Refusal::TrackersFull),
        9 => Some(Refusal::NoSuchHandle),
        10 => Some(Refusal::TooManyHandles),
        _ => None,
    }
}

// The misuse with this number.
fn misuse_at(number: u32) -> Option<Misuse>
    ensures { result ≡ misuse_at number }
{
    match number {
        1 => Some(Misuse::SecondConstraints),
        2 => Some(Misuse::LateWeak),
        3 => Some(Misuse::LateWeakOk),
        4 => Some(Misuse::WeakNotOk),
        5 => Some(Misuse::TooManyNodeTrackers),
        _ => None,
    }
}

// The name of the cause.
fn cause_name(number: u32) -> &'static str
    ensures { result.now ≡ cause_name number }
{
    match number {
        0 => "lost",
        1 => "nostrong",
        11 => "misused SecondConstraints",
        12 => "misused LateWeak",
        13 => "misused LateWeakOk",
        14 => "misused WeakNotOk",
        15 => "misused TooManyNodeTrackers",
        20 => "failed NoStrong",
        21 => "failed NoBuffers",
        22 => "failed TooManyBuffers",
        23 => "failed PoolFull",
        24 => "failed TooFew",
        25 => "failed TooSmall",
        _ => "",
    }
}

// The name of the number, or an empty name.
fn name(about: u32, number: u32) -> &'static str
    ensures { result.now ≡ name about number }
{
    match about {
        0 => code_name(number),
        1 => match refusal_at(number) {
            Some(refusal) => refusal.name(),
            None => "",
        },
        2 => match misuse_at(number) {
            Some(misuse) => misuse.name(),
            None => "",
        },
        3 => cause_name(number),
        _ => "",
    }
}

/// Writes the name of a code (`about` 0), a refusal (1), a misuse (2) or a cause (3), and a zero
/// after it, and how many bytes the name has. Where `out` has fewer places, the name is cut, so that the
/// last place has the zero.
///
/// `NO_NAME` if there is no such number: nothing is written then. Costs what it writes.
#[unsafe(no_mangle)]
pub extern "C" fn sysmem_name(about: u32, number: u32, out: &mut [u8], count: &mut u64) -> u32
    ensures done { result ≡ 0 →
        (out.new ≡ written_over (text_in (name about number) (length out.old)) out.old)
        × (count.new ≡ length (name about number)) }
    ensures codes { (result ≡ 0) ⊎ (result ≡ 8) }
    ensures none { (result ≡ 8) ↔ (name about number ≡ []) }
    ensures failed { result ≢ 0 → (out.new ≡ out.old) × (count.new ≡ count.old) }
{
    let text = name(about, number).as_bytes();
    if text.is_empty() {
        return NO_NAME;
    }
    *count = text.len() as u64;
    write_text(out, text);
    DONE
}
