//! All bytes of a script come in.
ghost use Rattle.std.specs.Prelude.{◌≡◌, ◌+◌, ◌<◌, ◌≤◌, drop, length, IfErr, IfOk, OnOk};
ghost use Rattle.std.specs.Io.KnownBytes.{Consumes, IsAtEnd};
ghost use Rattle.report_io.specs.Streams.{IsUnread};

use crate::fault::ReportFault;
use script_lines::MOST_BYTES;
use std::alloc::Global;
use std::io::Read;

// How many bytes are asked for at a time.
const BLOCK: usize = 65_536;

/// Reads to the end.
///
/// `ReadFault` where the reader fails, `TooLong` where it gives more than `MOST_BYTES` bytes, `NoMemory`
/// where memory is refused. Costs O(n) for n bytes.
pub fn read_script<R: Read>(alloc: Global, reader: &mut R) -> Result<Vec<u8>, ReportFault>
    ensures ok { IfOk result (λ script.
        Consumes (R.remaining reader.old) (R.remaining reader.new) script.items) }
    ensures end { OnOk result (IsAtEnd (R.remaining reader.new)) }
    ensures within { IfOk result (λ script. length script.items ≤ MOST_BYTES) }
    ensures err { IfErr result (IsUnread (R.remaining reader.old) (R.remaining reader.new)) }
{
    match vec![in alloc; 0; BLOCK] {
        Ok(mut block) => read_on(alloc, reader, &mut block),
        Err(_) => Err(ReportFault::NoMemory),
    }
}

// Reads on, block by block, from the first byte.
fn read_on<R: Read>(alloc: Global, reader: &mut R, block: &mut [u8]) -> Result<Vec<u8>, ReportFault>
    requires { 0 < length block.old }
    ensures ok { IfOk result (λ script.
        Consumes (R.remaining reader.old) (R.remaining reader.new) script.items) }
    ensures end { OnOk result (IsAtEnd (R.remaining reader.new)) }
    ensures within { IfOk result (λ script. length script.items ≤ MOST_BYTES) }
    ensures err { IfErr result (IsUnread (R.remaining reader.old) (R.remaining reader.new)) }
{
    let mut script = Vec::new(alloc);
    let mut left = MOST_BYTES;
    'turns: loop {
        match reader.read(block) {
            Err(_) => return Err(ReportFault::ReadFault),
            Ok(0) => return Ok(script),
            Ok(n) if left < n => return Err(ReportFault::TooLong),
            Ok(n) => {
                match script.extend_from_slice(&block[..n]) {
                    Ok(()) => {}
                    Err(_) => return Err(ReportFault::NoMemory),
                }
                left -= n;
            }
        }
    }
}

/// The bytes behind the one at this place. Costs O(1).
pub fn behind(bytes: &[u8], at: usize) -> &[u8]
    requires { at < length bytes.now }
    ensures value { result.now ≡ drop (at + 1) bytes.now }
    ensures shorter { length result.now < length bytes.now }
{
    &bytes[at + 1..]
}
