//! All bytes of a script come in.
ghost use Rattle.std.specs.Prelude.{◌<◌, length, IfErr, IfOk};
ghost use Rattle.actor_scripts.specs.Reads.{ReadsWhole, Unread};

use crate::fault::ActorScriptFault;
use script_lines::MOST_BYTES;
use std::alloc::Global;
use std::io::Read;

// How many bytes are asked for at a time.
const BLOCK: usize = 65_536;

// Reads to the end. A reader that fails, and one that gives more than `MOST_BYTES` bytes, is a
// fault.
pub(crate) fn read_script<R: Read>(
    alloc: Global,
    reader: &mut R,
) -> Result<Vec<u8>, ActorScriptFault>
    ensures ok { IfOk result (λ script.
        ReadsWhole (R.remaining reader.old) (R.remaining reader.new) script.items) }
    ensures err { IfErr result (Unread (R.remaining reader.old) (R.remaining reader.new)) }
{
    match vec![in alloc; 0; BLOCK] {
        Ok(mut block) => read_on(alloc, reader, &mut block),
        Err(_) => Err(ActorScriptFault::NoMemory),
    }
}

// Reads on, block by block, from the first byte.
fn read_on<R: Read>(
    alloc: Global,
    reader: &mut R,
    block: &mut [u8],
) -> Result<Vec<u8>, ActorScriptFault>
    requires { 0 < length block.old }
    ensures ok { IfOk result (λ script.
        ReadsWhole (R.remaining reader.old) (R.remaining reader.new) script.items) }
    ensures err { IfErr result (Unread (R.remaining reader.old) (R.remaining reader.new)) }
{
    let mut script = Vec::new(alloc);
    let mut left = MOST_BYTES;
    'turns: loop {
        match reader.read(block) {
            Err(_) => return Err(ActorScriptFault::ReadFault),
            Ok(0) => return Ok(script),
            Ok(n) if left < n => return Err(ActorScriptFault::ReadFault),
            Ok(n) => {
                match script.extend_from_slice(&block[..n]) {
                    Ok(()) => {}
                    Err(_) => return Err(ActorScriptFault::NoMemory),
                }
                left -= n;
            }
        }
    }
}
