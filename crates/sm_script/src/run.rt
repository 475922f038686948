//! A script from its first byte to its last.
ghost use Rattle.std.specs.Prelude.{◌≡◌, ◌^◌, ◌<◌, ◌≤◌, [], length, true};
ghost use Rattle.report_io.specs.Takings.{Stands};
ghost use Rattle.sm_script.specs.Players.{Took};
ghost use Rattle.sm_script.specs.Runs.{Runs, RunsScript};
ghost use Rattle.sm_script.specs.Sessions.{setting_of};

use crate::fault::ScriptFault;
use crate::player::Player;
use report_io::{Intake, ReportFault, flush};
use script_lines::MOST_BYTES;
use sm_names::{Limits, MAX_PAGES};
use std::alloc::Global;
use std::io::{Read, Write};

// How many bytes are asked for at a time.
const BLOCK: usize = 65_536;

/// Runs the reader's script on a new core with a pool of `pages` pages, and writes one line for each
/// call, poll and view. All whole lines that were read are answered before the next read, and the writer
/// is flushed at the end. The run keeps the reader of each tracker that it makes; a poll answers the
/// firing that this reader knows, if the core knows it too. `seed` is that of the hash tables of labels
/// and handles, best of random bytes: it changes costs, but no output.
///
/// If the run reaches the end of the script, the output is the text of all lines. Otherwise:
/// - `ReadFault`, `TooLong`: the reader failed, or the script has more than `MOST_BYTES` bytes. The output is
///   the text of the whole lines among the bytes that were read.
/// - `WriteFault`: the writer failed, or took nothing, or could not be flushed. The output is a
///   first part of the text.
/// - `BadLine`, `HistoryFull`: this line is bad, with the reason that `report_io::fault_of` gives, or is the last one
///   and has no end; or it makes a call when the history is full. The output is the text of the lines before it.
/// - `NoMemory`: memory was refused. The output is the text of the lines before the current one,
///   which is a whole line, or the front of the line after all whole lines that were read. There is no
///   output if memory was refused before the first read.
///
/// A line of n bytes with a text of t bytes costs O(n + t), a look-up for each label, and its call; a poll
/// costs a look-up of its reader, and O(log firings).
pub fn report_run<R: Read, W: Write>(
    alloc: Global,
    seed: [u8; 16],
    reader: &mut R,
    writer: &mut W,
    pages: u32,
    limits: Limits,
) -> Result<(), ReportFault>
    requires { (1 ≤ pages) × (pages ≤ MAX_PAGES) }
    ensures { Runs (record { pool = pages; limits = limits })
        (R.remaining reader.old) (R.remaining reader.new)
        (W.contents writer.old) (W.contents writer.new) result }
{
    match Player::new(alloc, seed, pages, limits) {
        Ok(mut player) => start(alloc, reader, writer, &mut player),
        Err(_) => Err(ReportFault::NoMemory),
    }
}

/// Does what `report_run` does. The fault of a bad line has no reason, and a script that is too long can't be read.
pub fn run_script<R: Read, W: Write>(
    alloc: Global,
    seed: [u8; 16],
    reader: &mut R,
    writer: &mut W,
    pages: u32,
    limits: Limits,
) -> Result<(), ScriptFault>
    requires { (1 ≤ pages) × (pages ≤ MAX_PAGES) }
    ensures { RunsScript (record { pool = pages; limits = limits })
        (R.remaining reader.old) (R.remaining reader.new)
        (W.contents writer.old) (W.contents writer.new) result }
{
    match report_run(alloc, seed, reader, writer, pages, limits) {
        Ok(()) => Ok(()),
        Err(fault) => Err(ScriptFault::from(fault)),
    }
}

// Makes room for a block, then reads and answers from the first byte on.
fn start<R: Read, W: Write>(
    alloc: Global,
    reader: &mut R,
    writer: &mut W,
    player: &mut Player,
) -> Result<(), ReportFault>
    requires { Took player.old player.old true [] [] }
    ensures { Runs (setting_of player.old.session) (R.remaining reader.old) (R.remaining reader.new)
        (W.contents writer.old) (W.contents writer.new) result }
{
    let mut intake = Intake::new(alloc);
    match vec![in alloc; 0; BLOCK] {
        Ok(mut block) => read_on(alloc, reader, writer, player, &mut intake, &mut block),
        Err(_) => Err(ReportFault::NoMemory),
    }
}

// Reads and answers, block by block, from the first byte on.
fn read_on<R: Read, W: Write>(
    alloc: Global,
    reader: &mut R,
    writer: &mut W,
    player: &mut Player,
    intake: &mut Intake,
    block: &mut [u8],
) -> Result<(), ReportFault>
    requires room { (0 < length block.old) × (length block.old < 2 ^ 32) }
    requires start { Stands (Took player.old) player.old true intake.old.told
        (W.contents writer.old) (W.contents writer.old) [] }
    requires no_text { intake.old.told.text.items ≡ [] }
    requires no_front { intake.old.front.items ≡ [] }
    ensures { Runs (setting_of player.old.session) (R.remaining reader.old) (R.remaining reader.new)
        (W.contents writer.old) (W.contents writer.new) result }
{
    let mut left = MOST_BYTES;
    'turns: loop {
        match reader.read(block) {
            Err(_) => return Err(ReportFault::ReadFault),
            Ok(0) => {
                return match intake.end(alloc) {
                    Ok(()) => flush(writer),
                    Err(fault) => Err(fault),
                };
            }
            Ok(n) if left < n => {
                return match intake.take(alloc, player, writer, &block[..left]) {
                    Ok(_) => Err(ReportFault::TooLong),
                    Err(fault) => Err(fault),
                };
            }
            Ok(n) => {
                match intake.take(alloc, player, writer, &block[..n]) {
                    Ok(_) => {}
                    Err(fault) => return Err(fault),
                }
                left -= n;
            }
        }
    }
}
