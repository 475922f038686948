//! A script of actors from its first byte to its last.
ghost use Rattle.std.specs.Prelude.{◌≡◌, ◌+◌, ◌^◌, ◌<◌, ◌≤◌, length, IfErr, IfOk, MatchResult, Ok};
ghost use Rattle.script_lines.specs.declared.TheConstants.{MOST_BYTES};
ghost use Rattle.actor_scripts.specs.declared.fault.ActorScriptFault.{ActorScriptFault};
ghost use Rattle.actor_scripts.specs.ActorLists.{script_actors_from, script_actors, actors_of, seen, BuilderInvariant};
ghost use Rattle.actor_scripts.specs.Reads.{line_fault, Fails, ReadsActors, IsScriptFault};

use crate::actor_list::ActorList;
use crate::builder::ActorListBuilder;
use crate::fault::ActorScriptFault;
use crate::halt::Halt;
use crate::input::read_script;
use script_lines::{LabelHash, line_end};
use std::alloc::Global;
use std::io::Read;
use std::mem;

/// Reads a script of actors to its end, and answers its actors and their steps. No line is judged
/// before the end was read.
///
/// The script has the lines of a script, without views, and each client's lines are its steps, in
/// their order. All clients join first, and there is at least one. A client is named in a step by
/// its place in the order of the joins; a node or a tracker by the number of its label: as many
/// labels of all actors as were named before it for the first time.
///
/// - `ReadFault`: the reader failed, or the script has more than `MOST_BYTES` bytes.
/// - `BadLine`: this line is the first bad one: it has no known form, or is a view, a join behind a
///   step or under a label that another joined under, a step of a client that did not join, or one
///   for such a client; or it has no end, or stands behind the last of a script without clients.
/// - `NoMemory`: memory was refused.
///
/// The hash of labels changes what a look-up costs, and no answer. Costs O(n) for n bytes, and at
/// most three look-ups of labels for each line.
pub fn read_actors<R: Read>(
    alloc: Global,
    labels: LabelHash,
    reader: &mut R,
) -> Result<ActorList, ActorScriptFault>
    ensures actors { IfOk result (ReadsActors (R.remaining reader.old) (R.remaining reader.new)) }
    ensures fault { IfErr result (Fails (R.remaining reader.old) (R.remaining reader.new)) }
{
    match read_script(alloc, reader) {
        Ok(script) => actor_list(alloc, labels, script.as_slice()),
        Err(fault) => Err(fault),
    }
}

// The actors of a script.
fn actor_list(
    alloc: Global,
    labels: LabelHash,
    script: &[u8],
) -> Result<ActorList, ActorScriptFault>
    requires { length script.now ≤ MOST_BYTES }
    ensures actors { IfOk result (λ list. script_actors script.now ≡ Ok (actors_of list)) }
    ensures fault { IfErr result (IsScriptFault (script_actors script.now)) }
{
    let mut builder = ActorListBuilder::new(alloc, labels);
    match judge(&mut builder, script) {
        Ok(()) => actors_in(alloc, &mut builder),
        Err(fault) => Err(fault),
    }
}

// The actors that were read, whose steps are taken out.
fn actors_in(alloc: Global, builder: &mut ActorListBuilder) -> Result<ActorList, ActorScriptFault>
    ensures actors { IfOk result (λ list. actors_of list ≡ (seen builder.old).actors) }
    ensures fault { IfErr result (λ fault. fault ≡ ActorScriptFault.NoMemory) }
{
    match Vec::from_slice(alloc, builder.clients.as_slice()) {
        Ok(labels) => Ok(ActorList {
            labels,
            scripts: mem::replace(&mut builder.scripts, Vec::new(alloc)),
        }),
        Err(_) => Err(ActorScriptFault::NoMemory),
    }
}

// Reads all lines that are left of a script.
fn judge(builder: &mut ActorListBuilder, script: &[u8]) -> Result<(), ActorScriptFault>
    requires sound { BuilderInvariant builder.old builder.old.lines }
    requires few { builder.old.lines + length script.now < 2 ^ 30 }
    ensures { MatchResult result
        (λ _. script_actors_from (seen builder.old) script.now ≡ Ok (seen builder.new).actors)
        (IsScriptFault (script_actors_from (seen builder.old) script.now)) }
{
    let mut rest = script;
    while let Some(at) = line_end(rest) {
        let number = builder.lines + 1;
        match builder.take_line(&rest[..at]) {
            Ok(()) => rest = &rest[at + 1..],
            Err(halt) => return Err(fault_at(number, halt)),
        }
    }
    if builder.is_ended(rest) {
        Ok(())
    } else {
        Err(ActorScriptFault::BadLine(builder.lines + 1))
    }
}

// Why the line of this number was not read.
fn fault_at(number: u64, halt: Halt) -> ActorScriptFault
    ensures { result ≡ line_fault number halt }
{
    match halt {
        Halt::BadLine => ActorScriptFault::BadLine(number),
        Halt::NoMemory => ActorScriptFault::NoMemory,
    }
}
