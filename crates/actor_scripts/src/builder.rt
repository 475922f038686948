//! A script of actors, line by line.
ghost use Rattle.std.specs.Prelude.{◌≡◌, ◌+◌, ◌^◌, ◌<◌, MatchResult, OnOk, Some};
ghost use Rattle.actor_scripts.specs.ActorLists.{after_line, is_ended, join_effect, first_reading, line_effect, seen, step_effect, Halts, BuilderInvariant};

use crate::ActorScript;
use crate::halt::Halt;
use crate::labels::{add_step, place};
use indexmap::IndexSet;
use script_lines::{Label, LabelHash, Line, read_line};
use std::alloc::Global;

// The clients in the order of their joins, the labels that their lines named, the steps of each,
// whether any came, and how many lines were read. A script picks its labels, so they are hashed from
// a seed.
#[derive(Drop)]
pub(crate) struct ActorListBuilder {
    alloc: Global,
    pub(crate) clients: IndexSet<Label, LabelHash>,
    named: IndexSet<(u32, Label), LabelHash>,
    pub(crate) scripts: Vec<ActorScript>,
    begun: bool,
    pub(crate) lines: u64,
}

impl ActorListBuilder {
    // No line was read.
    pub(crate) fn new(alloc: Global, labels: LabelHash) -> ActorListBuilder
        ensures start { seen result ≡ first_reading }
        ensures sound { BuilderInvariant result 0 }
    {
        ActorListBuilder {
            alloc,
            clients: IndexSet::with_hasher(alloc, labels),
            named: IndexSet::with_hasher(alloc, labels),
            scripts: Vec::new(alloc),
            begun: false,
            lines: 0,
        }
    }

    // Reads one more line, without its end.
    pub(crate) fn take_line(&mut self, bytes: &[u8]) -> Result<(), Halt>
        requires sound { BuilderInvariant self.old self.old.lines }
        requires few { self.old.lines < 2 ^ 30 }
        ensures says { MatchResult result
            (λ _. after_line (seen self.old) bytes.now ≡ Some (seen self.new))
            (Halts (after_line (seen self.old) bytes.now)) }
        ensures sound { OnOk result (BuilderInvariant self.new self.new.lines) }
        ensures counted { OnOk result (self.new.lines ≡ self.old.lines + 1) }
    {
        match read_line(bytes) {
            Some(line) => self.apply_line(line)?,
            None => return Err(Halt::BadLine),
        }
        self.lines += 1;
        Ok(())
    }

    // Does what the line says.
    fn apply_line(&mut self, line: Line) -> Result<(), Halt>
        requires sound { BuilderInvariant self.old self.old.lines }
        requires few { self.old.lines < 2 ^ 30 }
        ensures says { MatchResult result
            (λ _. line_effect (seen self.old) line ≡ Some (seen self.new))
            (Halts (line_effect (seen self.old) line)) }
        ensures sound { OnOk result (BuilderInvariant self.new (self.old.lines + 1)) }
        ensures same { self.new.lines ≡ self.old.lines }
    {
        match line {
            Line::Nothing => Ok(()),
            Line::Join { client } => self.join(client),
            Line::Ask { client, .. } => self.add_step(client, line),
            Line::Poll { client, .. } => self.add_step(client, line),
            Line::Show { .. } => Err(Halt::BadLine),
        }
    }

    // Whether the script may end here, where this is left behind the last line.
    pub(crate) fn is_ended(&self, rest: &[u8]) -> bool
        ensures { result ≡ is_ended rest.now self.now.clients.keys }
    {
        rest.is_empty() && self.clients.len() != 0
    }

    // A client joins.
    fn join(&mut self, client: Label) -> Result<(), Halt>
        requires sound { BuilderInvariant self.old self.old.lines }
        ensures says { MatchResult result
            (λ _. join_effect (seen self.old) client ≡ Some (seen self.new))
            (Halts (join_effect (seen self.old) client)) }
        ensures sound { OnOk result (BuilderInvariant self.new (self.old.lines + 1)) }
        ensures same { self.new.lines ≡ self.old.lines }
    {
        if self.begun {
            return Err(Halt::BadLine);
        }
        match self.clients.insert_full(client) {
            Ok((_, true)) => {}
            Ok((_, false)) => return Err(Halt::BadLine),
            Err(_) => return Err(Halt::NoMemory),
        }
        match self.scripts.push(ActorScript {
            steps: Vec::new(self.alloc),
        }) {
            Ok(()) => Ok(()),
            Err(_) => Err(Halt::NoMemory),
        }
    }

    // A client has one more step.
    fn add_step(&mut self, client: Label, line: Line) -> Result<(), Halt>
        requires sound { BuilderInvariant self.old self.old.lines }
        requires few { self.old.lines < 2 ^ 30 }
        ensures says { MatchResult result
            (λ _. step_effect (seen self.old) client line ≡ Some (seen self.new))
            (Halts (step_effect (seen self.old) client line)) }
        ensures sound { OnOk result (BuilderInvariant self.new (self.old.lines + 1)) }
        ensures same { self.new.lines ≡ self.old.lines }
    {
        let actor = match place(&self.clients, client) {
            Ok(actor) => actor,
            Err(halt) => return Err(halt),
        };
        let script = &mut self.scripts[actor as usize];
        match add_step(&self.clients, &mut self.named, script, actor, line) {
            Ok(()) => {
                self.begun = true;
                Ok(())
            }
            Err(halt) => Err(halt),
        }
    }
}
