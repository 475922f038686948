//! What is known of the lines so far: an event writer, and the events in which nodes failed.
ghost use Rattle.std.specs.Prelude.{◌≡◌, ◌≤◌, ◌++◌, [], IfErr, IfOk, OnOk};
ghost use Rattle.sm_script.specs.Scenes.{Scene, first_scene};
ghost use Rattle.sm_script.specs.Sessions.{IsAt, IsStopped};
ghost use Rattle.event_texts.specs.Called.{Knows};
ghost use Rattle.event_texts.specs.Deeds.{KeptLines, Recalls, no_lines};
ghost use Rattle.event_texts.specs.EventLines.{TellsLine};
ghost use Rattle.script_explain.specs.Progress.{failing_since};

use event_texts::EventWriter;
use script_labels::LineStop;
use sm_names::{Limits, MAX_PAGES, NoMemory};
use std::alloc::{AllocError, Global};

// An event writer, and the numbers of the events in which nodes failed.
#[derive(Drop)]
pub(crate) struct Seen {
    pub(crate) event_writer: EventWriter,
    pub(crate) failing: Vec<u64>,
}

impl Seen {
    // No line was seen.
    pub(crate) fn new(
        alloc: Global,
        seed: [u8; 16],
        pages: u32,
        limits: Limits,
    ) -> Result<Seen, NoMemory>
        requires { (1 ≤ pages) × (pages ≤ MAX_PAGES) }
        ensures pool { IfOk result (λ seen. seen.event_writer.session.core.pool ≡ pages) }
        ensures limits { IfOk result (λ seen. seen.event_writer.session.core.limits ≡ limits) }
        ensures knows { IfOk result (λ seen. Knows seen.event_writer first_scene) }
        ensures recalls { IfOk result (λ seen. Recalls seen.event_writer no_lines) }
        ensures failing { IfOk result (λ seen. seen.failing.items ≡ []) }
    {
        let event_writer = EventWriter::new(alloc, seed, pages, limits)?;
        Ok(Seen {
            event_writer,
            failing: Vec::new(alloc),
        })
    }

    // Answers the line of this number, as `EventWriter::answer` does, and keeps the number of its event, if nodes
    // failed in it.
    pub(crate) fn answer(
        &mut self,
        alloc: Global,
        number: u64,
        line: &[u8],
        reply: &mut Vec<u8>,
        facts: &mut Vec<u8>,
    ) -> Result<(), LineStop>
        ensures tells { OnOk result ((scene : Scene) (kept : KeptLines) →
            Knows self.old.event_writer scene → Recalls self.old.event_writer kept → TellsLine
            self.old.event_writer self.new.event_writer number line.now reply.new.items
            facts.new.items scene kept) }
        ensures failing { OnOk result (self.new.failing.items ≡ self.old.failing.items
            ++ failing_since self.old.event_writer.failures self.new.event_writer) }
        ensures err { IfErr result (λ stop. (scene : Scene) →
            IsAt self.old.event_writer.session scene →
            IsStopped self.old.event_writer.session line.now scene stop) }
        ensures same { IfErr result (λ stop. (scene : Scene) →
            IsAt self.old.event_writer.session scene → stop ≡ LineStop.BadLine →
            self.new.event_writer.session ≡ self.old.event_writer.session) }
    {
        let failures = self.event_writer.failures;
        match self.event_writer.answer(alloc, number, line, reply, facts) {
            Ok(()) => {}
            Err(stop) => return Err(stop),
        }
        match self.note(failures) {
            Ok(()) => Ok(()),
            Err(_) => Err(LineStop::NoMemory),
        }
    }

    // Keeps the number of the last event, if nodes failed in more events than these.
    fn note(&mut self, failures: u64) -> Result<(), AllocError>
        ensures event_writer { self.new.event_writer ≡ self.old.event_writer }
        ensures failing { OnOk result (self.new.failing.items ≡ self.old.failing.items
            ++ failing_since failures self.old.event_writer) }
    {
        if self.event_writer.failures != failures {
            self.failing.push(self.event_writer.session.core.events())?;
        }
        Ok(())
    }
}
