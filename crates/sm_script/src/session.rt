//! A script's core, and the tables of what its labels stand for.
ghost use Rattle.std.specs.Prelude.{◌≡◌, ◌≢◌, ◌≤◌, ◌++◌, List, IfOk, IfErr, IfSome, OnOk};
ghost use Rattle.std.specs.Bool.{OnTrue};
ghost use Rattle.std.specs.List.{Contains};
ghost use Rattle.sm_names.specs.Marks.{Entry};
ghost use Rattle.sm_names.specs.Timelines.{timeline};
ghost use Rattle.sm_names.specs.Trackers.{fired};
ghost use Rattle.core_state.specs.Shown.{Shows};
ghost use Rattle.script_labels.specs.Names.{Names, act_in, names_after};
ghost use Rattle.sm_script.specs.Scenes.{Scene, as_line, first_scene};
ghost use Rattle.sm_script.specs.Sessions.{IsAt, Advances, Gains, IsStopped};
ghost use Rattle.script_labels.specs.Tables.{Keeps};
ghost use Rattle.script_labels.specs.Texts.{reply_text};

use crate::views::push_view;
use lifetime_core::Core;
use script_labels::{Act, Binds, LineStop, Tables, push_poll, push_reply};
use script_lines::{LabelHash, Query, push, read_line};
use sm_names::{Call, ClientId, Fired, Limits, MAX_PAGES, NoMemory, Reply, StepFault, TrackerId};
use std::alloc::{AllocError, Global};
use std::collections::HashMap;
use trackers::Tracker;

/// A core, what the labels of the lines so far stand for, and the readers of all trackers.
#[derive(Drop)]
pub struct Session {
    /// The core that the calls of the lines so far have made.
    pub core: Core,
    /// What labels stand for.
    pub tables: Tables,
    readers: HashMap<TrackerId, Tracker>,
}

impl Session {
    /// Makes a session that has seen no line. The seed is that of the hash tables of labels and handles.
    ///
    /// `NoMemory` if the core's first lists are refused. Costs O(1).
    pub fn new(
        alloc: Global,
        seed: [u8; 16],
        pages: u32,
        limits: Limits,
    ) -> Result<Session, NoMemory>
        requires { (1 ≤ pages) × (pages ≤ MAX_PAGES) }
        ensures pool { IfOk result (λ session. session.core.pool ≡ pages) }
        ensures limits { IfOk result (λ session. session.core.limits ≡ limits) }
        ensures start { IfOk result (λ session. IsAt session first_scene) }
    {
        let core = Core::with_seed(alloc, pages, limits, seed)?;
        Ok(Session {
            core,
            tables: Tables::new(alloc, LabelHash::new(seed)),
            readers: HashMap::new(alloc),
        })
    }

    /// Answers a line, given without its end, into `reply`, which is emptied first.
    ///
    /// On an error the line was not answered, and the content of `reply` means nothing; a bad line changes nothing
    /// else; if memory was refused, the line's call may have been made. Costs O(line + text), a look-up for each label,
    /// and the call.
    pub fn answer(&mut self, line: &[u8], reply: &mut Vec<u8>) -> Result<(), LineStop>
        ensures ok { OnOk result ((scene : Scene) → IsAt self.old scene →
            Advances self.old self.new line.now reply.new.items scene) }
        ensures err { IfErr result (λ stop. (scene : Scene) → IsAt self.old scene →
            IsStopped self.old line.now scene stop) }
        ensures same { IfErr result (λ stop. stop ≡ LineStop.BadLine → self.new ≡ self.old) }
    {
        reply.clear();
        match self.read(line) {
            Some(Act::Nothing) => Ok(()),
            Some(
                Act::Ask {
                    client,
                    call,
                    binds,
                },
            ) => self.ask(client, call, binds, reply),
            Some(Act::Poll(tracker)) => self.poll(tracker, reply),
            Some(Act::Show(view)) => self.show(view, reply),
            None => Err(LineStop::BadLine),
        }
    }

    /// What the line asks for, given without its end; `None` if the line is bad. Costs O(line), and a
    /// look-up for each label.
    pub fn read(&self, line: &[u8]) -> Option<Act>
        ensures { (scene : Scene) → IsAt self.now scene →
            result ≡ act_in scene.names line.now }
    {
        match read_line(line) {
            Some(line) => self.tables.act(line),
            None => None,
        }
    }

    // Makes the call, and appends its reply as a line.
    fn ask(
        &mut self,
        client: ClientId,
        call: Call,
        binds: Binds,
        text: &mut Vec<u8>,
    ) -> Result<(), LineStop>
        ensures ok { OnOk result ((scene : Scene) → IsAt self.old scene →
            Gains self.old self.new (Act.Ask client call binds)
            text.old.items text.new.items scene) }
        ensures err { IfErr result (λ stop. (stop ≢ LineStop.BadLine)
            × (stop ≡ LineStop.HistoryFull → self.old.core.limits.events ≤ self.old.core.events)) }
    {
        let reply = match self.core.step(client, call) {
            Ok(reply) => reply,
            Err(StepFault::HistoryFull) => return Err(LineStop::HistoryFull),
            Err(StepFault::NoMemory) => return Err(LineStop::NoMemory),
        };
        self.note(binds, reply, text)?;
        Ok(())
    }

    /// Notes the core's reply to a call: appends the reply to `text` as a line, binds the label of what
    /// the call made, and keeps the reader of a tracker.
    ///
    /// `AllocError` if memory is refused: then some of this may be left out. Costs O(text), and a look-up
    /// for each label.
    pub fn note(&mut self, binds: Binds, reply: Reply, text: &mut Vec<u8>) -> Result<(), AllocError>
        ensures text { OnOk result ((names : Names) → Keeps self.old.tables names →
            text.new.items ≡ text.old.items ++ as_line (reply_text names binds reply)) }
        ensures names { OnOk result ((names : Names) → Keeps self.old.tables names →
            Keeps self.new.tables (names_after names binds reply)) }
        ensures pool { self.new.core.pool ≡ self.old.core.pool }
        ensures limits { self.new.core.limits ≡ self.old.core.limits }
        ensures shows { (history : List Entry) →
            Shows self.old.core history → Shows self.new.core history }
    {
        push_reply(text, &self.tables, binds, reply)?;
        push(text, "\n")?;
        self.tables.bind(binds, reply)?;
        keep_reader(&mut self.core, &mut self.readers, reply)
    }

    // Appends the state of the tracker, as its reader knows it, as a line.
    fn poll(&mut self, tracker: TrackerId, text: &mut Vec<u8>) -> Result<(), LineStop>
        ensures ok { OnOk result ((scene : Scene) → IsAt self.old scene →
            Gains self.old self.new (Act.Poll tracker) text.old.items text.new.items scene) }
        ensures err { IfErr result (λ stop. stop ≡ LineStop.NoMemory) }
    {
        match firing(&mut self.readers, &self.core, tracker) {
            Some(event) => push_poll(text, event)?,
            None => push(text, "quiet")?,
        }
        push(text, "\n")?;
        Ok(())
    }

    // Appends the view as a line.
    fn show(&self, view: Query, text: &mut Vec<u8>) -> Result<(), LineStop>
        ensures ok { OnOk result ((scene : Scene) → IsAt self.now scene →
            Gains self.now self.now (Act.Show view) text.old.items text.new.items scene) }
        ensures err { IfErr result (λ stop. stop ≡ LineStop.NoMemory) }
    {
        match push_view(text, &self.core, &self.tables, view) {
            Ok(()) => Ok(push(text, "\n")?),
            Err(_) => Err(LineStop::NoMemory),
        }
    }
}

// Takes the reader of the tracker in the reply, if there is one.
fn keep_reader(
    core: &mut Core,
    readers: &mut HashMap<TrackerId, Tracker>,
    reply: Reply,
) -> Result<(), AllocError>
    ensures pool { core.new.pool ≡ core.old.pool }
    ensures limits { core.new.limits ≡ core.old.limits }
    ensures shows { (history : List Entry) → Shows core.old history → Shows core.new history }
{
    if let Reply::Tracker(id) = reply {
        if let Some(reader) = core.take_tracker(id) {
            readers.insert(id, reader)?;
        }
    }
    Ok(())
}

// The event at which the tracker fired, if its reader knows it, and the core too.
fn firing(readers: &mut HashMap<TrackerId, Tracker>, core: &Core, tracker: TrackerId) -> Option<u64>
    ensures { (history : List Entry) → Shows core.now history → IfSome result (λ event.
        Contains (fired (timeline core.now.pool history))
        (record { tracker = tracker; event = event })) }
{
    let Some(reader) = readers.get_mut(&tracker) else {
        return None;
    };
    let Some(Fired { event, .. }) = reader.poll() else {
        return None;
    };
    if stands_in(core.fired(), Fired { tracker, event }) {
        Some(event)
    } else {
        None
    }
}

// Whether the firing is one of these, which are sorted by event, and then by tracker.
fn stands_in(firings: &[Fired], firing: Fired) -> bool
    ensures { OnTrue result (Contains firings.now firing) }
{
    let key = (firing.event, firing.tracker);
    match firings.binary_search_by_key(&key, |f| (f.event, f.tracker)) {
        Ok(at) => firings[at] == firing,
        Err(_) => false,
    }
}
