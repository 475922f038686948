//! The trackers of one collection, at events that are numbered from 1. Nodes are called by their slots.
ghost use Rattle.std.specs.Prelude.{◌≡◌, ◌≤◌, All, IfSome, Some};
ghost use Rattle.trackers.specs.declared.waiting.Waiting.{Waiting};
ghost use Rattle.trackers.specs.Table.{Cell, cell_of};
ghost use Rattle.test_part_rows.specs.declared.watch.TheConstants.{HERE};

use crate::line::{Line, small};
use crate::runs::Runs;
use crate::verb::Verb;
use script_lines::Part;
use sm_names::{BufferName, CollectionId, Fired, NodeKey, TrackerId};
use std::alloc::Global;
use test_streams::Text;
use trackers::{Condition, TrackFault, Tracker, Trackers, Waiting, World};

/// The collection.
const HERE: CollectionId = 1;

// Which node is gone, by its slot, whether the units were allocated, how many buffers are left, and which
// one is doomed.
#[derive(Clone, Copy)]
pub struct Here {
    gone: Option<u32>,
    allocated: bool,
    left: usize,
    doomed: Option<u8>,
}

impl World for Here {
    ghost use Rattle.std.specs.Prelude.{◌==◌, false};
    ghost use Rattle.std.specs.Option.{option_map_or};

    ghost seen = { λ w. record {
      gone = λ key. option_map_or (λ slot. slot == key.slot) w.gone false;
      allocated = λ key. w.allocated;
      left = λ collection. w.left;
      doomed = λ buffer. option_map_or (λ index. index == buffer.index) w.doomed false;
    } };

    fn gone(&self, key: NodeKey) -> bool {
        match self.gone {
            Some(slot) => slot == key.slot,
            None => false,
        }
    }

    fn allocated(&self, _key: NodeKey) -> bool {
        self.allocated
    }

    fn left(&self, _collection: CollectionId) -> usize {
        self.left
    }

    fn doomed(&self, buffer: BufferName) -> bool {
        match self.doomed {
            Some(index) => index == buffer.index,
            None => false,
        }
    }
}

// Nothing has happened.
const QUIET: Here = Here {
    gone: None,
    allocated: false,
    left: 0,
    doomed: None,
};

// The world in which this many buffers are left.
fn left(number: u64) -> Here {
    Here {
        gone: None,
        allocated: true,
        left: number as usize,
        doomed: None,
    }
}

// The world that a line tells of: in all else nothing has happened.
fn world_of(line: &Line) -> Here {
    let [number, ..] = line.numbers;
    match line.verb {
        Verb::Gone => Here {
            gone: Some(small(number)),
            ..QUIET
        },
        Verb::Left => left(number),
        Verb::Doomed => Here {
            doomed: u8::try_from(number).ok(),
            ..QUIET
        },
        _ => QUIET,
    }
}

// The first node of a slot.
fn node(slot: u64) -> NodeKey {
    NodeKey {
        slot: small(slot),
        generation: 0,
    }
}

// A tracker that is filed under the collection.
fn waiting(id: TrackerId, condition: Condition) -> Waiting
    ensures { result ≡ record { id = id; collection = HERE; condition = condition } }
{
    Waiting {
        id,
        collection: HERE,
        condition,
    }
}

// That this many buffers of the node of a slot are left at most.
fn lifetime(slot: u64, most: u64) -> Condition {
    Condition::Lifetime(node(slot), HERE, small(most))
}

// The buffer with this index.
fn buffer(index: u64) -> BufferName {
    BufferName {
        collection: HERE,
        index: u8::try_from(index).unwrap_or(u8::MAX),
    }
}

// What is said of sweeps at which as many trackers fired, or not.
fn at_events(are_alike: bool) -> &'static str {
    if are_alike {
        " at each event to "
    } else {
        " at the first, to "
    }
}

/// Trackers, the number of the newest event, and the reader that was taken last.
#[derive(Drop)]
pub struct Watch {
    trackers: Trackers,
    event: u64,
    reader: Option<Tracker>,
    ghost numbered: { All (λ (c : Cell). c.id ≤ event) trackers.cells },
    ghost here: { All (λ (t : Waiting). t.collection ≡ HERE) trackers.unfired },
}

impl Watch {
    /// No trackers, of which this many may wait at once.
    pub fn new(alloc: Global, limit: u32) -> Watch {
        Watch {
            trackers: Trackers::new(alloc, limit),
            event: 0,
            reader: None,
        }
    }

    // The next event.
    fn pass(&mut self) {
        self.event = self.event.saturating_add(1);
    }

    // Attaches a tracker at the next event.
    fn track(&mut self, condition: Condition) -> Result<TrackerId, TrackFault> {
        if self.event == u64::MAX {
            return Err(TrackFault::NoMemory);
        }
        let id = self.event + 1;
        self.trackers.attach(waiting(id, condition))?;
        self.event = id;
        Ok(id)
    }

    // Attaches a tracker at the next event, and takes it out again: there was no such event. Answers how many wait.
    fn detach(&mut self, condition: Condition) -> usize {
        if self.event < u64::MAX {
            let id = self.event + 1;
            match self.trackers.attach(waiting(id, condition)) {
                Ok(()) => self.trackers.detach(HERE),
                Err(_) => {}
            }
        }
        self.trackers.waiting()
    }

    // Sweeps at this event.
    fn sweep(&mut self, world: &Here) {
        self.trackers.sweep(self.event, HERE, world);
    }

    // Attaches lifetimes, for each number of buffers from the first to the last one of each of this many nodes, whose
    // slots are 7 apart.
    fn track_each(&mut self, numbers: [u64; 4]) -> Result<TrackerId, TrackFault> {
        let [first, last, nodes, _] = numbers;
        let mut newest = Ok(0);
        for most in first..=last {
            for place in 0..nodes {
                let slot = place.wrapping_mul(7).checked_rem(nodes).unwrap_or(0);
                newest = self.track(lifetime(slot, most));
            }
        }
        newest
    }

    // The reader of a tracker, once.
    fn reader_of(&mut self, id: TrackerId) -> Option<Tracker>
        ensures own { IfSome result (λ t. cell_of self.new.trackers.cells t.tracker ≡ Some t.cell) }
    {
        self.trackers.take_tracker(id)
    }

    // Whether the reader knows what set its cell.
    fn agree(&mut self, tracker: &mut Tracker) -> bool
        requires { cell_of self.old.trackers.cells tracker.old.tracker ≡ Some tracker.old.cell }
    {
        self.trackers.agree(tracker)
    }

    // Takes the reader of a tracker, and whether it agrees with the trackers, if it is there.
    fn take_reader(&mut self, id: TrackerId) -> Option<bool> {
        match self.reader_of(id) {
            Some(mut reader) => {
                let agrees = self.agree(&mut reader);
                self.reader = Some(reader);
                Some(agrees)
            }
            None => None,
        }
    }

    // What the reader knows.
    fn poll(&mut self) -> Option<Fired> {
        match &mut self.reader {
            Some(reader) => reader.poll(),
            None => None,
        }
    }

    // Puts the trackers that fired behind the first this many behind what is there.
    fn push_fired(&self, before: usize, text: &mut Text) {
        let mut runs = Runs::new(1);
        text.word(":");
        for one in self.trackers.fired().iter().skip(before) {
            runs.add(text, one.tracker);
        }
        runs.end(text);
    }

    // How many of the trackers that fired behind the first this many did so at this event.
    fn count_since(&self, before: usize) -> u64 {
        let mut count: u64 = 0;
        for one in self.trackers.fired().iter().skip(before) {
            if one.event == self.event {
                count = count.wrapping_add(1);
            }
        }
        count
    }

    // Sweeps, and puts the trackers that fire at this event behind what is there.
    fn push_swept(&mut self, world: &Here, text: &mut Text) {
        let before = self.trackers.fired().len();
        self.sweep(world);
        self.push_fired(before, text);
        let count = self.count_since(before);
        text.push(&[
            Part::Word(", "),
            Part::Number(count),
            Part::Word(" at "),
            Part::Number(self.event),
        ]);
    }

    // Sweeps at the next event with this many buffers left, and answers how many trackers fire.
    fn count_swept(&mut self, number: u64) -> u64 {
        let before = self.trackers.fired().len();
        self.pass();
        self.sweep(&left(number));
        self.count_since(before)
    }

    // Sweeps once for each number of buffers below the first down to the last, each at an event of its own. Whether so
    // many trackers fire at each.
    fn are_swept(&mut self, first: u64, last: u64, each: u64) -> bool {
        let mut are_alike = true;
        for step in last..first {
            let left = first
                .saturating_add(last)
                .saturating_sub(step)
                .saturating_sub(1);
            are_alike = self.count_swept(left) == each && are_alike;
        }
        are_alike
    }

    // Sweeps once for each number of buffers from the first down to the last, each at an event of its own, and puts
    // behind what is there which trackers fire, and how many at each event.
    fn push_all_swept(&mut self, first: u64, last: u64, text: &mut Text) {
        let before = self.trackers.fired().len();
        let each = self.count_swept(first);
        let are_alike = self.are_swept(first, last, each);
        self.push_fired(before, text);
        text.push(&[
            Part::Word(", "),
            Part::Number(each),
            Part::Word(at_events(are_alike)),
            Part::Number(self.event),
        ]);
    }

    // Puts behind what is there what the reader knows.
    fn push_known(&mut self, before: &str, text: &mut Text) {
        match self.poll() {
            Some(fired) => text.push(&[
                Part::Word(before),
                Part::Number(fired.tracker),
                Part::Word(" at "),
                Part::Number(fired.event),
            ]),
            None => text.push(&[Part::Word(before), Part::Word("nothing")]),
        }
    }

    // Puts behind what is there what the reader of a tracker knows, once it is taken.
    fn push_taken(&mut self, id: TrackerId, text: &mut Text) {
        match self.take_reader(id) {
            Some(true) => self.push_known(": agrees, ", text),
            Some(false) => self.push_known(": ", text),
            None => text.word(": none"),
        }
    }

    // Puts behind what is there how many trackers wait once one was attached and taken out again.
    fn push_detached(&mut self, slot: u64, text: &mut Text) {
        let waiting = self.detach(Condition::Node(node(slot))) as u64;
        text.push(&[Part::Word(": "), Part::Number(waiting), Part::Word(" wait")]);
    }

    // Puts behind what is there how many trackers fired, and how many wait.
    fn push_numbers(&self, text: &mut Text) {
        let fired = self.trackers.fired().len() as u64;
        let waiting = self.trackers.waiting() as u64;
        text.push(&[
            Part::Word(": "),
            Part::Number(fired),
            Part::Word(", "),
            Part::Number(waiting),
            Part::Word(" wait"),
        ]);
    }

    // Attaches the trackers that a line says, if it says that. Answers the last of them.
    fn tracked(&mut self, line: &Line) -> Option<Result<TrackerId, TrackFault>> {
        let [first, second, ..] = line.numbers;
        match line.verb {
            Verb::Node => Some(self.track(Condition::Node(node(first)))),
            Verb::Lifetime => Some(self.track(lifetime(first, second))),
            Verb::Weak => Some(self.track(Condition::Weak(buffer(first)))),
            Verb::Lifetimes => Some(self.track_each(line.numbers)),
            _ => None,
        }
    }

    // Takes a line that attaches no tracker for good.
    fn see(&mut self, line: &Line, text: &mut Text) {
        let [first, second, ..] = line.numbers;
        match line.verb {
            Verb::Pass => self.pass(),
            Verb::Take => self.push_taken(first, text),
            Verb::Poll => self.push_known(": ", text),
            Verb::Down => self.push_all_swept(first, second, text),
            Verb::Detach => self.push_detached(first, text),
            Verb::Fired => self.push_numbers(text),
            Verb::Quiet | Verb::Gone | Verb::Left | Verb::Doomed => {
                self.push_swept(&world_of(line), text);
            }
            _ => text.word(": not understood"),
        }
    }

    /// Takes a line, which attaches trackers, sweeps, or asks what fired.
    pub fn take(&mut self, line: &Line, text: &mut Text) {
        match self.tracked(line) {
            Some(Ok(id)) => text.push(&[Part::Word(": tracker "), Part::Number(id)]),
            Some(Err(TrackFault::Full)) => text.word(": full"),
            Some(Err(TrackFault::NoMemory)) => text.word(": no memory"),
            None => self.see(line, text),
        }
    }
}
