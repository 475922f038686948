//! The facts of an event, in lines of text.
ghost use Rattle.std.specs.Prelude.{◌≡◌, ◌++◌, [], OnOk, option_map, IfErr};
ghost use Rattle.std.specs.List.{find};
ghost use Rattle.std.specs.Option.{option_map_or};
ghost use Rattle.core_state.specs.Reads.{views_of};
ghost use Rattle.event_facts.specs.Events.{snapshot_held};
ghost use Rattle.event_facts.specs.Facts.{is_on_buffer};
ghost use Rattle.script_labels.specs.Names.{Names};
ghost use Rattle.script_labels.specs.Tables.{Keeps};
ghost use Rattle.event_texts.specs.Called.{Calls};
ghost use Rattle.event_texts.specs.Deeds.{KeptLines, Recalls};
ghost use Rattle.event_texts.specs.EventTexts.{kept_text, since_text};
ghost use Rattle.event_texts.specs.LostLines.{since_line};
ghost use Rattle.event_texts.specs.MarkTexts.{allocated_text, mark_text, marks_text};
ghost use Rattle.event_texts.specs.EventLines.{TellsFacts, buffer_if_done, buffers_text, changed_text, dropped_buffer, facts_text, keepers_text};
ghost use Rattle.event_texts.specs.EventLines.{kept_dropped_text, kept_left_text, kept_one_text, node_waits, pending_text, reasons_text, waiting_text, who_keeps};

use super::{EventWriter, KeptLine};
use crate::allocations::{push_initial, push_logical};
use crate::keepers::{push_kept, push_kept_by_nodes};
use crate::losses::{push_end, push_loss};
use crate::outcomes::{push_doomed, push_fires, push_free, push_waits};
use event_facts::keepers::strong_live;
use event_facts::pages::given_back;
use event_facts::{Before, Event, fired_since, placed_by};
use forced_marks::{Forced, Moment};
use forest_store::Snapshot;
use script_labels::{LineStop, Tables};
use script_lines::{Part, push_parts};
use sm_names::{BufferName, Buffers, Call, HeldBuffer, NodeKey, Reply, object_key, parts_of};
use std::alloc::AllocError;

impl EventWriter {
    // Appends the facts of the event.
    pub(crate) fn push_facts(&self, event: &Event, facts: &mut Vec<u8>) -> Result<(), LineStop>
        ensures text { OnOk result ((names : Names) (lines : KeptLines) →
            Keeps self.now.session.tables names → Calls self.now.labels names →
            Recalls self.now lines → facts.old.items ≡ [] →
            TellsFacts names lines self.now.session.core event.now facts.new.items) }
        ensures err { IfErr result (λ stop. stop ≡ LineStop.NoMemory) }
    {
        let doomed = event.newly_doomed(&self.session.core);
        self.push_each_fact(event, doomed, facts)
    }

    // Appends the facts of the event, since which these buffers are doomed.
    fn push_each_fact(
        &self,
        event: &Event,
        doomed: u64,
        facts: &mut Vec<u8>,
    ) -> Result<(), LineStop>
        ensures text { OnOk result ((names : Names) (lines : KeptLines) →
            Keeps self.now.session.tables names → Calls self.now.labels names →
            Recalls self.now lines → facts.new.items ≡ facts.old.items
            ++ facts_text names lines self.now.session.core doomed event.now) }
        ensures err { IfErr result (λ stop. stop ≡ LineStop.NoMemory) }
    {
        self.push_marks(event, facts)?;
        self.push_reasons(event, facts)?;
        self.push_buffers(event, doomed, facts)?;
        self.push_keepers(event, facts)?;
        let fired = fired_since(&self.session.core, event.fired);
        Ok(push_fires(facts, &self.session.tables, fired)?)
    }

    // Appends the marks of the event.
    fn push_marks(&self, event: &Event, facts: &mut Vec<u8>) -> Result<(), AllocError>
        ensures { OnOk result ((names : Names) → Keeps self.now.session.tables names →
            facts.new.items ≡ facts.old.items ++ marks_text names
            (views_of self.now.session.core).free event.now.after event.now.moments.items) }
    {
        let mut rest = event.moments.as_slice();
        'marks: while let Some((moment, later)) = rest.split_first() {
            self.push_mark(moment, placed_by(later, event), facts)?;
            rest = later;
        }
        Ok(())
    }

    // Appends that these buffers are doomed since the event, and which gave their pages back.
    fn push_buffers(
        &self,
        event: &Event,
        doomed: u64,
        facts: &mut Vec<u8>,
    ) -> Result<(), AllocError>
        ensures { OnOk result ((names : Names) → Keeps self.now.session.tables names →
            facts.new.items ≡ facts.old.items ++ buffers_text names event.now.before
            (snapshot_held event.now.after) doomed) }
    {
        match &event.before {
            Some(before) => {
                push_changed(
                    facts,
                    &self.session.tables,
                    before,
                    event.held_after(),
                    doomed,
                )
            }
            None => Ok(()),
        }
    }

    /// Appends a mark, in lines: what failed, ended or was allocated, and below it the ways of the
    /// failure, or the buffers; these are the collection's buffers after it. Costs O(n log n) for n
    /// nodes, and the text.
    pub fn push_mark(
        &self,
        moment: &Moment,
        placed: Option<(Buffers, &[HeldBuffer])>,
        facts: &mut Vec<u8>,
    ) -> Result<(), AllocError>
        ensures { OnOk result ((names : Names) → Keeps self.now.session.tables names →
            facts.new.items ≡ facts.old.items ++ mark_text names
            (views_of self.now.session.core).free
            (option_map (λ p. (p.0, p.1.now)) placed.entry) moment.now) }
    {
        let tables = &self.session.tables;
        let scene = &moment.before;
        match moment.mark {
            Forced::Loss(fault) => {
                push_loss(facts, tables, scene, self.session.core.free_pages(), fault)
            }
            Forced::Ended(top) => push_end(facts, tables, scene, top),
            Forced::Allocated(head) => self.push_allocated(scene, head, placed, facts),
        }
    }

    // Appends that the unit with this head was allocated.
    fn push_allocated(
        &self,
        scene: &Snapshot,
        head: NodeKey,
        placed: Option<(Buffers, &[HeldBuffer])>,
        facts: &mut Vec<u8>,
    ) -> Result<(), AllocError>
        ensures { OnOk result ((names : Names) → Keeps self.now.session.tables names →
            facts.new.items ≡ facts.old.items
            ++ allocated_text names scene.now head
            (option_map (λ p. (p.0, p.1.now)) placed.entry)) }
    {
        let tables = &self.session.tables;
        match (scene.buffers, placed) {
            (Some(given), _) => push_logical(facts, tables, scene, head, given),
            (None, Some((given, held))) => push_initial(facts, tables, scene, head, given, held),
            (None, None) => Ok(()),
        }
    }

    // Appends why the call was answered so.
    fn push_reasons(&self, event: &Event, facts: &mut Vec<u8>) -> Result<(), LineStop>
        ensures text { OnOk result ((names : Names) (lines : KeptLines) →
            Keeps self.now.session.tables names → Calls self.now.labels names →
            Recalls self.now lines → facts.new.items ≡ facts.old.items ++ reasons_text names lines
            self.now.session.core event.now.call event.now.reply) }
        ensures err { IfErr result (λ stop. stop ≡ LineStop.NoMemory) }
    {
        match event.reply {
            Reply::Pending => self.push_pending(event.call, facts),
            Reply::PeerClosed { origin, .. } => Ok(self.push_since(origin, facts)?),
            Reply::Refused(refusal) => self.push_refusal(event.call, refusal, facts),
            Reply::Misused(misuse) => Ok(self.push_misused(event.call, misuse, facts)?),
            _ => Ok(()),
        }
    }

    // Appends for whom the node waits that the call is made on.
    fn push_pending(&self, call: Call, facts: &mut Vec<u8>) -> Result<(), LineStop>
        ensures text { OnOk result ((names : Names) → Keeps self.now.session.tables names →
            Calls self.now.labels names → facts.new.items
            ≡ facts.old.items ++ pending_text names self.now.session.core call) }
        ensures err { IfErr result (λ stop. stop ≡ LineStop.NoMemory) }
    {
        match object_key(parts_of(call).object) {
            Some(key) => self.push_waiting(key, facts),
            None => Ok(()),
        }
    }

    // Appends for whom the node with this key waits.
    fn push_waiting(&self, key: NodeKey, facts: &mut Vec<u8>) -> Result<(), LineStop>
        ensures text { OnOk result ((names : Names) → Keeps self.now.session.tables names →
            Calls self.now.labels names → facts.new.items
            ≡ facts.old.items ++ node_waits names self.now.session.core key) }
        ensures err { IfErr result (λ stop. stop ≡ LineStop.NoMemory) }
    {
        match self.session.core.node(key) {
            Some(node) => {
                let copied = self.session.core.collection(node.collection)?;
                Ok(self.push_waiting_in(&copied, key, facts)?)
            }
            None => Ok(()),
        }
    }

    // Appends for whom the node waits, by this copy of its collection.
    fn push_waiting_in(
        &self,
        copied: &Option<Snapshot>,
        key: NodeKey,
        facts: &mut Vec<u8>,
    ) -> Result<(), AllocError>
        ensures { OnOk result ((names : Names) → Keeps self.now.session.tables names →
            Calls self.now.labels names → facts.new.items ≡ facts.old.items
            ++ option_map_or (λ s. waiting_text names s.nodes.items key) copied.now []) }
    {
        match copied {
            Some(copied) => push_waits(
                facts,
                &self.session.tables,
                &self.labels,
                &copied.nodes,
                key,
            ),
            None => Ok(()),
        }
    }

    // Appends the line whose event made the loss that began at the node.
    fn push_since(&self, origin: NodeKey, facts: &mut Vec<u8>) -> Result<(), AllocError>
        ensures { OnOk result ((lines : KeptLines) → Recalls self.now lines →
            facts.new.items ≡ facts.old.items ++ since_line lines.losses origin) }
    {
        match self.losses.get(&origin) {
            Some(told) => push_since_line(facts, told),
            None => Ok(()),
        }
    }

    // Appends the holders of pages that were not given back, where a handle was dropped or a live node left.
    fn push_keepers(&self, event: &Event, facts: &mut Vec<u8>) -> Result<(), LineStop>
        ensures text { OnOk result ((names : Names) → Keeps self.now.session.tables names →
            Calls self.now.labels names → facts.new.items
            ≡ facts.old.items ++ keepers_text names self.now.session.core event.now) }
        ensures err { IfErr result (λ stop. stop ≡ LineStop.NoMemory) }
    {
        match &event.after {
            Some(after) => match buffer_dropped(event.call, event.reply) {
                Some(buffer) => self.push_kept_one(after, buffer, facts),
                None => self.push_kept_left(event, after, facts),
            },
            None => Ok(()),
        }
    }

    // Appends the holders of the collection's buffers, where a live node left and no strong one is live.
    fn push_kept_left(
        &self,
        event: &Event,
        after: &Snapshot,
        facts: &mut Vec<u8>,
    ) -> Result<(), LineStop>
        ensures text { OnOk result ((names : Names) → Keeps self.now.session.tables names →
            Calls self.now.labels names → facts.new.items ≡ facts.old.items
            ++ kept_left_text names self.now.session.core event.now.before after.now) }
        ensures err { IfErr result (λ stop. stop ≡ LineStop.NoMemory) }
    {
        if !event.some_left(&self.session.core) {
            return Ok(());
        }
        let strong = strong_live(&after.nodes)?;
        if strong.is_empty() {
            self.push_kept_all(&after.held, facts)
        } else {
            Ok(())
        }
    }

    // Appends the holders of the buffer, if its pages were not given back.
    fn push_kept_one(
        &self,
        after: &Snapshot,
        buffer: BufferName,
        facts: &mut Vec<u8>,
    ) -> Result<(), LineStop>
        ensures text { OnOk result ((names : Names) → Keeps self.now.session.tables names →
            Calls self.now.labels names → facts.new.items ≡ facts.old.items
            ++ kept_dropped_text names self.now.session.core after.now buffer) }
        ensures err { IfErr result (λ stop. stop ≡ LineStop.NoMemory) }
    {
        match named(&after.held, buffer) {
            Some(held) => self.push_kept_by(after, held, facts),
            None => Ok(()),
        }
    }

    // Appends the live strong nodes that keep the buffer, or else the holders.
    fn push_kept_by(
        &self,
        after: &Snapshot,
        held: HeldBuffer,
        facts: &mut Vec<u8>,
    ) -> Result<(), LineStop>
        ensures text { OnOk result ((names : Names) → Keeps self.now.session.tables names →
            Calls self.now.labels names → facts.new.items ≡ facts.old.items
            ++ kept_one_text names self.now.session.core after.now held) }
        ensures err { IfErr result (λ stop. stop ≡ LineStop.NoMemory) }
    {
        let strong = strong_live(&after.nodes)?;
        if strong.is_empty() {
            return self.push_kept_all(&[held], facts);
        }
        Ok(push_kept_by_nodes(facts, &self.session.tables, held.buffer, &strong)?)
    }

    // Appends the holders of handles on the buffers.
    #[tactic(auto, unfolding(crate::specs::KeeperTexts::keepers_words))]
    fn push_kept_all(&self, held: &[HeldBuffer], facts: &mut Vec<u8>) -> Result<(), LineStop>
        ensures text { OnOk result ((names : Names) → Keeps self.now.session.tables names →
            Calls self.now.labels names → facts.new.items ≡ facts.old.items
            ++ kept_text names (who_keeps names self.now.session.core) held.now) }
        ensures err { IfErr result (λ stop. stop ≡ LineStop.NoMemory) }
    {
        let session = &self.session;
        push_kept(
            facts,
            &session.core,
            &session.tables,
            &self.labels,
            held,
            false,
        )
    }
}

// Appends that these buffers of the collection are doomed, and which have pages no later.
fn push_changed(
    text: &mut Vec<u8>,
    tables: &Tables,
    before: &Before,
    later: &[HeldBuffer],
    doomed: u64,
) -> Result<(), AllocError>
    ensures { OnOk result ((names : Names) → Keeps tables.now names → text.new.items
        ≡ text.old.items ++ changed_text names before.now later.now doomed) }
{
    push_doomed(text, tables, before.copied.id, doomed)?;
    let freed = given_back(&before.copied.held, later)?;
    push_free(text, tables, &freed)
}

// The buffer of the handle that the call drops, if it was done.
fn buffer_dropped(call: Call, reply: Reply) -> Option<BufferName>
    ensures { result ≡ dropped_buffer call reply }
{
    match call {
        Call::DropHandle(buffer, _) => if_done(reply, buffer),
        _ => None,
    }
}

// The buffer, if the reply is that the call was done.
fn if_done(reply: Reply, buffer: BufferName) -> Option<BufferName>
    ensures { result ≡ buffer_if_done reply buffer }
{
    match reply {
        Reply::Done => Some(buffer),
        _ => None,
    }
}

// The buffer with this name among these.
fn named(held: &[HeldBuffer], buffer: BufferName) -> Option<HeldBuffer>
    ensures { result ≡ find (is_on_buffer buffer) held.now }
{
    held.iter().find(|held| held.buffer == buffer).copied()
}

// Appends the line, with its number.
pub(super) fn push_since_line(text: &mut Vec<u8>, told: &KeptLine) -> Result<(), AllocError>
    ensures { OnOk result
        (text.new.items ≡ text.old.items ++ since_text told.now.number told.now.line.items) }
{
    push_parts(
        text,
        &[
            Part::Word("since   line "),
            Part::Number(told.number),
            Part::Word(": "),
            Part::Bytes(&told.line),
            Part::Word("\n"),
        ],
    )
}
