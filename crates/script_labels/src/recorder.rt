//! A walk over a record, which knows what each label stands for.
ghost use Rattle.std.specs.Prelude.{◌≡◌, ◌++◌, OnOk};
ghost use Rattle.script_labels.specs.Names.{no_names};
ghost use Rattle.script_labels.specs.Records.{RecorderNames, Scribe, scribe_client_label, entry_text, first_scribe, labels_after, next_label, record_text, scribe_after, scribe_noted, scribe_with_client};

use crate::act::Binds;
use crate::record_calls::push_call;
use crate::record_labels::binds;
use crate::tables::Tables;
use crate::texts::push_reply;
use script_lines::{Label, LabelHash, push};
use sm_names::{Call, ClientId, Reply};
use std::alloc::{AllocError, Global};
use std::collections::HashMap;

// What the labels of the entries so far stand for, and what each client is called.
#[derive(Drop)]
pub(crate) struct Recorder {
    pub(crate) tables: Tables,
    pub(crate) clients: HashMap<ClientId, Label>,
}

impl Recorder {
    // No entry was seen.
    fn new(alloc: Global, labels: LabelHash) -> Recorder
        ensures { RecorderNames result first_scribe }
    {
        Recorder {
            tables: Tables::new(alloc, labels),
            clients: HashMap::new(alloc),
        }
    }

    // The label of the client.
    pub(crate) fn client(&self, client: ClientId) -> Option<Label>
        ensures { (s : Scribe) → RecorderNames self.now s → result ≡ scribe_client_label s client }
    {
        self.clients.get(&client).copied()
    }

    // From now on the client is called so.
    fn call_client(&mut self, client: ClientId, label: Label) -> Result<(), AllocError>
        ensures { OnOk result ((s : Scribe) → RecorderNames self.old s →
            RecorderNames self.new (scribe_with_client s client label)) }
    {
        self.clients.insert(client, label)?;
        Ok(())
    }

    // Takes note of what the reply made or brought.
    fn note(&mut self, binds: Binds, reply: Reply) -> Result<(), AllocError>
        ensures { OnOk result ((s : Scribe) → RecorderNames self.old s →
            RecorderNames self.new (scribe_noted s binds reply)) }
    {
        self.tables.bind(binds, reply)?;
        match (binds, reply) {
            (Binds::Client(label), Reply::Joined(client)) => self.call_client(client, label),
            _ => Ok(()),
        }
    }

    // Appends an entry, where the next client that joins has this label.
    fn push_entry(
        &mut self,
        alloc: Global,
        text: &mut Vec<u8>,
        next: Option<Label>,
        event: u64,
        entry: (ClientId, Call, Reply),
    ) -> Result<(), AllocError>
        ensures text { OnOk result ((s : Scribe) → RecorderNames self.old s →
            text.new.items ≡ text.old.items ++ entry_text s next event entry) }
        ensures calls { OnOk result ((s : Scribe) → RecorderNames self.old s →
            RecorderNames self.new (scribe_after s next event entry)) }
    {
        let (client, call, reply) = entry;
        let binds = binds(alloc, next, event, call)?;
        push_call(text, self, binds, client, &call)?;
        push(text, "\n  ")?;
        push_reply(text, &self.tables, binds, reply)?;
        push(text, "\n")?;
        self.note(binds, reply)
    }
}

// The label of the client that joins next.
fn label_of_next(labels: &[Label]) -> Option<Label>
    ensures { result ≡ next_label labels.now }
{
    match labels.split_first() {
        Some((label, _)) => Some(*label),
        None => None,
    }
}

// The labels of the clients that are still to join after the call.
fn labels_left<'a>(labels: &'a [Label], call: &Call) -> &'a [Label]
    ensures { result.now ≡ labels_after labels.now call.now }
{
    match (call, labels.split_first()) {
        (Call::Join, Some((_, others))) => others,
        _ => labels,
    }
}

/// Appends the record, as a transcript: for each entry the line that makes its call, and below it, behind
/// two spaces, its reply.
///
/// The clients have these labels, in the order of their joins. A node's label is `n` and the number of the
/// event of its birth, or of its Collect on the line of that, and a tracker's is `t` and the number of its
/// event. The script language keeps labels of clients, nodes and trackers apart, so that a client may be
/// called `n5` too. What has no label is written without one: a client beyond the labels, or a node that
/// was never made.
///
/// `AllocError` where memory is refused: then a part of the text may stand there. Labels hash from this
/// hash. Costs O(n) for n bytes of text, and some look-ups for each entry.
pub fn push_record(
    alloc: Global,
    hash: LabelHash,
    text: &mut Vec<u8>,
    labels: &[Label],
    entries: &[(ClientId, Call, Reply)],
) -> Result<(), AllocError>
    ensures { OnOk result (text.new.items
        ≡ text.old.items ++ record_text labels.now entries.now) }
{
    let mut recorder = Recorder::new(alloc, hash);
    let mut labels = labels;
    let mut rest = entries;
    let mut event = 0;
    'entries: while let Some((entry, later)) = rest.split_first() {
        event += 1;
        recorder.push_entry(alloc, text, label_of_next(labels), event, *entry)?;
        labels = labels_left(labels, &entry.1);
        rest = later;
    }
    Ok(())
}
