//! Why a call was refused, or was a misuse.
ghost use Rattle.std.specs.Prelude.{◌≡◌, ◌++◌, OnOk, IfErr};
ghost use Rattle.script_labels.specs.Names.{Names};
ghost use Rattle.script_labels.specs.Tables.{Keeps};
ghost use Rattle.sm_names.specs.Answers.{receiver_of as receiver_told};
ghost use Rattle.event_texts.specs.Called.{Calls};
ghost use Rattle.event_texts.specs.Deeds.{KeptLines, Recalls, deed_line, deed_on as deed_at, deed_since};
ghost use Rattle.event_texts.specs.declared.deeds.TheConstants.{SPENT as spent_kind};
ghost use Rattle.event_texts.specs.LostLines.{kept_line};
ghost use Rattle.event_texts.specs.RefusalTexts.{earlier_text, end_text, held_end_text, kind_of_text, kind_text, lacked_text, lacking_text, limit_text, misused_text, named_deed_text, named_text, no_end_text, no_handle_text, on_end, open_text, parcel_text, place_text, refusal_text, shut_receiver_text, shut_text, spent_by_text, spent_text, token_text};

use super::facts::push_since_line;
use super::{EventWriter, KeptLine};
use crate::deeds::{BOUND, CONSTRAINED, Deed, GIVEN, SPENT, TAKEN, deed_on};
use crate::keepers::push_holders;
use forest_store::{End, Node};
use script_labels::{LineStop, Tables};
use script_lines::{Part, push, push_parts, strength_name};
use sm_names::{
    BufferName, Call, ClientId, Misuse, NodeKey, Refusal, Strength, object_key, parts_of,
};
use std::alloc::AllocError;

impl EventWriter {
    // Appends why the call was refused.
    pub(crate) fn push_refusal(
        &self,
        call: Call,
        refusal: Refusal,
        facts: &mut Vec<u8>,
    ) -> Result<(), LineStop>
        ensures text { OnOk result ((names : Names) (lines : KeptLines) →
            Keeps self.now.session.tables names → Calls self.now.labels names →
            Recalls self.now lines → facts.new.items ≡ facts.old.items
            ++ refusal_text names lines.deeds self.now.session.core call refusal) }
        ensures err { IfErr result (λ stop. stop ≡ LineStop.NoMemory) }
    {
        match refusal {
            Refusal::NoSuchClient => {
                Ok(push(facts, "why     a client of the call never joined\n")?)
            }
            Refusal::ClientShut => Ok(self.push_shut(receiver_of(call), facts)?),
            Refusal::NoSuchEnd => Ok(self.push_end_on(call, facts)?),
            Refusal::InTransit => Ok(self.push_end_on(call, facts)?),
            Refusal::WrongKind => Ok(self.push_kind_on(call, facts)?),
            Refusal::NoSuchHandle => self.push_lacked(call, facts),
            Refusal::TooManyNodes => {
                Ok(push_limit(facts, self.limits.nodes() as u64, "kept node", "")?)
            }
            Refusal::TooManyCollections => Ok(push_limit(
                facts,
                self.limits.collections() as u64,
                "kept collection",
                "",
            )?),
            Refusal::TrackersFull => Ok(push_limit(
                facts,
                self.limits.trackers() as u64,
                "waiting tracker",
                "",
            )?),
            Refusal::TooManyHandles => Ok(push_limit(
                facts,
                self.limits.handles() as u64,
                "open handle",
                " of one buffer and strength",
            )?),
        }
    }

    // Appends who is shut: the receiver of the call, or else its caller.
    fn push_shut(&self, receiver: Option<ClientId>, facts: &mut Vec<u8>) -> Result<(), AllocError>
        ensures { OnOk result ((names : Names) → Calls self.now.labels names →
            facts.new.items ≡ facts.old.items ++ shut_text names receiver) }
    {
        match receiver {
            Some(to) => self.push_shut_receiver(to, facts),
            None => push(facts, "why     the caller is shut\n"),
        }
    }

    // Appends that the receiver is shut.
    fn push_shut_receiver(&self, to: ClientId, facts: &mut Vec<u8>) -> Result<(), AllocError>
        ensures { OnOk result ((names : Names) → Calls self.now.labels names →
            facts.new.items ≡ facts.old.items ++ shut_receiver_text names to) }
    {
        push_parts(
            facts,
            &[
                Part::Word("why     "),
                Part::Name(self.labels.client(to)),
                Part::Word(" is shut\n"),
            ],
        )
    }

    // Appends where the end is that the call is made on.
    fn push_end_on(&self, call: Call, facts: &mut Vec<u8>) -> Result<(), AllocError>
        ensures { OnOk result ((names : Names) (lines : KeptLines) →
            Keeps self.now.session.tables names → Calls self.now.labels names →
            Recalls self.now lines → facts.new.items ≡ facts.old.items
            ++ on_end call (end_text names lines.deeds self.now.session.core)) }
    {
        match object_key(parts_of(call).object) {
            Some(key) => self.push_end(key, facts),
            None => Ok(()),
        }
    }

    // Appends where the end of the node is.
    fn push_end(&self, key: NodeKey, facts: &mut Vec<u8>) -> Result<(), AllocError>
        ensures { OnOk result ((names : Names) (lines : KeptLines) →
            Keeps self.now.session.tables names → Calls self.now.labels names →
            Recalls self.now lines → facts.new.items ≡ facts.old.items
            ++ end_text names lines.deeds self.now.session.core key) }
    {
        match self.session.core.node(key) {
            Some(node) => self.push_place(key, node.end, facts),
            None => self.push_spent(key, facts),
        }
    }

    // Appends that the end of the node is there.
    fn push_place(&self, key: NodeKey, end: End, facts: &mut Vec<u8>) -> Result<(), AllocError>
        ensures { OnOk result ((names : Names) (lines : KeptLines) →
            Keeps self.now.session.tables names → Calls self.now.labels names →
            Recalls self.now lines →
            facts.new.items ≡ facts.old.items ++ place_text names lines.deeds key end) }
    {
        match end {
            End::Held(client) => self.push_held(key, client, facts),
            End::InTransit(_) => self.push_in_parcel(key, facts),
            End::Spent => self.push_spent(key, facts),
        }
    }

    // Appends that the client holds the end of the node.
    fn push_held(
        &self,
        key: NodeKey,
        client: ClientId,
        facts: &mut Vec<u8>,
    ) -> Result<(), AllocError>
        ensures { OnOk result ((names : Names) → Keeps self.now.session.tables names →
            Calls self.now.labels names →
            facts.new.items ≡ facts.old.items ++ held_end_text names key client) }
    {
        push_parts(
            facts,
            &[
                Part::Word("why     "),
                Part::Name(self.labels.client(client)),
                Part::Word(" holds the end of "),
                Part::Name(self.session.tables.birth_label(key)),
                Part::Word("\n"),
            ],
        )
    }

    // Appends that the end of the node lies in a parcel, and the line that put it there.
    fn push_in_parcel(&self, key: NodeKey, facts: &mut Vec<u8>) -> Result<(), AllocError>
        ensures { OnOk result ((names : Names) (lines : KeptLines) →
            Keeps self.now.session.tables names → Recalls self.now lines →
            facts.new.items ≡ facts.old.items ++ parcel_text names lines.deeds key) }
    {
        self.push_named_deed(
            "why     the end of ",
            key,
            " lies in a parcel\n",
            GIVEN,
            facts,
        )
    }

    // Appends the label of the node between these words, and the line that did a deed of this kind to its end.
    fn push_named_deed<'a>(
        &self,
        before: &'a str,
        key: NodeKey,
        behind: &'a str,
        kind: u8,
        facts: &mut Vec<u8>,
    ) -> Result<(), AllocError>
        ensures { OnOk result ((names : Names) (lines : KeptLines) →
            Keeps self.now.session.tables names → Recalls self.now lines → facts.new.items
            ≡ facts.old.items ++ named_deed_text names lines.deeds before.now key behind.now kind) }
    {
        push_named(facts, &self.session.tables, before, key, behind)?;
        self.push_deed(deed_on(kind, key), facts)
    }

    // Appends that the end of the node is spent, and by which line, if one spent it.
    fn push_spent(&self, key: NodeKey, facts: &mut Vec<u8>) -> Result<(), AllocError>
        ensures { OnOk result ((names : Names) (lines : KeptLines) →
            Keeps self.now.session.tables names → Recalls self.now lines →
            facts.new.items ≡ facts.old.items
            ++ spent_text names key (deed_line lines.deeds (deed_at spent_kind key))) }
    {
        self.push_spent_deed(key, deed_on(SPENT, key), facts)
    }

    // The same, where this deed spends the end.
    fn push_spent_deed(
        &self,
        key: NodeKey,
        deed: Deed,
        facts: &mut Vec<u8>,
    ) -> Result<(), AllocError>
        ensures { OnOk result ((names : Names) (lines : KeptLines) →
            Keeps self.now.session.tables names → Recalls self.now lines → facts.new.items
            ≡ facts.old.items ++ spent_text names key (deed_line lines.deeds deed)) }
    {
        match self.deeds.get(&deed) {
            Some(told) => push_spent_by(facts, &self.session.tables, key, told),
            None => push_no_end(facts, &self.session.tables, key),
        }
    }

    // Appends what the end is that the call is made on.
    fn push_kind_on(&self, call: Call, facts: &mut Vec<u8>) -> Result<(), AllocError>
        ensures { OnOk result ((names : Names) (lines : KeptLines) →
            Keeps self.now.session.tables names → Recalls self.now lines →
            facts.new.items ≡ facts.old.items
            ++ on_end call (kind_of_text names lines.deeds self.now.session.core)) }
    {
        match object_key(parts_of(call).object) {
            Some(key) => self.push_kind_of(key, facts),
            None => Ok(()),
        }
    }

    // Appends what the end of the node with this key is.
    fn push_kind_of(&self, key: NodeKey, facts: &mut Vec<u8>) -> Result<(), AllocError>
        ensures { OnOk result ((names : Names) (lines : KeptLines) →
            Keeps self.now.session.tables names → Recalls self.now lines →
            facts.new.items ≡ facts.old.items
            ++ kind_of_text names lines.deeds self.now.session.core key) }
    {
        match self.session.core.node(key) {
            Some(node) => self.push_kind(key, node, facts),
            None => Ok(()),
        }
    }

    // Appends what the end of the node is.
    fn push_kind(&self, key: NodeKey, node: Node, facts: &mut Vec<u8>) -> Result<(), AllocError>
        ensures { OnOk result ((names : Names) (lines : KeptLines) →
            Keeps self.now.session.tables names → Recalls self.now lines →
            facts.new.items ≡ facts.old.items ++ kind_text names lines.deeds key node) }
    {
        if node.bound {
            self.push_named_deed("why     ", key, " is a collection\n", BOUND, facts)
        } else {
            push_token(facts, &self.session.tables, key)
        }
    }

    // Appends that the caller has no handle on which the call is made, and who has some.
    fn push_lacked(&self, call: Call, facts: &mut Vec<u8>) -> Result<(), LineStop>
        ensures text { OnOk result ((names : Names) → Keeps self.now.session.tables names →
            Calls self.now.labels names → facts.new.items
            ≡ facts.old.items ++ lacked_text names self.now.session.core call) }
        ensures err { IfErr result (λ stop. stop ≡ LineStop.NoMemory) }
    {
        match call {
            Call::DupHandle(buffer, strength) => self.push_no_handle(strength, buffer, facts),
            Call::DropHandle(buffer, strength) => self.push_no_handle(strength, buffer, facts),
            Call::GiveHandle(buffer, strength, _) => self.push_no_handle(strength, buffer, facts),
            Call::TrackWeak(buffer) => self.push_no_handle(Strength::Weak, buffer, facts),
            _ => Ok(()),
        }
    }

    // Appends that the caller has no handle of this strength on the buffer, and who has handles on it.
    fn push_no_handle(
        &self,
        strength: Strength,
        buffer: BufferName,
        facts: &mut Vec<u8>,
    ) -> Result<(), LineStop>
        ensures text { OnOk result ((names : Names) → Keeps self.now.session.tables names →
            Calls self.now.labels names → facts.new.items ≡ facts.old.items
            ++ no_handle_text names self.now.session.core strength buffer) }
        ensures err { IfErr result (λ stop. stop ≡ LineStop.NoMemory) }
    {
        self.push_lacking(strength, buffer, facts)?;
        self.push_open(buffer, facts)
    }

    // Appends who has handles on the buffer, if somebody has, and ends the line.
    fn push_open(&self, buffer: BufferName, facts: &mut Vec<u8>) -> Result<(), LineStop>
        ensures text { OnOk result ((names : Names) → Calls self.now.labels names → facts.new.items
            ≡ facts.old.items ++ open_text names self.now.session.core buffer) }
        ensures err { IfErr result (λ stop. stop ≡ LineStop.NoMemory) }
    {
        let clients = self.session.core.clients()?;
        push_holders(
            facts,
            &self.session.core,
            &self.labels,
            &clients,
            buffer,
            "; open: ",
        )?;
        Ok(push(facts, "\n")?)
    }

    // Appends the line that did this, if there is one.
    fn push_deed(&self, deed: Deed, facts: &mut Vec<u8>) -> Result<(), AllocError>
        ensures { OnOk result ((lines : KeptLines) → Recalls self.now lines →
            facts.new.items ≡ facts.old.items ++ deed_since lines.deeds deed) }
    {
        match self.deeds.get(&deed) {
            Some(told) => push_since_line(facts, told),
            None => Ok(()),
        }
    }

    // Appends the line that did what makes the call a misuse, if there is one.
    pub(crate) fn push_misused(
        &self,
        call: Call,
        misuse: Misuse,
        facts: &mut Vec<u8>,
    ) -> Result<(), AllocError>
        ensures { OnOk result ((lines : KeptLines) → Recalls self.now lines →
            facts.new.items ≡ facts.old.items ++ misused_text lines.deeds call misuse) }
    {
        match misuse {
            Misuse::SecondConstraints => self.push_deed_on(CONSTRAINED, call, facts),
            Misuse::LateWeak => self.push_deed_on(CONSTRAINED, call, facts),
            Misuse::LateWeakOk => self.push_deed_on(TAKEN, call, facts),
            Misuse::WeakNotOk => Ok(()),
            Misuse::TooManyNodeTrackers => Ok(()),
        }
    }

    // Appends the line that did a deed of this kind to the end that the call is made on, if there is one.
    fn push_deed_on(&self, kind: u8, call: Call, facts: &mut Vec<u8>) -> Result<(), AllocError>
        ensures { OnOk result ((lines : KeptLines) → Recalls self.now lines →
            facts.new.items ≡ facts.old.items ++ earlier_text lines.deeds kind call) }
    {
        match object_key(parts_of(call).object) {
            Some(key) => self.push_deed(deed_on(kind, key), facts),
            None => Ok(()),
        }
    }

    // Appends that the caller has no handle of this strength on the buffer.
    fn push_lacking(
        &self,
        strength: Strength,
        buffer: BufferName,
        facts: &mut Vec<u8>,
    ) -> Result<(), AllocError>
        ensures { OnOk result ((names : Names) → Keeps self.now.session.tables names →
            facts.new.items ≡ facts.old.items ++ lacking_text names strength buffer) }
    {
        push_parts(
            facts,
            &[
                Part::Word("why     the caller has no "),
                Part::Word(strength_name(strength)),
                Part::Word(" handle on "),
                Part::Name(self.session.tables.root_label(buffer.collection)),
                Part::Word("."),
                Part::Number(buffer.index as u64),
            ],
        )
    }
}

// The client that the call names as receiver.
fn receiver_of(call: Call) -> Option<ClientId>
    ensures { result ≡ receiver_told call }
{
    match call {
        Call::Give(_, to) => Some(to),
        Call::GiveHandle(_, _, to) => Some(to),
        _ => None,
    }
}

// Appends the label of the node between these words.
fn push_named<'a>(
    text: &mut Vec<u8>,
    tables: &Tables,
    before: &'a str,
    node: NodeKey,
    behind: &'a str,
) -> Result<(), AllocError>
    ensures { OnOk result ((names : Names) → Keeps tables.now names →
        text.new.items ≡ text.old.items ++ named_text names before.now node behind.now) }
{
    push_parts(
        text,
        &[
            Part::Word(before),
            Part::Name(tables.birth_label(node)),
            Part::Word(behind),
        ],
    )
}

// Appends that there are as many as may be.
fn push_limit<'a>(
    text: &mut Vec<u8>,
    limit: u64,
    word: &'a str,
    behind: &'a str,
) -> Result<(), AllocError>
    ensures { OnOk result
        (text.new.items ≡ text.old.items ++ limit_text limit word.now behind.now) }
{
    push_parts(
        text,
        &[
            Part::Word("why     the limit of "),
            Part::Counted(limit, word),
            Part::Word(behind),
            Part::Word(" is reached\n"),
        ],
    )
}

// Appends that the end of the node is spent, and by which line.
fn push_spent_by(
    text: &mut Vec<u8>,
    tables: &Tables,
    node: NodeKey,
    told: &KeptLine,
) -> Result<(), AllocError>
    ensures { OnOk result ((names : Names) → Keeps tables.now names → text.new.items
        ≡ text.old.items ++ spent_by_text names node (kept_line told.now)) }
{
    push_no_end(text, tables, node)?;
    push_since_line(text, told)
}

// Appends that there is no end of the node any more.
fn push_no_end(text: &mut Vec<u8>, tables: &Tables, node: NodeKey) -> Result<(), AllocError>
    ensures { OnOk result ((names : Names) → Keeps tables.now names →
        text.new.items ≡ text.old.items ++ no_end_text names node) }
{
    push_named(text, tables, "why     the end of ", node, " is spent\n")
}

// Appends that the end of the node is a token.
fn push_token(text: &mut Vec<u8>, tables: &Tables, node: NodeKey) -> Result<(), AllocError>
    ensures { OnOk result ((names : Names) → Keeps tables.now names →
        text.new.items ≡ text.old.items ++ token_text names node) }
{
    push_named(text, tables, "why     ", node, " is a token\n")
}
