//! The actors run, and what they leave is reported.
ghost use Rattle.std.specs.Prelude.{◌≡◌, ◌++◌, IfErr, IfOk, OnOk, length, map};
ghost use Rattle.actor_scripts.specs.ActorLists.{actors_of};
ghost use Rattle.client_vanish.specs.Gatherings.{ids_of};
ghost use Rattle.event_laws.specs.Lines.{lines_of};
ghost use Rattle.service_lock.specs.States.{IsSetUpWith, View};
ghost use Rattle.service_lock.specs.Units.{AreFor};
ghost use Rattle.thread_runs.specs.Gathered.{IsLate, IsUntold, TellsCompany, TellsRecord, first_stray, line_client};
ghost use Rattle.thread_runs.specs.Runs.{IsRunText, told_text};

use crate::actor_parts::{fault_of, part_all};
use crate::company::first_unfit;
use crate::fault::ThreadsFault;
use crate::job::{Output, RunSetting};
use crate::report_text::push_report;
use actor_scripts::ActorList;
use client_actors::{Gate, run_actors};
use client_vanish::{GatherFault, Holding, Report, compare, end_service};
use event_laws::ClientLine;
use script_labels::push_record;
use script_lines::{Label, LabelHash};
use service_lock::{BlankBooks, MAX_SHARES, Service, Setup, State, entries};
use sm_names::{Call, ClientId, Reply};
use std::alloc::{AllocError, Global};
use std::marker::Brand;
use std::sync::Wait;
use std::sync::ledger::{Blank, Ledger};
use std::thread::Threads;
use std::time::Clock;

// How a run goes: what is written at its end, how many times more a step is made at most, and how labels are
// hashed meanwhile.
#[derive(Clone, Copy)]
struct OutputStyle {
    output: Output,
    repeats: u64,
    hash: LabelHash,
}

// Tells nobody of steps.
struct SilentGate;

impl Gate for SilentGate {
    fn before(&self, _client: ClientId, _step: u64) {}

    fn after(&self, _client: ClientId, _step: u64, _reply: &Option<Reply>) {}
}

// The first client at which the lines and the parts differ: that of the part, or that of the line if all
// parts come before it. No contract relates the ids of two joins, since each took the lock for itself: so
// the lines are compared with the parts.
fn first_stray<E: Setup, S: Ledger, W: Ledger>(
    lines: &[ClientLine],
    parts: &[Holding<E, S, W>],
) -> Option<ClientId>
    ensures { result ≡ first_stray (map line_client lines.now) (ids_of parts.now) }
{
    let mut left = lines;
    let mut rest = parts;
    'comparing: while let Some((part, others)) = rest.split_first() {
        let Some((line, more)) = left.split_first() else {
            return Some(part.id());
        };
        if line.client != part.id() {
            return Some(part.id());
        }
        left = more;
        rest = others;
    }
    match left.first() {
        Some(line) => Some(line.client),
        None => None,
    }
}

// Appends the report of the record, after its transcript if that is asked for.
fn push_output(
    alloc: Global,
    style: OutputStyle,
    text: &mut Vec<u8>,
    labels: &[Label],
    entries: &[(ClientId, Call, Reply)],
    report: &Report,
) -> Result<(), AllocError>
    requires events { report.now.events ≡ length entries.now }
    requires lines { report.now.lines.items ≡ lines_of entries.now }
    ensures { OnOk result (text.new.items
        ≡ text.old.items ++ told_text style.output labels.now entries.now) }
{
    let lines = report.lines.as_slice();
    match style.output {
        Output::Report => push_report(text, "", labels, report.events, lines),
        Output::Transcript => {
            push_record(alloc, style.hash, text, labels, entries)?;
            push_report(text, "# ", labels, report.events, lines)
        }
    }
}

// The report on what lies under the lock, if the parts are all that there is, and those of the clients
// that joined, in order.
fn text_of<E: Setup, S: Ledger, W: Ledger>(
    alloc: Global,
    style: OutputStyle,
    labels: &[Label],
    state: &State<E, S, W>,
    parts: &[Holding<E, S, W>],
) -> Result<Vec<u8>, ThreadsFault>
    ensures ok { IfOk result (λ text. TellsRecord style.output E.pages E.limits state.now labels.now
        parts.now text.items) }
    ensures late { IfErr result IsLate }
    ensures untold { IfErr result (IsUntold state.now parts.now) }
{
    let report = match compare(alloc, state, parts) {
        Ok(report) => report,
        Err(fault) => return Err(ThreadsFault::from(fault)),
    };
    if let Some(client) = first_stray(report.lines.as_slice(), parts) {
        return Err(ThreadsFault::Gather(GatherFault::MissingClient(client)));
    }
    let mut text = Vec::new(alloc);
    match push_output(alloc, style, &mut text, labels, entries(state), &report) {
        Ok(()) => Ok(text),
        Err(_) => Err(ThreadsFault::NoMemory),
    }
}

// The same, if these clients joined before all other events, and these are theirs.
fn company_text<E: Setup, S: Ledger, W: Ledger>(
    alloc: Global,
    style: OutputStyle,
    labels: &[Label],
    state: &State<E, S, W>,
    parts: &[Holding<E, S, W>],
) -> Result<Vec<u8>, ThreadsFault>
    ensures ok { IfOk result (λ text. TellsCompany style.output E.pages E.limits state.now labels.now
        parts.now text.items) }
    ensures late { IfErr result IsLate }
    ensures untold { IfErr result (IsUntold state.now parts.now) }
{
    let text = match text_of(alloc, style, labels, state, parts) {
        Ok(text) => text,
        Err(fault) => return Err(fault),
    };
    match first_unfit(parts.len(), entries(state)) {
        Some(event) => Err(ThreadsFault::Gather(GatherFault::RecordMismatch(event))),
        None => Ok(text),
    }
}

// The report on all parts, which come back. The lock is held all the time, so that all of it is of one
// record.
fn tell<E: Setup, S: Ledger, W: Ledger, R: Wait>(
    rt: &R,
    alloc: Global,
    service: &Service<E, S, W>,
    style: OutputStyle,
    labels: &[Label],
    parts: Vec<Holding<E, S, W>>,
) -> (Vec<Holding<E, S, W>>, Result<Vec<u8>, ThreadsFault>)
    ensures parts { result.0 ≡ parts }
    ensures ok { IfOk result.1 (λ text. (s : View)
        × TellsCompany style.output E.pages E.limits s labels.now parts.items text.items) }
    ensures late { IfErr result.1 IsLate }
{
    let guard = service.lock(rt);
    let told = company_text(alloc, style, labels, guard.state(), parts.as_slice());
    (parts, told)
}

// The report on the actors, and the part that each leaves.
fn run_all<
    E: Setup + Send + Sync,
    S: Ledger + Send + Sync,
    W: Ledger + Send + Sync,
    R: Threads + Wait + Clock + Sync,
>(
    rt: &R,
    alloc: Global,
    service: &Service<E, S, W>,
    style: OutputStyle,
    list: &ActorList,
) -> (Vec<Holding<E, S, W>>, Result<Vec<u8>, ThreadsFault>)
    ensures ok { IfOk result.1 (λ text.
        IsRunText style.output style.repeats E.pages E.limits (actors_of list.now) text.items) }
    ensures late { IfErr result.1 IsLate }
{
    let mut parts = match Vec::with_capacity(alloc, list.scripts.len()) {
        Ok(parts) => parts,
        Err(_) => return (Vec::new(alloc), Err(ThreadsFault::NoMemory)),
    };
    let scripts = list.scripts.as_slice();
    match run_actors(rt, alloc, service, &SilentGate, scripts, style.repeats) {
        Ok(ends) => match part_all(alloc, ends, &mut parts) {
            Some(fault) => (parts, Err(fault)),
            None => tell(rt, alloc, service, style, list.labels.as_slice(), parts),
        },
        Err((left, fault)) => {
            parts.destroy_empty();
            (left, Err(fault_of(fault)))
        }
    }
}

// The report on the actors on a service that has seen nothing, which is ended.
fn run_on<
    E: Setup + Send + Sync,
    S: Ledger + Send + Sync,
    W: Ledger + Send + Sync,
    R: Threads + Wait + Clock + Sync,
>(
    rt: &R,
    alloc: Global,
    blanks: BlankBooks,
    setting: RunSetting,
    list: &ActorList,
) -> Result<Vec<u8>, ThreadsFault>
    requires blanks { AreFor E.name E.parts S.name S.parts W.name W.parts blanks }
    requires asked { IsSetUpWith E.pages E.limits setting.job.pages.count setting.limits }
    ensures ok { IfOk result (λ text. IsRunText setting.job.output setting.job.repeats
        setting.job.pages.count setting.limits (actors_of list.now) text.items) }
    ensures late { IfErr result IsLate }
{
    let RunSetting { seed, job, limits } = setting;
    match Service::<E, S, W>::with_seed(alloc, blanks, job.pages.count, limits, seed) {
        Ok(service) => {
            let style = OutputStyle {
                output: job.output,
                repeats: job.repeats,
                hash: LabelHash::new(seed),
            };
            let (parts, told) = run_all(rt, alloc, &service, style, list);
            end_service(service, parts);
            told
        }
        Err(_) => Err(ThreadsFault::NoMemory),
    }
}

// The report on the actors.
pub(crate) fn tell_all<R: Threads + Wait + Clock + Sync>(
    rt: &R,
    alloc: Global,
    setting: RunSetting,
    list: &ActorList,
) -> Result<Vec<u8>, ThreadsFault>
    ensures ok { IfOk result (λ text. IsRunText setting.job.output setting.job.repeats
        setting.job.pages.count setting.limits (actors_of list.now) text.items) }
    ensures late { IfErr result IsLate }
{
    let blanks = BlankBooks {
        events: Blank::new(MAX_SHARES),
        strong: Blank::new(MAX_SHARES),
        weak: Blank::new(MAX_SHARES),
    };
    run_on::<Brand, Brand, Brand, _>(rt, alloc, blanks, setting, list)
}
