//! The events by which a client vanishes.
ghost use Rattle.std.specs.Prelude.{◌≡◌, ◌≤◌, ◌∷◌, [], ℕ, IfOk, IfErr, OnOk, OnErr, Err, false, true};
ghost use Rattle.sm_names.specs.declared.keys.Strength.{Strength};
ghost use Rattle.sm_names.specs.declared.outcomes.StepFault.{StepFault};
ghost use Rattle.sm_names.specs.Answers.{makes_tracker};
ghost use Rattle.sm_names.specs.Handles.{open_of};
ghost use Rattle.sm_names.specs.Reading.{readings};
ghost use Rattle.core_state.specs.Kinds.{takes_no_memory};
ghost use Rattle.core_state.specs.Reads.{readings_of};
ghost use Rattle.core_vanish.specs.declared.vanishing.VanishFault.{VanishFault};
ghost use Rattle.core_vanish.specs.Events.{Collecting, Gathered, GivesUpAll, IsShut, Leaving, Lets, Whatever};
ghost use Rattle.core_vanish.specs.Vanishes.{IsClose, IsDrop, holds_end};
ghost use Rattle.core_vanish.specs.Vanishing.{AdvancesBy, Vanishes, IsBegun, VanishStops};
ghost use Rattle.core_vanish.specs.Phases.{HasAmong, HasLeft, HoldsAmong, IsUnshut, Phase, part_fault, waiting_told};

use alloc_event::End;
use lifetime_core::Core;
use sm_names::{BufferName, Call, ClientId, NodeKey, Reply, StepFault, Strength};

/// What the vanishing of a client made.
#[derive(Clone, Copy, PartialEq, Eq)]
pub struct Vanished {
    /// How many events were made.
    pub events: u64,
}

/// Why the vanishing of a client stopped.
#[derive(Clone, Copy, Debug, PartialEq, Eq)]
pub enum VanishFault {
    /// No client with this number joined: its Shut was refused, which is the only event.
    NoSuchClient,
    /// As many events were made as may be.
    HistoryFull,
    /// Memory was refused.
    NoMemory,
}

// The same fault of the whole.
fn fault_of(fault: StepFault) -> VanishFault
    ensures { result ≡ part_fault fault }
{
    match fault {
        StepFault::HistoryFull => VanishFault::HistoryFull,
        StepFault::NoMemory => VanishFault::NoMemory,
    }
}

// Makes a call that makes no tracker.
fn make(core: &mut Core, client: ClientId, call: Call) -> Result<Reply, StepFault>
    requires { makes_tracker call ≡ false }
    ensures made { IfOk result (λ reply.
        AdvancesBy core.old core.new ((client, call, reply) ∷ [])) }
    ensures none { OnErr result (AdvancesBy core.old core.new []) }
    ensures full { result ≡ Err StepFault.HistoryFull → core.new.limits.events ≤ core.new.events }
    ensures memory { IfErr result (λ fault.
        takes_no_memory call ≡ true → fault ≡ StepFault.HistoryFull) }
{
    core.step(client, call)
}

// How many parcels wait, as a Shut is answered.
fn waiting_in(reply: &Reply) -> Result<u64, VanishFault>
    ensures { result ≡ waiting_told reply.now }
{
    match *reply {
        Reply::Shut(waiting) => Ok(waiting),
        _ => Err(VanishFault::NoSuchClient),
    }
}

// Shuts the client. This many parcels wait for it. That takes no memory.
fn shut(core: &mut Core, client: ClientId) -> Result<u64, VanishFault>
    ensures ok { IfOk result (λ waiting.
        Phase core.old core.new (λ marks events later. IsShut client waiting events later)) }
    ensures err { IfErr result (λ fault. Phase core.old core.new (IsUnshut client fault)) }
    ensures full { result ≡ Err VanishFault.HistoryFull → core.new.limits.events ≤ core.new.events }
{
    match make(core, client, Call::Shut) {
        Ok(reply) => waiting_in(&reply),
        Err(fault) => Err(fault_of(fault)),
    }
}

// Collects this many parcels. That takes no memory.
fn collect_all(core: &mut Core, client: ClientId, waiting: u64) -> Result<(), StepFault>
    ensures ok { OnOk result
        (Phase core.old core.new (Collecting client waiting waiting)) }
    ensures err { OnErr result ((count : ℕ) × (count ≤ waiting)
        × Phase core.old core.new (Collecting client waiting count)) }
    ensures full { result ≡ Err StepFault.HistoryFull → core.new.limits.events ≤ core.new.events }
    ensures memory { IfErr result (λ fault. fault ≡ StepFault.HistoryFull) }
{
    let mut left = waiting;
    while left > 0 {
        make(core, client, Call::Collect)?;
        left -= 1;
    }
    Ok(())
}

// Whether the client holds the end of the node.
fn is_held(core: &Core, client: ClientId, key: NodeKey) -> bool
    ensures { result ≡ holds_end (readings_of core.now) client key }
{
    match core.node(key) {
        Some(node) => match node.end {
            End::Held(holder) => holder == client,
            End::InTransit(_) => false,
            End::Spent => false,
        },
        None => false,
    }
}

// Closes the end of the node, if the client holds it.
fn close(core: &mut Core, client: ClientId, key: NodeKey) -> Result<(), StepFault>
    ensures ok { OnOk result (Phase core.old core.new (Lets (IsClose client) client
        (λ later. holds_end (readings later) client key ≡ false))) }
    ensures err { OnErr result (Phase core.old core.new (Lets (IsClose client) client Whatever)) }
    ensures full { result ≡ Err StepFault.HistoryFull → core.new.limits.events ≤ core.new.events }
{
    if is_held(core, client, key) {
        make(core, client, Call::Close(key))?;
    }
    Ok(())
}

// Closes each end that the client holds.
fn close_all(core: &mut Core, client: ClientId) -> Result<(), StepFault>
    ensures ok { OnOk result (Phase core.old core.new (Lets (IsClose client) client
        (λ later. HoldsAmong client [] later))) }
    ensures err { OnErr result (Phase core.old core.new (Lets (IsClose client) client Whatever)) }
    ensures full { result ≡ Err StepFault.HistoryFull → core.new.limits.events ≤ core.new.events }
{
    let Ok(nodes) = core.nodes() else {
        return Err(StepFault::NoMemory);
    };
    let mut rest = nodes.as_slice();
    while let Some((node, others)) = rest.split_first() {
        close(core, client, node.key)?;
        rest = others;
    }
    Ok(())
}

// Drops each handle of this buffer and strength that the client has open.
fn drop_each(
    core: &mut Core,
    client: ClientId,
    buffer: BufferName,
    strength: Strength,
) -> Result<(), StepFault>
    ensures ok { OnOk result (Phase core.old core.new (Lets (IsDrop client) client
        (λ later. open_of later client buffer strength ≡ 0))) }
    ensures err { OnErr result (Phase core.old core.new (Lets (IsDrop client) client Whatever)) }
    ensures full { result ≡ Err StepFault.HistoryFull → core.new.limits.events ≤ core.new.events }
{
    let mut left = core.open_handles(client, buffer, strength);
    while left > 0 {
        make(core, client, Call::DropHandle(buffer, strength))?;
        left -= 1;
    }
    Ok(())
}

// Drops each handle of this buffer that the client has open.
fn drop_both(core: &mut Core, client: ClientId, buffer: BufferName) -> Result<(), StepFault>
    ensures ok { OnOk result (Phase core.old core.new (Lets (IsDrop client) client
        (λ later. (strength : Strength) → open_of later client buffer strength ≡ 0))) }
    ensures err { OnErr result (Phase core.old core.new (Lets (IsDrop client) client Whatever)) }
    ensures full { result ≡ Err StepFault.HistoryFull → core.new.limits.events ≤ core.new.events }
{
    drop_each(core, client, buffer, Strength::Strong)?;
    drop_each(core, client, buffer, Strength::Weak)
}

// Drops each handle that the client has open.
fn drop_all(core: &mut Core, client: ClientId) -> Result<(), StepFault>
    ensures ok { OnOk result (Phase core.old core.new (Lets (IsDrop client) client
        (λ later. HasAmong client [] later))) }
    ensures err { OnErr result (Phase core.old core.new (Lets (IsDrop client) client Whatever)) }
    ensures full { result ≡ Err StepFault.HistoryFull → core.new.limits.events ≤ core.new.events }
{
    let Ok(held) = core.held() else {
        return Err(StepFault::NoMemory);
    };
    let mut rest = held.as_slice();
    while let Some((buffer, others)) = rest.split_first() {
        drop_both(core, client, buffer.buffer)?;
        rest = others;
    }
    Ok(())
}

// Gives up all that the client has, once it was shut and this many parcels waited for it.
fn let_go(core: &mut Core, client: ClientId, waiting: u64) -> Result<(), StepFault>
    ensures ok { OnOk result (Phase core.old core.new (GivesUpAll client waiting)) }
    ensures err { OnErr result (Phase core.old core.new (Leaving client waiting)) }
    ensures gathered { IfErr result (λ fault. fault ≡ StepFault.NoMemory →
        Phase core.old core.new (Gathered client waiting)) }
    ensures full { result ≡ Err StepFault.HistoryFull → core.new.limits.events ≤ core.new.events }
{
    collect_all(core, client, waiting)?;
    close_all(core, client)?;
    drop_all(core, client)
}

// Makes the events of a vanishing.
fn vanish_by_events(core: &mut Core, client: ClientId) -> Result<(), VanishFault>
    ensures ok { OnOk result
        (Phase core.old core.new (λ marks events later. HasLeft client events later)) }
    ensures err { IfErr result (λ fault.
        Phase core.old core.new (λ marks events later. IsBegun client fault events)) }
    ensures full { result ≡ Err VanishFault.HistoryFull → core.new.limits.events ≤ core.new.events }
{
    match shut(core, client) {
        Ok(waiting) => match let_go(core, client, waiting) {
            Ok(()) => Ok(()),
            Err(fault) => Err(fault_of(fault)),
        },
        Err(fault) => Err(fault),
    }
}

/// Gives up all that a client has, as if it were lost: its Shut, a Collect for each parcel that
/// waits for it then, a Close of each end that it holds, and a DropHandle of each handle that it has
/// open. Each is an event of the history, made as this client. The client is shut from then on, no
/// parcel waits for it, it holds no end and has no handle open, for good.
///
/// It can be called in any state: also of a client that was shut, and of one that has vanished, which
/// makes one event, a Shut.
///
/// `NoSuchClient` where no client with this number joined: the only event is its Shut, refused.
/// `HistoryFull` where as many events were made as may be, and `NoMemory` where memory is refused:
/// the events before stand, and a further call, once there is room, begins with a Shut and makes
/// the rest. The Shut and the Collects take no memory: where it is refused, they were made. Memory
/// is taken for a list of the kept nodes and one of the held buffers, and may be by what a Close
/// forces.
///
/// Costs the steps of these events, and O(n + h log h) for n kept nodes and h held buffers: no
/// square of anything.
pub fn vanish(core: &mut Core, client: ClientId) -> Result<Vanished, (Vanished, VanishFault)>
    ensures ok { IfOk result (λ parted. Vanishes core.old core.new client parted.events) }
    ensures err { IfErr result (λ e. VanishStops core.old core.new client e.0.events e.1) }
{
    let before = core.events();
    let end = vanish_by_events(core, client);
    let made = core.events() - before;
    let parted = Vanished { events: made };
    match end {
        Ok(()) => Ok(parted),
        Err(fault) => Err((parted, fault)),
    }
}
