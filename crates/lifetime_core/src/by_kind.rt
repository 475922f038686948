//! One function, compiled once for each kind of call. There the compiler knows the call, and leaves out each
//! test of it, and what only other calls need. For this, each function on the way that reads the call by
//! reference is marked `inline(always)`. The toolchain silently drops such a mark from a function of more
//! than some 7,800 lines of LLVM's language, with what is marked within it (`bench/inlined.py`). To decide a
//! call and to make it are therefore methods of the core, which meet only here. A call that is answered
//! before its effect leaves first. The node that a call names is looked up once.
ghost use Rattle.std.specs.Prelude.{◌≡◌, OnErr};
ghost use Rattle.std.specs.Result.{result_map_both};
ghost use Rattle.sm_names.specs.declared.messages.Call.{Call as Made};
ghost use Rattle.core_state.specs.Theorem.{Stepped};

use crate::machine::Core;
use core_state::reading::with_end;
use core_state::traits::key_of;
use sm_names::{Call, ClientId, Reply, StepFault};

/// Makes the call, as `Core::step_into` says. The closure answers this call too. Each closure has a type of
/// its own, so this function is compiled once for each. `made` itself is read only out of the way: no call is
/// put into memory here.
#[inline(never)]
fn step_kind<F: FnOnce() -> Call>(
    core: &mut Core,
    client: ClientId,
    made: &Call,
    known: F,
    out: &mut Reply,
) -> Result<(), StepFault>
    requires may { F.pre known }
    requires same { (call : Made) → F.post known call → call ≡ made.now }
    ensures stepped { Stepped core.old core.new client made.now
        (result_map_both (λ _. out.new) (λ fault. fault) result) }
    ensures kept { OnErr result (out.new ≡ out.old) }
{
    let call = known();
    let named = key_of(&call);
    let node = core.named(named);
    let unspent = with_end(node);
    if core.early_answer(client, &call, unspent).is_some() {
        return core.commit_early(client, made, out);
    }
    let decision = core.decide_effect(client, &call, named, node, unspent);
    core.commit(client, &call, decision, out)
}

/// Makes one call, as `Core::step_into` says: the one place that asks what kind of call it is.
#[inline(always)]
pub(crate) fn dispatch(
    core: &mut Core,
    client: ClientId,
    call: &Call,
    out: &mut Reply,
) -> Result<(), StepFault>
    ensures stepped { Stepped core.old core.new client call.now
        (result_map_both (λ _. out.new) (λ fault. fault) result) }
    ensures kept { OnErr result (out.new ≡ out.old) }
{
    match *call {
        Call::Join => step_kind(core, client, call, || Call::Join, out),
        Call::Shut => step_kind(core, client, call, || Call::Shut, out),
        Call::OpenRoot => step_kind(core, client, call, || Call::OpenRoot, out),
        Call::Duplicate(key) => step_kind(core, client, call, move || Call::Duplicate(key), out),
        Call::AttachToken(key) => step_kind(
            core,
            client,
            call,
            move || Call::AttachToken(key),
            out,
        ),
        Call::Sync(key) => step_kind(core, client, call, move || Call::Sync(key), out),
        Call::Give(key, to) => step_kind(core, client, call, move || Call::Give(key, to), out),
        Call::Collect => step_kind(core, client, call, || Call::Collect, out),
        Call::Bind(key) => step_kind(core, client, call, move || Call::Bind(key), out),
        Call::SetDispensable(key) => step_kind(
            core,
            client,
            call,
            move || Call::SetDispensable(key),
            out,
        ),
        Call::SetWeak(key) => step_kind(core, client, call, move || Call::SetWeak(key), out),
        Call::SetWeakOk(key, children) => {
            step_kind(
                core,
                client,
                call,
                move || Call::SetWeakOk(key, children),
                out,
            )
        }
        Call::SetConstraints(key, constraints) => {
            step_kind(
                core,
                client,
                call,
                move || Call::SetConstraints(key, constraints),
                out,
            )
        }
        Call::Check(key) => step_kind(core, client, call, move || Call::Check(key), out),
        Call::Take(key) => step_kind(core, client, call, move || Call::Take(key), out),
        Call::Release(key) => step_kind(core, client, call, move || Call::Release(key), out),
        Call::Close(key) => step_kind(core, client, call, move || Call::Close(key), out),
        Call::DupHandle(buffer, strength) => {
            step_kind(
                core,
                client,
                call,
                move || Call::DupHandle(buffer, strength),
                out,
            )
        }
        Call::DropHandle(buffer, strength) => {
            step_kind(
                core,
                client,
                call,
                move || Call::DropHandle(buffer, strength),
                out,
            )
        }
        Call::GiveHandle(buffer, strength, to) => {
            step_kind(
                core,
                client,
                call,
                move || Call::GiveHandle(buffer, strength, to),
                out,
            )
        }
        Call::TrackNode(key) => step_kind(core, client, call, move || Call::TrackNode(key), out),
        Call::TrackLifetime(key, most) => {
            step_kind(
                core,
                client,
                call,
                move || Call::TrackLifetime(key, most),
                out,
            )
        }
        Call::TrackWeak(buffer) => step_kind(
            core,
            client,
            call,
            move || Call::TrackWeak(buffer),
            out,
        ),
    }
}
