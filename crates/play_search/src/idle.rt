//! Calls for which nothing is there.
ghost use Rattle.std.specs.Prelude.{◌≡◌};
ghost use Rattle.core_state.specs.Reads.{readings_of};
ghost use Rattle.forest_store.specs.Settling.{no_key};
ghost use Rattle.sm_names.specs.Answers.{answer};
ghost use Rattle.actor_plays.specs.Plays.{is_wait};

use lifetime_core::Core;
use sm_names::{Call, ClientId, Reply};

// Whether the call of the client is answered Empty or Pending, if it is made now.
pub(crate) fn is_idle(core: &Core, client: ClientId, call: &Call) -> bool
    ensures { result ≡ is_wait (answer core.now.limits (readings_of core.now) client no_key call.now) }
{
    matches!(core.answer(client, call), Reply::Empty | Reply::Pending)
}
