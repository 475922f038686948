//! Shares of the three books.
ghost use Rattle.std.specs.Prelude.{◌≡◌};
ghost use Rattle.service_lock.specs.Units.{HasOne, Passed};

use crate::setup::Setup;
use crate::state::State;
use sm_names::Strength;
use std::marker::Model;
use std::sync::ledger::{Ledger, Share};

/// A share of each book, with the amounts that its owner counts. A contract sees these amounts.
///
/// The amounts of all shares, those that the state carries included, add up to the sums of the books. So
/// no share can count an event or a handle that does not exist.
#[derive(Drop)]
pub struct Units<E: Ledger, S: Ledger, W: Ledger> {
    pub(crate) events: Share<E>,
    pub(crate) strong: Share<S>,
    pub(crate) weak: Share<W>,
}

impl<E: Ledger, S: Ledger, W: Ledger> Model for Units<E, S, W> {
    ghost use Rattle.std.specs.Prelude.{◌≡◌};
    ghost use Rattle.service_lock.specs.Units.{Amounts};

    ghost Value = { Amounts };

    ghost view = { λ u. record {
      events = u.events.amount;
      strong = u.strong.amount;
      weak = u.weak.amount;
    } };

    ghost invariant = { λ u.
        (u.events.parts ≡ 1) × (u.strong.parts ≡ 1) × (u.weak.parts ≡ 1) };
}

/// Moves the count of one handle of this strength from `from` to `to`, under the lock. It takes no
/// memory, and does nothing at run time.
pub fn pass<E: Setup, S: Ledger, W: Ledger>(
    _state: &mut State<E, S, W>,
    from: &mut Units<E, S, W>,
    to: &mut Units<E, S, W>,
    strength: Strength,
)
    requires { HasOne strength from.old }
    ensures passed { Passed strength from.old from.new to.old to.new }
    ensures state { _state.new ≡ _state.old }
{
    match strength {
        Strength::Strong => from.strong.transfer(&mut to.strong, 1),
        Strength::Weak => from.weak.transfer(&mut to.weak, 1),
    }
}
