//! Effects that force nothing, as what is counted then tells: they are made at once.
ghost use Rattle.std.specs.Prelude.{◌≡◌, true};
ghost use Rattle.buffer_holds.specs.Counts.{total};
ghost use Rattle.forest_store.specs.declared.change.Change.{Change as Changed};
ghost use Rattle.forest_store.specs.Forest.{IsPoolOf};
ghost use Rattle.forest_store.specs.Scenes.{given_few};
ghost use Rattle.forest_store.specs.Stores.{forest_in};
ghost use Rattle.forest_steps.specs.NodeEffects.{IsUnforcedAt, IsWorkedOutAt, is_unforced};
ghost use Rattle.forest_steps.specs.StoreSteps.{OutcomeAt, ReadyAt};

use crate::at_rest::is_kept_by;
use crate::node_effect::{NodeEffect, make_effect};
use crate::placement::assert_disjoint;
use buffer_holds::Holds;
use buffer_pool::Pool;
use forest_store::entry::Entry;
use forest_store::node::Node;
use forest_store::store::Store;
use forest_store::unit_counts::is_held_by;
use node_table::NodeTable;

/// Whether nothing is forced by the effect: something holds the node's unit, which does not get its
/// buffers next, and a strong node of the collection is live, or it rests without one. Costs O(1),
/// and a look at the handles of each buffer where no strong node is live then.
#[inline(always)]
pub fn is_unforced(table: &NodeTable<Node>, entry: &Entry, holds: &Holds, made: &NodeEffect) -> bool
    requires { given_few entry.now.buffers ≡ true }
    ensures { result ≡ is_unforced (total holds.now) table.now entry.now made.now }
{
    let strong = match &made.counts {
        Some(counts) => {
            if counts.due || !is_held_by(&counts.unit) {
                return false;
            }
            counts.strong
        }
        None => entry.strong,
    };
    is_kept_by(table, entry, holds, strong)
}

/// Makes an effect that forces nothing on a node of the collection at this place. Costs O(1),
/// and takes no memory.
#[inline(always)]
pub fn apply_unforced(store: &mut Store, at: usize, pool: &Pool, holds: &Holds, made: &NodeEffect)
    requires ready { ReadyAt store.old at (Changed.Effect made.now.key made.now.effect) }
    requires worked { IsWorkedOutAt store.old at made.now }
    requires unforced { IsUnforcedAt (total holds.now) store.old at made.now }
    requires pool { IsPoolOf pool.now (forest_in store.old) }
    ensures { OutcomeAt true (total holds.now) pool.now pool.now store.old store.new at
        (Changed.Effect made.now.key made.now.effect) }
{
    assert_disjoint(pool);
    make_effect(&mut store.nodes, store.entries[at].get_mut(), made);
}
