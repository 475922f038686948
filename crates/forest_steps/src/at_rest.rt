//! Whether a collection rests where none of its strong nodes is live.
ghost use Rattle.std.specs.Prelude.{◌≡◌, nat_lt, true};
ghost use Rattle.sm_names.specs.declared.keys.Strength.{Strength as Grade};
ghost use Rattle.buffer_holds.specs.Counts.{total};
ghost use Rattle.forest_store.specs.CollectionRows.{row_of};
ghost use Rattle.forest_store.specs.Resting.{is_at_rest, is_kept_by};
ghost use Rattle.forest_store.specs.Scenes.{given_few, is_held_strongly};

use crate::dropped::is_abandoned;
use crate::home_buffers::no_buffer_home;
use buffer_holds::Holds;
use forest_store::entry::Entry;
use forest_store::node::Node;
use node_table::NodeTable;
use sm_names::{BufferName, Strength};

/// Whether a strong handle is open on this buffer, and the collection was given it: then its buffers
/// are not abandoned.
fn is_given_open(entry: &Entry, buffer: BufferName, holds: &Holds) -> bool
    ensures open { result ≡ true → nat_lt 0 (total holds.now buffer Grade.Strong) ≡ true }
    ensures held { result ≡ true →
        is_held_strongly (total holds.now) entry.now.id entry.now.buffers ≡ true }
{
    let Some(given) = entry.buffers else {
        return false;
    };
    if buffer.collection != entry.id {
        return false;
    }
    if buffer.index as u32 >= given.count {
        return false;
    }
    holds.total(buffer, Strength::Strong) > 0
}

/// Whether the buffers of the collection are not abandoned and none of those that it holds is home,
/// where none of its strong nodes is live: then nothing is forced for the want of one. It looks at
/// the handles of its buffers, of which there are at most `MAX_BUFFERS`: once, where a strong handle is open on
/// the first that it holds.
#[inline(never)]
fn is_at_rest(table: &NodeTable<Node>, entry: &Entry, holds: &Holds) -> bool
    requires { given_few entry.now.buffers ≡ true }
    ensures { result ≡ is_at_rest (total holds.now) table.now (row_of entry.now) }
{
    if let Some((first, others)) = entry.held.split_first() {
        if is_given_open(entry, first.buffer, holds) {
            return no_buffer_home(others, holds, false);
        }
    }
    !is_abandoned(table, entry, holds) && no_buffer_home(&entry.held, holds, false)
}

/// Whether this many strong live nodes keep the collection, or it rests without one. It looks at the
/// handles only where there is none.
#[inline(always)]
pub(crate) fn is_kept_by(
    table: &NodeTable<Node>,
    entry: &Entry,
    holds: &Holds,
    lives: usize,
) -> bool
    requires { given_few entry.now.buffers ≡ true }
    ensures { result ≡ is_kept_by (total holds.now) table.now (row_of entry.now) lives }
{
    lives > 0 || is_at_rest(table, entry, holds)
}
