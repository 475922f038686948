//! Whether a record is just that of its actors.
ghost use Rattle.std.specs.Prelude.{◌≡◌};
ghost use Rattle.thread_runs.specs.Company.{first_unfit as first_unfit_in, is_fit as is_fit_there, joins_as as joins_told};

use sm_names::{Call, ClientId, Reply};

// Whether the event is the join of the client of this number.
fn joins_as(number: u64, client: ClientId, call: Call, reply: Reply) -> bool
    ensures { result ≡ joins_told number client call reply }
{
    match call {
        Call::Join => match reply {
            Reply::Joined(id) => client == 0 && id == number,
            _ => false,
        },
        _ => false,
    }
}

// Whether an event behind so many is what a record of so many actors has there: the join of the next
// one, or what an actor made.
fn is_fit(count: usize, at: usize, entry: &(ClientId, Call, Reply)) -> bool
    ensures { result ≡ is_fit_there count at entry.now }
{
    let (client, call, reply) = *entry;
    if at < count {
        joins_as(at as u64 + 1, client, call, reply)
    } else {
        1 <= client && client <= count as u64
    }
}

// The number of the first event that is not, or of the first join that is missing. No contract says what
// the record was when an actor joined: so it is looked at.
pub(crate) fn first_unfit(count: usize, entries: &[(ClientId, Call, Reply)]) -> Option<u64>
    ensures { result ≡ first_unfit_in count 0 entries.now }
{
    let all = entries.len();
    let mut rest = entries;
    let mut at: usize = 0;
    'looking: while let Some((entry, later)) = rest.split_first() {
        prove!(at < all);
        if !is_fit(count, at, entry) {
            return Some(at as u64 + 1);
        }
        at += 1;
        rest = later;
    }
    if at < count {
        Some(at as u64 + 1)
    } else {
        None
    }
}
