//! The collections that the entries opened.
ghost use Rattle.std.specs.Prelude.{◌≡◌, ℕ, IfOk};
ghost use Rattle.std.specs.List.{filter_map};
ghost use Rattle.sm_names.specs.Marks.{Entry};
ghost use Rattle.sm_names.specs.Timelines.{opened_by, timeline};
ghost use Rattle.core_likeness.specs.Told.{roots};

use sm_names::{Call, ClientId, CollectionId, Reply};
use std::alloc::{AllocError, Global};

// The collection that the entry opened.
fn opened_in(entry: (ClientId, Call, Reply)) -> Option<CollectionId>
    ensures { result ≡ opened_by entry.1 entry.2 }
{
    let (_, call, reply) = entry;
    match call {
        Call::OpenRoot => match reply {
            Reply::Token { collection, .. } => Some(collection),
            _ => None,
        },
        _ => None,
    }
}

/// The collections that were opened, the earliest first. Costs O(n) for n entries.
///
/// `AllocError` if the list is refused.
pub fn roots_in(
    alloc: Global,
    entries: &[(ClientId, Call, Reply)],
) -> Result<Vec<CollectionId>, AllocError>
    ensures { IfOk result (λ ids. (pool : ℕ) → ids.items ≡ roots (timeline pool entries.now)) }
{
    let ids = collect_roots(alloc, entries)?;
    Ok(ids)
}

// The same, entry by entry.
fn collect_roots(
    alloc: Global,
    entries: &[(ClientId, Call, Reply)],
) -> Result<Vec<CollectionId>, AllocError>
    ensures { IfOk result (λ ids. ids.items
        ≡ filter_map (λ (e : Entry). opened_by e.1 e.2) entries.now) }
{
    let mut ids = Vec::new(alloc);
    for entry in entries {
        if let Some(id) = opened_in(*entry) {
            ids.push(id)?;
        }
    }
    Ok(ids)
}
