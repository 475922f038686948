//! A mark of an event, with the collection before it.
ghost use Rattle.std.specs.Prelude.{◌≡◌, map, IfOk};
ghost use Rattle.forest_store.specs.Snapshots.{collection_of};
ghost use Rattle.forced_marks.specs.Marks.{own_stage};
ghost use Rattle.forced_marks.specs.Moments.{stage_of};

use crate::decision::Forced;
use forest_store::{Change, Snapshot};
use sm_names::Fault;
use std::alloc::{AllocError, Global};

/// A mark of an event, and the collection before it.
#[derive(Drop)]
pub struct Moment {
    pub mark: Forced,
    pub before: Snapshot,
}

/// The moment of the loss that the change itself is, if it is one.
///
/// `AllocError` where memory is refused. Costs a copy of the collection then.
pub fn own_moment(
    alloc: Global,
    change: &Change,
    scene: &Snapshot,
) -> Result<Vec<Moment>, AllocError>
    ensures { IfOk result (λ moments. map stage_of moments.items
        ≡ own_stage change.now (collection_of scene.now)) }
{
    let mut moments = Vec::new(alloc);
    if let Change::Loss(origin, cause) = *change {
        let mark = Forced::Loss(Fault { cause, origin });
        let before = copy_of(scene)?;
        moments.push(Moment { mark, before })?;
    }
    Ok(moments)
}

/// The same collection once more.
pub(crate) fn copy_of(scene: &Snapshot) -> Result<Snapshot, AllocError>
    ensures { IfOk result (λ copied. collection_of copied ≡ collection_of scene.now) }
{
    let nodes = scene.nodes.clone()?;
    let held = scene.held.clone()?;
    Ok(Snapshot {
        id: scene.id,
        nodes,
        buffers: scene.buffers,
        held,
    })
}
