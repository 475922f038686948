//! The forced steps of one collection, until none applies.
ghost use Rattle.std.specs.Prelude.{◌≡◌, ◌≤◌, ◌++◌, IfOk, map, length};
ghost use Rattle.buffer_holds.specs.Counts.{total};
ghost use Rattle.sm_names.specs.declared.keys.HeldBuffer.{HeldBuffer as Held};
ghost use Rattle.forest_store.specs.Decisions.{IsPlacing, IsStep, Places, mark_of};
ghost use Rattle.forest_store.specs.Forest.{pages_in};
ghost use Rattle.forest_store.specs.Scenes.{IsSound, laid};
ghost use Rattle.forest_store.specs.Settling.{made};
ghost use Rattle.forest_store.specs.Snapshots.{collection_of};
ghost use Rattle.forced_marks.specs.Steps.{mark_told, told, IsSized};
ghost use Rattle.forced_marks.specs.Marks.{SettlesInStages};
ghost use Rattle.forced_marks.specs.Moments.{stage_of};

use crate::allocation::allocate;
use crate::decision::{Forced, PendingStep};
use crate::losses::lose;
use crate::moment::{Moment, copy_of};
use crate::next_step::decide;
use crate::placement::{pages_of, place};
use crate::subtree_end::end_subtree;
use buffer_holds::Holds;
use forest_store::Snapshot;
use sm_names::{
    BufferName, Buffers, Cause, CollectionId, Failure, Fault, HeldBuffer, Interval, MAX_BUFFERS,
    MAX_SIZE, NodeKey,
};
use std::alloc::{AllocError, Global};

/// Makes the forced steps of the collection, one after another, until none applies, and adds their
/// moments to the others in this order. The pool has this many pages, of which these others are held
/// too; `holds` says which handles are open.
///
/// `AllocError` where memory is refused; the steps so far are then made. A collection makes at most
/// two steps a node. Each copies the collection, and costs O(n log n) for its n nodes; a root unit that is
/// allocated costs a walk over the pool besides.
pub fn settle(
    scene: &mut Snapshot,
    holds: &Holds,
    pool: u32,
    others: &[Interval],
    moments: Vec<Moment>,
) -> Result<Vec<Moment>, AllocError>
    requires { IsSound (collection_of scene.old) }
    ensures { IfOk result (λ all. SettlesInStages pool (total holds.now) others.now
        (collection_of scene.old) (collection_of scene.new)
        (map stage_of moments.items) (map stage_of all.items)) }
{
    let mut all = moments;
    'steps: loop {
        let decided = decide(scene, holds)?;
        let Some(step) = decided else {
            return Ok(all);
        };
        let before = copy_of(scene)?;
        let mark = apply_step(scene, pool, others, step)?;
        all.push(Moment { mark, before })?;
    }
}

/// Makes the step.
fn apply_step(
    scene: &mut Snapshot,
    pool: u32,
    others: &[Interval],
    step: PendingStep,
) -> Result<Forced, AllocError>
    requires step { IsStep (collection_of scene.old) (told step) }
    requires sized { IsSized step }
    ensures mark { IfOk result (λ mark. mark_told mark
        ≡ mark_of pool (pages_in (collection_of scene.old) ++ others.now) (told step)) }
    ensures made { IfOk result (λ mark. collection_of scene.new
        ≡ made pool others.now (mark_told mark) (collection_of scene.old)) }
{
    let alloc = *scene.nodes.allocator();
    match step {
        PendingStep::Ends(top) => {
            end_subtree(alloc, &mut scene.nodes, top)?;
            Ok(Forced::Ended(top))
        }
        PendingStep::Loses(origin, cause) => {
            let fault = Fault { cause, origin };
            lose(alloc, &mut scene.nodes, fault)?;
            Ok(Forced::Loss(fault))
        }
        PendingStep::Places(head, wants) => allocate_root(scene, pool, others, head, wants),
        PendingStep::Allocates(head) => {
            allocate(&mut scene.nodes, head);
            Ok(Forced::Allocated(head))
        }
    }
}

/// The pages of these buffers, and the others behind them.
fn all_pages(
    held: &[HeldBuffer],
    others: &[Interval],
    alloc: Global,
) -> Result<Vec<Interval>, AllocError>
    ensures { IfOk result (λ all. all.items ≡ map (λ (h : Held). h.pages) held.now ++ others.now) }
{
    let mut all = Vec::new(alloc);
    for buffer in held {
        all.push(buffer.pages)?;
    }
    all.extend_from_slice(others)?;
    Ok(all)
}

/// Places the buffers that the root unit wants, and allocates the unit. Where the pool is full the
/// root fails instead.
fn allocate_root(
    scene: &mut Snapshot,
    pool: u32,
    others: &[Interval],
    head: NodeKey,
    wants: Buffers,
) -> Result<Forced, AllocError>
    requires step { IsPlacing (collection_of scene.old) head wants }
    requires sized { (1 ≤ wants.size) × (wants.size ≤ MAX_SIZE) }
    ensures mark { IfOk result (λ mark. mark_told mark
        ≡ mark_of pool (pages_in (collection_of scene.old) ++ others.now) (Places head wants)) }
    ensures made { IfOk result (λ mark. collection_of scene.new
        ≡ made pool others.now (mark_told mark) (collection_of scene.old)) }
{
    let alloc = *scene.nodes.allocator();
    let pages = pages_of(wants.size);
    let held = all_pages(&scene.held, others, alloc)?;
    let Some(starts) = place(alloc, pool, pages, wants.count, held)? else {
        let fault = Fault {
            cause: Cause::Failed(Failure::PoolFull),
            origin: head,
        };
        lose(alloc, &mut scene.nodes, fault)?;
        return Ok(Forced::Loss(fault));
    };
    scene.held = insert_held(alloc, scene.id, pages, &starts, &scene.held)?;
    scene.buffers = Some(wants);
    allocate(&mut scene.nodes, head);
    Ok(Forced::Allocated(head))
}

/// The collection's buffers at these starts, one after another, and then the others.
fn insert_held(
    alloc: Global,
    collection: CollectionId,
    pages: u32,
    starts: &[u32],
    others: &[HeldBuffer],
) -> Result<Vec<HeldBuffer>, AllocError>
    requires { length starts.now ≤ MAX_BUFFERS }
    ensures { IfOk result (λ held. held.items ≡ laid collection pages 0 starts.now ++ others.now) }
{
    let mut held = Vec::new(alloc);
    let mut index = 0;
    for start in starts {
        held.push(HeldBuffer {
            buffer: BufferName { collection, index },
            pages: Interval {
                start: *start,
                pages,
            },
        })?;
        index += 1;
    }
    held.extend_from_slice(others)?;
    Ok(held)
}
