//! The sums of parts over all clients.
ghost use Rattle.std.specs.Prelude.{ℕ, ◌≡◌, ◌==◌, ◌+◌, ◌-◌, ◌^◌, ◌<◌, ◌≤◌, ◌↔◌, true, if◌then◌else◌, length, All, Some, None, IfSome, IfNone, IsSome, IsTrue};
ghost use Rattle.std.specs.List.{IsDistinct};
ghost use Rattle.std.specs.Map.{keys_of, lookup};
ghost use Rattle.indexmap.specs.IndexMap.{spare};
ghost use Rattle.buffer_holds.specs.Pages.{count_in, is_in, same_part, IsBlank, IsIn};
ghost use Rattle.buffer_holds.specs.Rows.{StandsAt};
ghost use Rattle.buffer_holds.specs.Sums.{sum_in, IsNewest, StandsLast, SumBecomes};

use crate::hashing::CountHash;
use crate::names::Part;
use crate::page::Page;
use crate::spares::{Spares, keep_spare, take_spare};
use indexmap::IndexMap;
use sm_names::CollectionId;
use std::cell::Cell;

// What is known of a part without asking each client.
#[derive(Drop)]
pub(crate) struct Sum {
    // How many clients have a page.
    pub(crate) clients: usize,
    // How many handles are open, those in parcels among them. A cell of 0 is empty.
    pub(crate) totals: Page,
    // How many of these lie in parcels. A cell of 0 is empty.
    pub(crate) moving: Page,
}

// The sums of all parts.
pub(crate) type Sums = IndexMap<Part, Sum, CountHash>;

// The place of this part's sum, by its hash. It is noted as the last one.
#[inline(never)]
fn find_sum(sums: &Sums, part: Part, last: &Cell<usize>) -> Option<usize>
    ensures found { IfSome result (λ place. StandsAt sums.now.entries place part) }
    ensures none { IfNone result (lookup (same_part part) sums.now.entries ≡ None) }
{
    match sums.get_full(&part) {
        Some((place, _, _)) => {
            last.set(place);
            Some(place)
        }
        None => None,
    }
}

// Whether the sum at this place is that of the part.
#[inline(always)]
fn is_sum_at(sums: &Sums, part: Part, place: usize) -> bool
    ensures { result ≡ true → StandsAt sums.now.entries place part }
{
    match sums.get_index(place) {
        Some((key, _)) => *key == part,
        None => false,
    }
}

// The place of this part's sum: the last one that was found, and else by its hash.
#[inline(always)]
pub(crate) fn sum_place(
    sums: &Sums,
    newest: CollectionId,
    part: Part,
    last: &Cell<usize>,
) -> Option<usize>
    requires { IsNewest newest sums.now.entries }
    ensures found { IfSome result (λ place. StandsAt sums.now.entries place part) }
    ensures none { IfNone result (lookup (same_part part) sums.now.entries ≡ None) }
{
    let place = last.get();
    if is_sum_at(sums, part, place) {
        return Some(place);
    }
    if newest < part.collection {
        return None;
    }
    find_sum(sums, part, last)
}

// How many handles of this cell are open.
#[inline(always)]
pub(crate) fn total_of(
    sums: &Sums,
    newest: CollectionId,
    part: Part,
    slot: usize,
    last: &Cell<usize>,
) -> u32
    requires newest { IsNewest newest sums.now.entries }
    requires within { slot < 128 }
    ensures { result ≡ count_in (sum_in sums.now.entries part).totals slot }
{
    match sum_place(sums, newest, part, last) {
        Some(place) => sums.get_index(place).unwrap().1.totals.get(slot),
        None => 0,
    }
}

// How many of them lie in parcels.
pub(crate) fn moving_of(
    sums: &Sums,
    newest: CollectionId,
    part: Part,
    slot: usize,
    last: &Cell<usize>,
) -> u32
    requires newest { IsNewest newest sums.now.entries }
    requires within { slot < 128 }
    ensures { result ≡ count_in (sum_in sums.now.entries part).moving slot }
{
    match sum_place(sums, newest, part, last) {
        Some(place) => sums.get_index(place).unwrap().1.moving.get(slot),
        None => 0,
    }
}

// The sum of one client for this part, which has none, in the room that was made for it: nothing is open. The answer
// is its place.
pub(crate) fn add_sum(sums: &mut Sums, spares: &mut Spares, part: Part, last: &Cell<usize>) -> usize
    requires none { lookup (same_part part) sums.old.entries ≡ None }
    requires room { 0 < spare sums.old }
    requires spared { 1 < length spares.old.pages.items }
    requires blank { All IsBlank spares.old.pages.items }
    ensures added { SumBecomes sums.old.entries sums.new.entries part 1 (λ at. 0) (λ at. 0) }
    ensures stands { StandsAt sums.new.entries result part }
    ensures spares { length spares.old.pages.items ≡ length spares.new.pages.items + 2 }
    ensures blank { All IsBlank spares.new.pages.items }
{
    let totals = take_spare(spares);
    let moving = take_spare(spares);
    let place = sums.len();
    last.set(place);
    let sum = Sum {
        clients: 1,
        totals,
        moving,
    };
    let _ = sums.insert(part, sum);
    place
}

// One client more has a page.
pub(crate) fn enter(sums: &mut Sums, part: Part, place: usize)
    requires stands { StandsAt sums.old.entries place part }
    requires fits { (sum_in sums.old.entries part).clients + 1 < 2 ^ 64 }
    ensures entered { SumBecomes sums.old.entries sums.new.entries part
        ((sum_in sums.old.entries part).clients + 1)
        (count_in (sum_in sums.old.entries part).totals)
        (count_in (sum_in sums.old.entries part).moving) }
    ensures stands { StandsAt sums.new.entries place part }
{
    let sum = sums.get_index_mut(place).unwrap();
    sum.clients += 1;
}

// Whether the sum at this place, which is the part's, is that of one client of whom nothing is open.
fn is_last(sums: &Sums, part: Part, place: usize) -> bool
    requires { StandsAt sums.now.entries place part }
    ensures { IsTrue result ↔ StandsLast sums.now.entries place part }
{
    let sum = sums.get_index(place).unwrap().1;
    if sum.clients != 1 {
        return false;
    }
    if !sum.totals.is_blank() {
        return false;
    }
    sum.moving.is_blank()
}

// Takes the sum at this place away, which is that of one client of whom nothing is open. Its pages are kept.
fn take_sum(sums: &mut Sums, spares: &mut Spares, part: Part, place: usize)
    requires stands { StandsLast sums.old.entries place part }
    requires distinct { IsDistinct same_part (keys_of sums.old.entries) }
    requires blank { All IsBlank spares.old.pages.items }
    ensures taken { SumBecomes sums.old.entries sums.new.entries part 0 (λ at. 0) (λ at. 0) }
    ensures gone { lookup (same_part part) sums.new.entries ≡ None }
    ensures blank { All IsBlank spares.new.pages.items }
    ensures more { length spares.old.pages.items ≤ length spares.new.pages.items }
{
    if let Some((_, sum)) = sums.swap_remove_index(place) {
        keep_spare(spares, sum.totals);
        keep_spare(spares, sum.moving);
    }
}

// One client less has a page. A sum that says nothing is taken away.
pub(crate) fn leave(
    sums: &mut Sums,
    spares: &mut Spares,
    newest: CollectionId,
    part: Part,
    last: &Cell<usize>,
)
    requires some { 0 < (sum_in sums.old.entries part).clients }
    requires newest { IsNewest newest sums.old.entries }
    requires distinct { IsDistinct same_part (keys_of sums.old.entries) }
    requires blank { All IsBlank spares.old.pages.items }
    ensures left { SumBecomes sums.old.entries sums.new.entries part
        ((sum_in sums.old.entries part).clients - 1)
        (count_in (sum_in sums.old.entries part).totals)
        (count_in (sum_in sums.old.entries part).moving) }
    ensures gone { (sum_in sums.old.entries part).clients ≡ 1 → IsBlank (sum_in sums.old.entries part).totals →
        IsBlank (sum_in sums.old.entries part).moving → lookup (same_part part) sums.new.entries ≡ None }
    ensures blank { All IsBlank spares.new.pages.items }
    ensures more { length spares.old.pages.items ≤ length spares.new.pages.items }
{
    let Some(place) = sum_place(sums, newest, part, last) else {
        unreachable!();
    };
    if is_last(sums, part, place) {
        take_sum(sums, spares, part, place);
        return;
    }
    let sum = sums.get_index_mut(place).unwrap();
    sum.clients -= 1;
}

// One handle more is open of each cell of a set. The answer is the greatest of their counts.
#[inline(always)]
pub(crate) fn open(sums: &mut Sums, part: Part, place: usize, first: usize, set: u64) -> u32
    requires stands { StandsAt sums.old.entries place part }
    requires near { first < 128 }
    requires there { (at : ℕ) → IsIn first set at → at < 128 }
    requires fits { (at : ℕ) → IsIn first set at →
        count_in (sum_in sums.old.entries part).totals at + 1 < 2 ^ 32 }
    ensures opened { SumBecomes sums.old.entries sums.new.entries part
        (sum_in sums.old.entries part).clients
        (λ at. count_in (sum_in sums.old.entries part).totals at + (if is_in first set at then 1 else 0))
        (count_in (sum_in sums.old.entries part).moving) }
    ensures most { (at : ℕ) → IsIn first set at →
        count_in (sum_in sums.old.entries part).totals at + 1 ≤ result }
    ensures least { (most : ℕ) → ((at : ℕ) → IsIn first set at →
        count_in (sum_in sums.old.entries part).totals at + 1 ≤ most) → result ≤ most }
{
    let sum = sums.get_index_mut(place).unwrap();
    sum.totals.raise(first, set)
}

// One handle of this cell is closed.
#[inline(always)]
pub(crate) fn close(sums: &mut Sums, part: Part, place: usize, slot: usize)
    requires stands { StandsAt sums.old.entries place part }
    requires within { slot < 128 }
    requires some { 0 < count_in (sum_in sums.old.entries part).totals slot }
    ensures { SumBecomes sums.old.entries sums.new.entries part
        (sum_in sums.old.entries part).clients
        (λ at. if slot == at then count_in (sum_in sums.old.entries part).totals slot - 1
        else count_in (sum_in sums.old.entries part).totals at)
        (count_in (sum_in sums.old.entries part).moving) }
{
    let sum = sums.get_index_mut(place).unwrap();
    sum.totals.take(slot);
}

// One handle of this cell goes into a parcel.
#[inline(always)]
pub(crate) fn lift(sums: &mut Sums, part: Part, place: usize, slot: usize)
    requires stands { StandsAt sums.old.entries place part }
    requires within { slot < 128 }
    requires fits { count_in (sum_in sums.old.entries part).moving slot + 1 < 2 ^ 32 }
    ensures { SumBecomes sums.old.entries sums.new.entries part
        (sum_in sums.old.entries part).clients
        (count_in (sum_in sums.old.entries part).totals)
        (λ at. if slot == at then count_in (sum_in sums.old.entries part).moving slot + 1
        else count_in (sum_in sums.old.entries part).moving at) }
{
    let sum = sums.get_index_mut(place).unwrap();
    sum.moving.raise(slot, 1);
}

// One handle of this cell leaves its parcel.
#[inline(always)]
pub(crate) fn land(sums: &mut Sums, part: Part, place: usize, slot: usize)
    requires stands { StandsAt sums.old.entries place part }
    requires within { slot < 128 }
    requires some { 0 < count_in (sum_in sums.old.entries part).moving slot }
    ensures { SumBecomes sums.old.entries sums.new.entries part
        (sum_in sums.old.entries part).clients
        (count_in (sum_in sums.old.entries part).totals)
        (λ at. if slot == at then count_in (sum_in sums.old.entries part).moving slot - 1
        else count_in (sum_in sums.old.entries part).moving at) }
{
    let sum = sums.get_index_mut(place).unwrap();
    sum.moving.take(slot);
}
