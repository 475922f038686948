//! Pages and sums that are made and taken away. No count changes.
ghost use Rattle.std.specs.Prelude.{◌≡◌, ◌+◌, ◌^◌, ◌<◌, ◌≤◌, true, length, All, None, IfNone, IfOk, IfSome, IsOk, IsSome, OnErr, OnOk};
ghost use Rattle.std.specs.Map.{lookup};
ghost use Rattle.indexmap.specs.IndexMap.{spare};
ghost use Rattle.buffer_holds.specs.Pages.{count_in, same_owner, same_part, IsBlank};
ghost use Rattle.buffer_holds.specs.Rows.{StandsAt};
ghost use Rattle.buffer_holds.specs.Sums.{sum_in, Agrees, IsAlike, PageBecomes, StandsBlank, SumBecomes};

use crate::last::Last;
use crate::names::Owner;
use crate::rows::{Rows, add_row, blank_at, row_place, take_row};
use crate::spares::{Spares, make_spares};
use crate::sums::{Sums, add_sum, enter, leave, sum_place};
use sm_names::CollectionId;
use std::alloc::AllocError;
use std::cell::Cell;

// Where the owner's page and the sum of its part stand.
#[derive(Clone, Copy)]
pub(crate) struct Places {
    pub(crate) row: usize,
    pub(crate) sum: usize,
}

// A blank page for the owner, who has none, where its part has a sum or not. As many places stay free for other
// pages. No page or sum is made unless there is room for all.
#[inline(never)]
fn make_places(
    rows: &mut Rows,
    sums: &mut Sums,
    spares: &mut Spares,
    last: &Last,
    owner: Owner,
    sum: Option<usize>,
    free: u32,
) -> Result<Places, AllocError>
    requires none { lookup (same_owner owner) rows.old.entries ≡ None }
    requires blank { All IsBlank spares.old.pages.items }
    requires stands { IfSome sum (λ place. StandsAt sums.old.entries place owner.part) }
    requires absent { IfNone sum (lookup (same_part owner.part) sums.old.entries ≡ None) }
    requires fits { (sum_in sums.old.entries owner.part).clients + 1 < 2 ^ 64 }
    ensures added { OnOk result (PageBecomes rows.old.entries rows.new.entries owner true (λ at. None)) }
    ensures entered { OnOk result (SumBecomes sums.old.entries sums.new.entries owner.part
        ((sum_in sums.old.entries owner.part).clients + 1)
        (count_in (sum_in sums.old.entries owner.part).totals)
        (count_in (sum_in sums.old.entries owner.part).moving)) }
    ensures row { IfOk result (λ places. StandsAt rows.new.entries places.row owner) }
    ensures sum { IfOk result (λ places. StandsAt sums.new.entries places.sum owner.part) }
    ensures roomy { IsSome sum → free < spare rows.old → free < length spares.old.pages.items → IsOk result }
    ensures free { free ≤ spare rows.old → free ≤ spare rows.new }
    ensures spared { free ≤ length spares.old.pages.items → free ≤ length spares.new.pages.items }
    ensures blank { All IsBlank spares.new.pages.items }
    ensures err_rows { OnErr result (rows.new.entries ≡ rows.old.entries) }
    ensures err_sums { OnErr result (sums.new.entries ≡ sums.old.entries) }
{
    let room = free as usize + 1;
    rows.reserve(room)?;
    let Some(sum) = sum else {
        sums.reserve(1)?;
        make_spares(spares, room + 2)?;
        let sum = add_sum(sums, spares, owner.part, &last.sum);
        let row = add_row(rows, spares, owner, &last.row);
        return Ok(Places { row, sum });
    };
    make_spares(spares, room)?;
    let row = add_row(rows, spares, owner, &last.row);
    enter(sums, owner.part, sum);
    Ok(Places { row, sum })
}

// The place of this owner's page, where the sum of its part stands or not: without one there is no page.
#[inline(always)]
fn row_beside(rows: &Rows, owner: Owner, sum: Option<usize>, last: &Cell<usize>) -> Option<usize>
    requires { IfNone sum (lookup (same_owner owner) rows.now.entries ≡ None) }
    ensures found { IfSome result (λ place. StandsAt rows.now.entries place owner) }
    ensures some { IsSome result → IsSome sum }
    ensures none { IfNone result (lookup (same_owner owner) rows.now.entries ≡ None) }
{
    match sum {
        Some(_) => row_place(rows, owner, last),
        None => None,
    }
}

// Where the owner's page and the sum of its part stand. They are made if there are none; as many places stay
// free for other pages.
#[inline(always)]
pub(crate) fn find_places(
    rows: &mut Rows,
    sums: &mut Sums,
    spares: &mut Spares,
    newest: &mut CollectionId,
    last: &Last,
    owner: Owner,
    free: u32,
) -> Result<Places, AllocError>
    requires agrees { Agrees newest.old rows.old.entries sums.old.entries }
    requires blank { All IsBlank spares.old.pages.items }
    ensures agrees { Agrees newest.new rows.new.entries sums.new.entries }
    ensures alike { IsAlike rows.old.entries rows.new.entries sums.old.entries sums.new.entries }
    ensures row { IfOk result (λ places. StandsAt rows.new.entries places.row owner) }
    ensures sum { IfOk result (λ places. StandsAt sums.new.entries places.sum owner.part) }
    ensures room { IsSome (lookup (same_owner owner) rows.old.entries) → IsOk result }
    ensures roomy { IsSome (lookup (same_part owner.part) sums.old.entries) → free < spare rows.old →
        free < length spares.old.pages.items → IsOk result }
    ensures free { free ≤ spare rows.old → free ≤ spare rows.new }
    ensures spared { free ≤ length spares.old.pages.items → free ≤ length spares.new.pages.items }
    ensures blank { All IsBlank spares.new.pages.items }
    ensures err_rows { OnErr result (rows.new.entries ≡ rows.old.entries) }
    ensures err_sums { OnErr result (sums.new.entries ≡ sums.old.entries) }
{
    let sum = sum_place(sums, *newest, owner.part, &last.sum);
    let Some(row) = row_beside(rows, owner, sum, &last.row) else {
        let _rows = rows.len();
        // A copy of its own, as in `row_place`.
        let made = Owner {
            client: owner.client,
            part: owner.part,
        };
        let places = make_places(rows, sums, spares, last, made, sum, free)?;
        *newest = (*newest).max(owner.part.collection);
        return Ok(places);
    };
    let Some(sum) = sum else {
        unreachable!();
    };
    Ok(Places { row, sum })
}

// The page at this place, which is the owner's, has become blank. It stays for the owner's next row, until another
// one becomes blank: the one that did so before it is taken away.
#[inline(never)]
pub(crate) fn keep_blank(
    rows: &mut Rows,
    sums: &mut Sums,
    spares: &mut Spares,
    newest: CollectionId,
    last: &Last,
    blank: &mut usize,
    place: usize,
)
    requires agrees { Agrees newest rows.old.entries sums.old.entries }
    requires blank { All IsBlank spares.old.pages.items }
    ensures agrees { Agrees newest rows.new.entries sums.new.entries }
    ensures alike { IsAlike rows.old.entries rows.new.entries sums.old.entries sums.new.entries }
    ensures gone { (owner : Owner) → StandsBlank rows.old.entries blank.old owner →
        lookup (same_owner owner) rows.new.entries ≡ None }
    ensures room { spare rows.old ≤ spare rows.new }
    ensures more { length spares.old.pages.items ≤ length spares.new.pages.items }
    ensures blank { All IsBlank spares.new.pages.items }
{
    let before = *blank;
    *blank = place;
    let Some(owner) = blank_at(rows, before) else {
        return;
    };
    take_row(rows, spares, owner, before);
    if place == rows.len() {
        *blank = before;
    }
    leave(sums, spares, newest, owner.part, &last.sum);
}
