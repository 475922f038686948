//! The rows of counts: a page for each client and part.
ghost use Rattle.std.specs.Prelude.{ℕ, ◌≡◌, ◌==◌, ◌+◌, ◌-◌, ◌^◌, ◌<◌, ◌≤◌, ◌↔◌, true, false, if◌then◌else◌, is_some, length, All, Some, None, IfSome, IfNone, IsTrue};
ghost use Rattle.std.specs.Bool.{OnTrue, OnFalse};
ghost use Rattle.std.specs.List.{IsDistinct};
ghost use Rattle.std.specs.Map.{keys_of, lookup};
ghost use Rattle.indexmap.specs.IndexMap.{spare};
ghost use Rattle.buffer_holds.specs.Pages.{cell_at, count_in, raised, same_owner, tidied, IsBlank, IsIn};
ghost use Rattle.buffer_holds.specs.Rows.{StandsAt};
ghost use Rattle.buffer_holds.specs.Sums.{page_in, PageBecomes, StandsBlank};

use crate::hashing::CountHash;
use crate::names::Owner;
use crate::page::Page;
use crate::spares::{Spares, keep_spare, take_spare};
use indexmap::IndexMap;
use std::cell::Cell;

// The pages of all clients.
pub(crate) type Rows = IndexMap<Owner, Page, CountHash>;

// The place of this owner's page, by its hash. It is noted as the last one.
#[inline(never)]
fn find_row(rows: &Rows, owner: Owner, last: &Cell<usize>) -> Option<usize>
    ensures found { IfSome result (λ place. StandsAt rows.now.entries place owner) }
    ensures none { IfNone result (lookup (same_owner owner) rows.now.entries ≡ None) }
{
    match rows.get_full(&owner) {
        Some((place, _, _)) => {
            last.set(place);
            Some(place)
        }
        None => None,
    }
}

// Whether the page at this place is that of the owner.
#[inline(always)]
fn is_row_at(rows: &Rows, owner: Owner, place: usize) -> bool
    ensures { result ≡ true → StandsAt rows.now.entries place owner }
{
    match rows.get_index(place) {
        Some((key, _)) => *key == owner,
        None => false,
    }
}

// The place of this owner's page: the last one that was found, and else by its hash.
#[inline(always)]
pub(crate) fn row_place(rows: &Rows, owner: Owner, last: &Cell<usize>) -> Option<usize>
    ensures found { IfSome result (λ place. StandsAt rows.now.entries place owner) }
    ensures none { IfNone result (lookup (same_owner owner) rows.now.entries ≡ None) }
{
    let place = last.get();
    if is_row_at(rows, owner, place) {
        return Some(place);
    }
    // A copy of its own: the caller's owner stays in registers.
    let sought = Owner {
        client: owner.client,
        part: owner.part,
    };
    find_row(rows, sought, last)
}

// The count in this cell of the owner's page.
#[inline(always)]
pub(crate) fn count_of(rows: &Rows, owner: Owner, slot: usize, last: &Cell<usize>) -> u32
    requires { slot < 128 }
    ensures { result ≡ count_in (page_in rows.now.entries owner) slot }
{
    match row_place(rows, owner, last) {
        Some(place) => rows.get_index(place).unwrap().1.get(slot),
        None => 0,
    }
}

// A blank page for this owner, who has none, in the room that was made for it. The answer is its place.
pub(crate) fn add_row(
    rows: &mut Rows,
    spares: &mut Spares,
    owner: Owner,
    last: &Cell<usize>,
) -> usize
    requires none { lookup (same_owner owner) rows.old.entries ≡ None }
    requires room { 0 < spare rows.old }
    requires spared { 0 < length spares.old.pages.items }
    requires blank { All IsBlank spares.old.pages.items }
    ensures added { PageBecomes rows.old.entries rows.new.entries owner true (λ at. None) }
    ensures stands { StandsAt rows.new.entries result owner }
    ensures places { spare rows.old ≤ spare rows.new + 1 }
    ensures spares { length spares.old.pages.items ≡ length spares.new.pages.items + 1 }
    ensures blank { All IsBlank spares.new.pages.items }
{
    let page = take_spare(spares);
    let place = rows.len();
    last.set(place);
    let _ = rows.insert(owner, page);
    place
}

// One handle more in each cell of a set, in the page at this place, which is the owner's.
#[inline(always)]
pub(crate) fn raise(rows: &mut Rows, owner: Owner, place: usize, first: usize, set: u64)
    requires stands { StandsAt rows.old.entries place owner }
    requires near { first < 128 }
    requires there { (at : ℕ) → IsIn first set at → at < 128 }
    requires fits { (at : ℕ) → IsIn first set at → count_in (page_in rows.old.entries owner) at + 1 < 2 ^ 32 }
    ensures raised { PageBecomes rows.old.entries rows.new.entries owner true
        (raised (page_in rows.old.entries owner) first set) }
    ensures room { spare rows.new ≡ spare rows.old }
{
    let page = rows.get_index_mut(place).unwrap();
    page.raise(first, set);
}

// One handle less in the cell of the owner's page, where there is one. The cell stays, though it may be of 0.
#[inline(always)]
pub(crate) fn lower(rows: &mut Rows, owner: Owner, slot: usize, last: &Cell<usize>) -> bool
    requires { slot < 128 }
    ensures had { IsTrue result ↔ (0 < count_in (page_in rows.old.entries owner) slot) }
    ensures lowered { OnTrue result (PageBecomes rows.old.entries rows.new.entries owner true
        (λ at. if slot == at then Some (count_in (page_in rows.old.entries owner) slot - 1)
        else cell_at (page_in rows.old.entries owner) at)) }
    ensures unchanged { OnFalse result (rows.new.entries ≡ rows.old.entries) }
    ensures room { spare rows.new ≡ spare rows.old }
{
    let Some(place) = row_place(rows, owner, last) else {
        return false;
    };
    let page = rows.get_index_mut(place).unwrap();
    let count = page.get(slot);
    if count == 0 {
        return false;
    }
    page.lower(slot);
    true
}

// Empties this cell of the page at this place, which is the owner's, if it is of 0. The answer says whether the page
// is blank then.
#[inline(always)]
pub(crate) fn clear(rows: &mut Rows, owner: Owner, place: usize, slot: usize) -> bool
    requires stands { StandsAt rows.old.entries place owner }
    requires within { slot < 128 }
    ensures tidied { PageBecomes rows.old.entries rows.new.entries owner true
        (λ at. if slot == at then tidied (cell_at (page_in rows.old.entries owner) slot)
        else cell_at (page_in rows.old.entries owner) at) }
    ensures blank { result ≡ true → StandsBlank rows.new.entries place owner }
    ensures room { spare rows.new ≡ spare rows.old }
{
    let page = rows.get_index_mut(place).unwrap();
    page.tidy(slot);
    page.is_blank()
}

// Whose page stands at this place, if it is blank.
#[inline(always)]
pub(crate) fn blank_at(rows: &Rows, place: usize) -> Option<Owner>
    ensures found { IfSome result (λ owner. StandsBlank rows.now.entries place owner) }
    ensures each { (owner : Owner) → StandsBlank rows.now.entries place owner → result ≡ Some owner }
{
    match rows.get_index(place) {
        Some((owner, page)) => { if page.is_blank() { Some(*owner) } else { None } }
        None => None,
    }
}

// Takes the blank page at this place away, and keeps it for another owner.
pub(crate) fn take_row(rows: &mut Rows, spares: &mut Spares, owner: Owner, place: usize)
    requires stands { StandsBlank rows.old.entries place owner }
    requires distinct { IsDistinct same_owner (keys_of rows.old.entries) }
    requires blank { All IsBlank spares.old.pages.items }
    ensures taken { PageBecomes rows.old.entries rows.new.entries owner false (λ at. None) }
    ensures blank { All IsBlank spares.new.pages.items }
    ensures room { spare rows.old ≤ spare rows.new }
    ensures more { length spares.old.pages.items ≤ length spares.new.pages.items }
{
    if let Some((_, page)) = rows.swap_remove_index(place) {
        keep_spare(spares, page);
    }
}
