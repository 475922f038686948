//! The counts of open handles.
ghost use Rattle.std.specs.Prelude.{[], ℕ, ◌≡◌, ◌+◌, ◌-◌, ◌<◌, ◌≤◌, ◌↔◌, true, IsOk, IsTrue, OnOk, OnErr, IsErrOf, IsOkUnless};
ghost use Rattle.std.specs.Bool.{OnTrue, OnFalse};
ghost use Rattle.std.specs.List.{IsDistinct};
ghost use Rattle.std.specs.Map.{keys_of};
ghost use Rattle.sm_names.specs.Handles.{is_doomed, is_home};
ghost use Rattle.buffer_holds.specs.Counts.{HasPlaces, of, moving_count, total, has_handle_room};
ghost use Rattle.buffer_holds.specs.Kinds.{kind_of, same_hold};
ghost use Rattle.buffer_holds.specs.Gains.{Gains, HasRoomIn};
ghost use Rattle.buffer_holds.specs.Pages.{part_of, same_part, IsIn};
ghost use Rattle.buffer_holds.specs.Changes.{Sets, Tidies};

use crate::fault::HoldFault;
use crate::hashing::CountHash;
use crate::kinds::{HandleKind, Hold};
use crate::last::Last;
use crate::names::{Owner, owner_of, part_of, slot_of};
use crate::places::{find_places, keep_blank};
use crate::rows::{Rows, clear, count_of, lower, raise, row_place};
use crate::spares::{Spares, make_spares};
use crate::sums::{Sums, close, land, lift, moving_of, open, sum_place, total_of};
use indexmap::IndexMap;
use sm_names::{BufferName, ClientId, CollectionId, NoMemory, Strength};
use std::alloc::Global;
use std::marker::Model;

/// How many handles are open, by client, buffer and strength, and how many are in parcels.
///
/// A contract sees the counts of clients and of parcels (`of`, `moving` and their sum, `total`), the
/// places for handles that land, and for which of the counts one more handle takes no memory
/// (`has_handle_room`). A client gains room with the first handle that it opens or lands, and keeps it
/// when the last one is closed or given, so that `sub` is undone by `add` without memory. `tidy` takes
/// the room back: call it once a `sub` or a `lift` need not be undone any more; otherwise the client
/// keeps the room. `reserve_landing` makes a place for a handle that lands with any client, and `land`
/// takes one. Where there are as many places as handles in parcels (`HasPlaces`), `land` takes no
/// memory. A room that was taken back is used again; the memory is as much as was needed at once, with
/// a page more for each place, and one more in each table.
///
/// The counts stand in pages of 64 buffers and both strengths: one for each client and collection that has a
/// row, and two for each collection with the sums over all clients. Each call looks for one client's
/// page, for the sum, or for both, and never looks at all clients: a look-up is one at the place
/// where the last one ended, and where the page stands elsewhere one in a hash table. Where the last one ended changes
/// what a call costs, and no count. The page that lost its rows last stays in its table, so that a client which comes
/// and goes takes no memory; others are kept for the next page that is needed. A new page is amortised: where a table
/// grows, its entries are moved, and no page is.
#[derive(Drop)]
pub struct Holds {
    pub(crate) limit: u32,
    // No more than this many of one kind were ever open: the limit at most.
    pub(crate) most: u32,
    // No handle was ever opened on a buffer of a collection with a greater id. Most collections from which nobody took
    // are newer, and need no look-up.
    pub(crate) newest: CollectionId,
    // As many places are free among the rows.
    pub(crate) places: u32,
    pub(crate) rows: Rows,
    pub(crate) sums: Sums,
    pub(crate) spares: Spares,
    // Where the page stands that became blank last, if it is there still.
    blank: usize,
    pub(crate) last: Last,
}

impl Model for Holds {
    ghost use Rattle.buffer_holds.specs.Counts.{Counts};

    ghost Value = { Counts };

    ghost use Rattle.std.specs.Prelude.{◌≤◌, length, All};
    ghost use Rattle.indexmap.specs.IndexMap.{spare};
    ghost use Rattle.buffer_holds.specs.Pages.{rows_in, IsBlank};
    ghost use Rattle.buffer_holds.specs.Sums.{parcels_in, Agrees, AreUpTo};

    ghost view = { λ h. record {
      limit = h.limit;
      places = h.places;
      rows = rows_in h.rows.entries;
      parcels = parcels_in h.sums.entries;
    } };

    ghost invariant = { λ h. Agrees h.newest h.rows.entries h.sums.entries
        × AreUpTo h.most h.sums.entries
        × (h.most ≤ h.limit)
        × (h.places ≤ spare h.rows)
        × (h.places ≤ length h.spares.pages.items)
        × All IsBlank h.spares.pages.items };
}

impl Holds {
    /// No handle is open. At most `limit` handles of one strength may be open on a buffer at a
    /// time, those in parcels among them; with a limit of 0 none can be opened. The tables hash from
    /// a seed that everybody knows. Takes O(1) time and no memory from the allocator.
    pub fn new(alloc: Global, limit: u32) -> Self
        ensures { result ≡ record { limit = limit; places = 0; rows = []; parcels = [] } }
    {
        Self::with_seed(alloc, limit, [0; 16])
    }

    /// Does what `new` does. The tables hash from this seed: with random bytes, a caller can't pick
    /// clients and buffers whose counts collide. No count depends on it.
    pub fn with_seed(alloc: Global, limit: u32, seed: [u8; 16]) -> Self
        ensures { result ≡ record { limit = limit; places = 0; rows = []; parcels = [] } }
    {
        let hash = CountHash::new(seed);
        Holds {
            limit,
            most: 0,
            newest: 0,
            places: 0,
            rows: IndexMap::with_hasher(alloc, hash),
            sums: IndexMap::with_hasher(alloc, hash),
            spares: Spares {
                pages: Vec::new(alloc),
                alloc,
            },
            blank: usize::MAX,
            last: Last::new(),
        }
    }

    /// How many of these handles the client has open: what it opened and landed, less what it
    /// closed and lifted. Those in parcels belong to nobody. One look-up.
    #[inline(always)]
    pub fn of(&self, client: ClientId, buffer: BufferName, strength: Strength) -> u32
        ensures { result ≡ of self.now client buffer strength }
    {
        let kind = HandleKind { buffer, strength };
        let owner = owner_of(Hold { client, kind });
        count_of(&self.rows, owner, slot_of(kind), &self.last.row)
    }

    /// How many of these handles are in parcels. One look-up.
    pub fn moving(&self, buffer: BufferName, strength: Strength) -> u32
        ensures { result ≡ moving_count self.now buffer strength }
    {
        let kind = HandleKind { buffer, strength };
        moving_of(
            &self.sums,
            self.newest,
            part_of(kind),
            slot_of(kind),
            &self.last.sum,
        )
    }

    /// How many of these handles are open, in parcels and out of them: what was opened, less what
    /// was closed. It is the sum over all clients, which has one row for each, and the parcels. One
    /// look-up.
    #[inline(always)]
    pub fn total(&self, buffer: BufferName, strength: Strength) -> u32
        ensures value { result ≡ total self.now buffer strength }
        ensures within { result ≤ self.now.limit }
        ensures one_row_each { IsDistinct same_hold (keys_of self.now.rows) }
    {
        let kind = HandleKind { buffer, strength };
        total_of(
            &self.sums,
            self.newest,
            part_of(kind),
            slot_of(kind),
            &self.last.sum,
        )
    }

    /// Whether it is known of each kind of handle that fewer are open than may be. It is, until as many
    /// of one kind were open at once. Costs O(1).
    pub fn have_room(&self) -> bool
        ensures { result ≡ true →
            (buffer : BufferName) (strength : Strength) →
            total self.now buffer strength < self.now.limit }
    {
        self.most < self.limit
    }

    // Whether as many of these handles are open as may be. One look-up, and none until as many of one kind were open.
    #[inline(always)]
    fn is_full(&self, buffer: BufferName, strength: Strength) -> bool
        ensures full { IsTrue result ↔ (total self.now buffer strength ≡ self.now.limit) }
        ensures fewer { OnFalse result (total self.now buffer strength < self.now.limit) }
    {
        !self.have_room() && self.total(buffer, strength) >= self.limit
    }

    // Whether it is known that no handle is open on this buffer: none was ever opened on one of its
    // collection, nor of a collection with a greater id.
    #[inline(always)]
    fn is_unopened(&self, buffer: BufferName) -> bool
        ensures { result ≡ true → (strength : Strength) →
            total self.now buffer strength ≡ 0 }
    {
        self.newest < buffer.collection
    }

    /// Whether nothing strong keeps this buffer of an allocated collection any longer: neither an
    /// open handle, be it in a parcel, nor a live node (`fuchsia.sysmem2.Node.SetWeak`).
    /// `strong_live` says whether a strong node of its collection is live. One look-up.
    #[inline(always)]
    pub fn doomed(&self, buffer: BufferName, strong_live: bool) -> bool
        ensures { result ≡ is_doomed (total self.now buffer Strength.Strong) strong_live }
    {
        !strong_live && self.total(buffer, Strength::Strong) == 0
    }

    /// Whether nothing at all keeps this buffer of an allocated collection, so that its pages go
    /// back: it is doomed, and no weak handle is open, in a parcel or out of it. Two look-ups at most; none
    /// where no handle was ever opened on a buffer of its collection, nor of one with a greater id.
    #[inline(always)]
    pub fn home(&self, buffer: BufferName, strong_live: bool) -> bool
        ensures { result ≡ is_home (total self.now buffer Strength.Strong)
            (total self.now buffer Strength.Weak) strong_live }
    {
        if strong_live {
            return false;
        }
        if self.is_unopened(buffer) {
            return true;
        }
        self.total(buffer, Strength::Strong) == 0 && self.total(buffer, Strength::Weak) == 0
    }

    /// Opens one more of these handles for the client.
    ///
    /// `TooMany` comes exactly where as many are open as may be, and `NoMemory` only where the
    /// client has no room and memory was refused. Neither changes anything. Two look-ups at most, and none
    /// where the last ones ended in the client's page and in that of the sums.
    #[inline(never)]
    pub fn add(
        &mut self,
        client: ClientId,
        buffer: BufferName,
        strength: Strength,
    ) -> Result<(), HoldFault>
        ensures opened { OnOk result (Sets self.old self.new client buffer strength
            (of self.old client buffer strength + 1) (moving_count self.old buffer strength)
            (total self.old buffer strength + 1)) }
        ensures too_many { IsErrOf result HoldFault.TooMany
            ↔ (total self.old buffer strength ≡ self.old.limit) }
        ensures room { IsTrue (has_handle_room self.old client buffer strength) →
            IsOkUnless result HoldFault.TooMany }
        ensures places { self.new.places ≡ self.old.places }
        ensures err { OnErr result (self.new ≡ self.old) }
    {
        let kind = HandleKind { buffer, strength };
        let owner = owner_of(Hold { client, kind });
        let slot = slot_of(kind);
        if self.is_full(buffer, strength) {
            return Err(HoldFault::TooMany);
        }
        match self.gain(owner, slot, 1) {
            Ok(()) => Ok(()),
            Err(NoMemory) => Err(HoldFault::NoMemory),
        }
    }

    // Opens one handle more for the owner in each cell of a set, of whose kinds fewer must be open than may be. An
    // error changes nothing; there is none where the owner has room in the page.
    #[inline(always)]
    pub(crate) fn gain(&mut self, owner: Owner, first: usize, set: u64) -> Result<(), NoMemory>
        requires near { first < 128 }
        requires there { (at : ℕ) → IsIn first set at → at < 128 }
        requires fewer { HasRoomIn self.old owner first set }
        ensures gained { OnOk result (Gains self.old self.new owner first set) }
        ensures room { (b : BufferName) (s : Strength) →
            same_part owner.part (part_of (kind_of b s)) ≡ true →
            has_handle_room self.old owner.client b s ≡ true → IsOk result }
        ensures err { OnErr result (self.new ≡ self.old) }
    {
        let Ok(places) = find_places(
            &mut self.rows,
            &mut self.sums,
            &mut self.spares,
            &mut self.newest,
            &self.last,
            owner,
            self.places,
        ) else {
            return Err(NoMemory);
        };
        raise(&mut self.rows, owner, places.row, first, set);
        let most = open(&mut self.sums, owner.part, places.sum, first, set);
        self.most = self.most.max(most);
        Ok(())
    }

    /// Closes one of the client's handles, and answers whether it had one. Without one nothing
    /// changes. The client keeps its room, so that `add` undoes this without memory until `tidy`.
    /// Two look-ups.
    #[inline(always)]
    pub fn sub(&mut self, client: ClientId, buffer: BufferName, strength: Strength) -> bool
        ensures had { IsTrue result ↔ (0 < of self.old client buffer strength) }
        ensures closed { OnTrue result (Sets self.old self.new client buffer strength
            (of self.old client buffer strength - 1) (moving_count self.old buffer strength)
            (total self.old buffer strength - 1)) }
        ensures within { OnTrue result (total self.new buffer strength < self.new.limit) }
        ensures places { self.new.places ≡ self.old.places }
        ensures unchanged { OnFalse result (self.new ≡ self.old) }
    {
        let kind = HandleKind { buffer, strength };
        let owner = owner_of(Hold { client, kind });
        let slot = slot_of(kind);
        if !lower(&mut self.rows, owner, slot, &self.last.row) {
            return false;
        }
        let Some(sum) = sum_place(&self.sums, self.newest, owner.part, &self.last.sum) else {
            unreachable!();
        };
        close(&mut self.sums, owner.part, sum, slot);
        true
    }

    /// Takes back the room of a client that has none of these handles open. No count changes, and
    /// no other client loses room. Two look-ups, and two removals of a page at most.
    #[inline(always)]
    pub fn tidy(&mut self, client: ClientId, buffer: BufferName, strength: Strength)
        ensures { Tidies self.old self.new client buffer strength }
    {
        let kind = HandleKind { buffer, strength };
        let owner = owner_of(Hold { client, kind });
        let Some(row) = row_place(&self.rows, owner, &self.last.row) else {
            return;
        };
        if clear(&mut self.rows, owner, row, slot_of(kind)) && self.blank != row {
            keep_blank(
                &mut self.rows,
                &mut self.sums,
                &mut self.spares,
                self.newest,
                &self.last,
                &mut self.blank,
                row,
            );
        }
    }

    /// Makes a place for a handle that lands, of whatever client, buffer and strength: `places` is one
    /// more. `NoMemory` changes nothing. O(1), unless the table of rows grows.
    #[inline(always)]
    pub fn reserve_landing(&mut self) -> Result<(), NoMemory>
        ensures ok { OnOk result (self.new ≡ record self.old {
          places = self.old.places + 1;
        }) }
        ensures err { OnErr result (self.new ≡ self.old) }
    {
        let Some(places) = self.places.checked_add(1) else {
            return Err(NoMemory);
        };
        let Ok(()) = self.rows.reserve(places as usize) else {
            return Err(NoMemory);
        };
        let Ok(()) = make_spares(&mut self.spares, places as usize) else {
            return Err(NoMemory);
        };
        self.places = places;
        Ok(())
    }

    /// Puts one of the client's handles into a parcel, where it is open and belongs to nobody, and
    /// answers whether it had one. Without one nothing changes. The client keeps its room until
    /// `tidy`. Takes no memory. Two look-ups.
    ///
    /// It makes no place for the handle where it lands: `reserve_landing` does.
    pub fn lift(&mut self, client: ClientId, buffer: BufferName, strength: Strength) -> bool
        ensures had { IsTrue result ↔ (0 < of self.old client buffer strength) }
        ensures lifted { OnTrue result (Sets self.old self.new client buffer strength
            (of self.old client buffer strength - 1) (moving_count self.old buffer strength + 1)
            (total self.old buffer strength)) }
        ensures places { self.new.places ≡ self.old.places }
        ensures unchanged { OnFalse result (self.new ≡ self.old) }
    {
        let kind = HandleKind { buffer, strength };
        let owner = owner_of(Hold { client, kind });
        let slot = slot_of(kind);
        if !lower(&mut self.rows, owner, slot, &self.last.row) {
            return false;
        }
        let Some(sum) = sum_place(&self.sums, self.newest, owner.part, &self.last.sum) else {
            unreachable!();
        };
        lift(&mut self.sums, owner.part, sum, slot);
        true
    }

    /// Takes one of these handles out of a parcel, for the client. At least one has to be in a
    /// parcel; the limit is not looked at, since the handle is open already.
    ///
    /// It takes a place, if there is one. `NoMemory` comes only without a place, where memory was
    /// refused, and changes nothing. Two look-ups.
    pub fn land(
        &mut self,
        client: ClientId,
        buffer: BufferName,
        strength: Strength,
    ) -> Result<(), NoMemory>
        requires { 0 < moving_count self.old buffer strength }
        ensures landed { OnOk result (Sets self.old self.new client buffer strength
            (of self.old client buffer strength + 1) (moving_count self.old buffer strength - 1)
            (total self.old buffer strength)) }
        ensures places { OnOk result (self.new.places ≡ self.old.places - 1) }
        ensures room { 0 < self.old.places → IsOk result }
        ensures each { HasPlaces self.old → IsOk result }
        ensures err { OnErr result (self.new ≡ self.old) }
    {
        let kind = HandleKind { buffer, strength };
        let owner = owner_of(Hold { client, kind });
        let slot = slot_of(kind);
        let left = self.places.saturating_sub(1);
        let Ok(places) = find_places(
            &mut self.rows,
            &mut self.sums,
            &mut self.spares,
            &mut self.newest,
            &self.last,
            owner,
            left,
        ) else {
            return Err(NoMemory);
        };
        raise(&mut self.rows, owner, places.row, slot, 1);
        land(&mut self.sums, owner.part, places.sum, slot);
        self.places = left;
        Ok(())
    }
}
