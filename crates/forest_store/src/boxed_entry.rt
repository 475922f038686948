//! A collection in memory of its own.
ghost use Rattle.std.specs.Prelude.{◌≡◌, IfOk};
ghost use Rattle.std.specs.Borrow.{Lends, sem};
ghost use Rattle.forest_store.specs.contracts.boxed_entry.BoxedEntry.{the_row};
ghost use Rattle.forest_store.specs.contracts.entry.Entry.{the_row as entry_row};

use crate::entry::Entry;
use sm_names::NoMemory;
use std::alloc::Global;
use std::marker::Model;

/// A collection in memory of its own, which stays where it is while others come and go.
#[derive(Drop)]
pub struct BoxedEntry {
    entry: Box<Entry>,
}

impl Model for BoxedEntry {
    ghost use Rattle.forest_store.specs.declared.entry.Entry.{Entry};

    ghost Value = { Entry };

    ghost view = { λ b. b.entry.value };
}

impl BoxedEntry {
    /// Puts the entry into memory of its own.
    pub(crate) fn new(alloc: Global, entry: Entry) -> Result<BoxedEntry, NoMemory>
        ensures { IfOk result (λ b. b ≡ entry) }
    {
        match Box::new(alloc, entry) {
            Ok(entry) => Ok(BoxedEntry { entry }),
            Err(_) => Err(NoMemory),
        }
    }

    /// The entry.
    #[inline(always)]
    pub fn get(&self) -> &Entry
        ensures { result.now ≡ self.now }
    {
        &*self.entry
    }

    /// The entry, to change it.
    #[inline(always)]
    pub fn get_mut(&mut self) -> &mut Entry
        ensures* writes_back { sem 𝓛 (Lends the_row entry_row self.entry result (λ w. w)) }
        ensures value { result.now ≡ self.old }
    {
        &mut *self.entry
    }
}
