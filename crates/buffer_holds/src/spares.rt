//! Blank pages for those to come.
ghost use Rattle.std.specs.Prelude.{◌≡◌, ◌+◌, ◌<◌, ◌≤◌, All, length, IsOk, OnOk};
ghost use Rattle.buffer_holds.specs.Pages.{IsBlank};

use crate::page::Page;
use std::alloc::{AllocError, Global};

// Blank pages, which are used before memory is asked for.
#[derive(Drop)]
pub(crate) struct Spares {
    pub(crate) pages: Vec<Page>,
    pub(crate) alloc: Global,
}

// As many blank pages.
pub(crate) fn make_spares(spares: &mut Spares, count: usize) -> Result<(), AllocError>
    requires { All IsBlank spares.old.pages.items }
    ensures blank { All IsBlank spares.new.pages.items }
    ensures more { length spares.old.pages.items ≤ length spares.new.pages.items }
    ensures ok { OnOk result (count ≤ length spares.new.pages.items) }
    ensures room { count ≤ length spares.old.pages.items → IsOk result }
{
    while spares.pages.len() < count {
        let page = Page::new(spares.alloc)?;
        let Ok(()) = spares.pages.push(page) else {
            return Err(AllocError);
        };
    }
    Ok(())
}

// One of them.
#[inline(always)]
pub(crate) fn take_spare(spares: &mut Spares) -> Page
    requires some { 0 < length spares.old.pages.items }
    requires blank { All IsBlank spares.old.pages.items }
    ensures blank { IsBlank result }
    ensures others { All IsBlank spares.new.pages.items }
    ensures less { length spares.old.pages.items ≡ length spares.new.pages.items + 1 }
{
    spares.pages.pop().unwrap()
}

// Keeps a blank page for later, unless memory is refused.
pub(crate) fn keep_spare(spares: &mut Spares, page: Page)
    requires page { IsBlank page }
    requires blank { All IsBlank spares.old.pages.items }
    ensures blank { All IsBlank spares.new.pages.items }
    ensures more { length spares.old.pages.items ≤ length spares.new.pages.items }
{
    let _ = spares.pages.push(page);
}
