//! The pages of a pool.
ghost use Rattle.std.specs.Prelude.{◌≤◌, SomeIff, option_map};
ghost use Rattle.sm_names.specs.declared.rules.TheConstants.{MAX_PAGES};

use sm_names::MAX_PAGES;

/// As many pages as a pool may have: from 1 to `MAX_PAGES`.
#[derive(Clone, Copy)]
pub struct Pages {
    pub count: u32,
    ghost in_range: { (1 ≤ count) × (count ≤ MAX_PAGES) },
}

impl Pages {
    /// This many pages, or `None` where a pool may not have as many. Costs O(1).
    pub fn new(count: u32) -> Option<Pages>
        ensures { SomeIff (option_map (λ pages. pages.count) result)
            ((1 ≤ count) × (count ≤ MAX_PAGES)) count }
    {
        if count < 1 || MAX_PAGES < count {
            return None;
        }
        Some(Pages { count })
    }
}
