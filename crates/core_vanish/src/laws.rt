//! A vanishing is for good; once every client has vanished, no node is live and no page is held.
ghost use Rattle.std.specs.Prelude.{◌≡◌, ◌++◌, ℕ, List, [], true};
ghost use Rattle.sm_names.specs.Bounds.{Bound};
ghost use Rattle.sm_names.specs.Ends.{has_joined};
ghost use Rattle.sm_names.specs.Legality.{IsLegal};
ghost use Rattle.sm_names.specs.Marks.{Entry};
ghost use Rattle.sm_names.specs.Reading.{readings};
ghost use Rattle.sm_names.specs.Timelines.{held, timeline};
ghost use Rattle.sm_names.specs.Views.{free_pages, live_nodes};
ghost use Rattle.core_vanish.specs.Vanishes.{VanishedIn, HasVanished};

/// A client that has vanished stays so, whatever calls follow, its own among them: it is shut, so
/// nothing is given to it and no node is born to it, and it has no end or handle to get others by.
pub fn a_vanishing_is_for_good()
    ensures { (pool : ℕ) (limits : Bound) (history more : List Entry) →
        IsLegal pool limits (history ++ more) → (client : ℕ) →
        HasVanished (readings (timeline pool history)) client →
        HasVanished (readings (timeline pool (history ++ more))) client }
{}

/// Once each client that joined has vanished, no node is live, no page is held, and the whole pool is
/// free. It does not matter when each of them vanished, nor which calls were made since.
pub fn vanishings_free_all()
    ensures live { (pool : ℕ) (limits : Bound) (history : List Entry) →
        IsLegal pool limits history →
        ((client : ℕ) → has_joined (timeline pool history) client ≡ true →
        VanishedIn pool history client) →
        live_nodes (timeline pool history) ≡ [] }
    ensures held { (pool : ℕ) (limits : Bound) (history : List Entry) →
        IsLegal pool limits history →
        ((client : ℕ) → has_joined (timeline pool history) client ≡ true →
        VanishedIn pool history client) →
        held pool (timeline pool history) ≡ [] }
    ensures free { (pool : ℕ) (limits : Bound) (history : List Entry) →
        IsLegal pool limits history →
        ((client : ℕ) → has_joined (timeline pool history) client ≡ true →
        VanishedIn pool history client) →
        free_pages pool (timeline pool history) ≡ pool }
{}
