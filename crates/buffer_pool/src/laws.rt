//! What the definitions say, as theorems.
ghost use Rattle.std.specs.Prelude.{ℕ, List, ◌↔◌, IsTrue, Contains};
ghost use Rattle.sm_names.specs.declared.keys.Interval.{Interval};
ghost use Rattle.buffer_pool.specs.Holdings.{in_order};
ghost use Rattle.buffer_pool.specs.Holes.{IsHole, holes_of};

/// The holes between held intervals in order of page are exactly the greatest intervals that lie
/// in the pool and meet none of those.
pub fn holes_are_greatest()
    ensures { (size : ℕ) (held : List Interval) (i : Interval) → IsTrue (in_order 0 size held)
        → (Contains (holes_of size held) i ↔ IsHole size held i) }
{}
