//! Which nodes a loss takes, and that the forced steps end, always at the same marks.
ghost use Rattle.std.specs.Prelude.{◌≡◌, ◌↔◌, ℕ, None, true};
ghost use Rattle.sm_names.specs.declared.keys.NodeKey.{NodeKey};
ghost use Rattle.sm_names.specs.Births.{births, AreSound};
ghost use Rattle.sm_names.specs.Losses.{Reach, reaches, parent_of, blocked};
ghost use Rattle.sm_names.specs.Marks.{Timeline};
ghost use Rattle.sm_names.specs.Timelines.{Settles, settled, next_forced};

/// What a loss takes is the least set that has its node, the parent of each member whose link is
/// not blocked, and every child of each member.
pub fn reach_is_least()
    ensures { (marks : Timeline) → AreSound (births marks) → (origin node : NodeKey) →
        (reaches marks origin node ≡ true) ↔ Reach (parent_of marks) (blocked marks) origin node }
{}

/// The forced steps end, at marks after which none applies, and these marks are always the same.
pub fn forced_steps_end()
    ensures rest { (pool collection : ℕ) (marks : Timeline) → AreSound (births marks) →
        next_forced pool collection (settled pool collection marks) ≡ None }
    ensures end { (pool collection : ℕ) (marks : Timeline) → AreSound (births marks) →
        Settles pool collection marks (settled pool collection marks) }
    ensures only { (pool collection : ℕ) (marks one other : Timeline) →
        Settles pool collection marks one → Settles pool collection marks other → one ≡ other }
{}
