//! The fates of nodes are those of the history.
ghost use Rattle.std.specs.Prelude.{◌≡◌, List};
ghost use Rattle.sm_names.specs.declared.keys.NodeKey.{NodeKey};
ghost use Rattle.sm_names.specs.Marks.{Entry};
ghost use Rattle.sm_names.specs.Timelines.{timeline};
ghost use Rattle.core_state.specs.Shown.{Shows};
ghost use Rattle.explore_model.specs.declared.found.Turn.{Turn};
ghost use Rattle.actor_plays.specs.Endings.{fate_in, maker_in};
ghost use Rattle.actor_plays.specs.Plays.{Plays};
ghost use Rattle.actor_plays.specs.Positions.{Position, ReachedBy, Setup};
ghost use Rattle.fate_laws.specs.Fates.{fate_after};

/// Where a play came by its turns, these made a history that the core shows, and no other one. What became of each node is what
/// this history says. A core forgets a node that is gone and whose end is spent; what is told of it is by which mark it fell.
pub fn fates_are_the_historys()
    ensures history { (setup : Setup) (turns : List Turn) (p : Position) → ReachedBy setup turns p →
        (history : List Entry) × Plays setup.plans setup.clients turns history p.stages
        × Shows p.core history }
    ensures one { (setup : Setup) (turns : List Turn) (p : Position) (history other : List Entry) →
        Plays setup.plans setup.clients turns history p.stages → Shows p.core history →
        Plays setup.plans setup.clients turns other p.stages → Shows p.core other → history ≡ other }
    ensures fates { (setup : Setup) (turns : List Turn) (p : Position) → ReachedBy setup turns p →
        (history : List Entry) → Plays setup.plans setup.clients turns history p.stages →
        Shows p.core history → (key : NodeKey) →
        fate_in p key ≡ fate_after (maker_in p.stages) (timeline p.core.pool history) key }
{}
