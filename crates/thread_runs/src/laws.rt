//! What runs of actors come to.
ghost use Rattle.std.specs.Prelude.{◌≡◌, ℕ, true, List, map};
ghost use Rattle.sm_names.specs.Bounds.{Bound};
ghost use Rattle.actor_scripts.specs.ActorLists.{Actors};
ghost use Rattle.explore_model.specs.declared.plan.Plan.{Plan};
ghost use Rattle.explore_model.specs.declared.plan.Waiting.{Waiting};
ghost use Rattle.explore_model.specs.Plans.{planned, steps_of};
ghost use Rattle.actor_plays.specs.Positions.{Position};
ghost use Rattle.explore_model.specs.declared.found.Found.{Found};
ghost use Rattle.play_search.specs.declared.replay.Setting.{Setting};
ghost use Rattle.explore_model.specs.declared.found.Vanishing.{Vanishing};
ghost use Rattle.play_search.specs.Ends.{EndsAsOne, NoneIsMissing};
ghost use Rattle.play_search.specs.Searches.{setup_of};
ghost use Rattle.thread_runs.specs.declared.job.Output.{Output};
ghost use Rattle.thread_runs.specs.RunPlays.{IsPlayOf};
ghost use Rattle.thread_runs.specs.Runs.{IsRunText};

/// A run of actors in threads in which no step is made again is a play of theirs in which no step waits and
/// each leaves at its end. So it ends as one of the outcomes of such plays, if none of these is missing.
pub fn each_run_ends_as_an_outcome()
    ensures { (output : Output) (pages : ℕ) (limits : Bound) (company : Actors) (text : List ℕ) →
        (run : IsRunText output 0 pages limits company text) →
        (plans : List Plan) → map steps_of plans ≡ map (planned Waiting.Never) company.scripts →
        (vanishing : Vanishing) → vanishing.at_end ≡ true →
        (setting : Setting) → setting.pages ≡ pages → setting.limits ≡ limits → (outcomes : List Found) →
        NoneIsMissing vanishing.at_end (setup_of plans vanishing setting) outcomes →
        (end : Position) × IsPlayOf (setup_of plans vanishing setting) run.history end
        × EndsAsOne vanishing.at_end plans outcomes end }
{}
