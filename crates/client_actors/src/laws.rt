//! What runs of scripts come to where no step is made again.
ghost use Rattle.std.specs.Prelude.{ℕ, List};
ghost use Rattle.sm_names.specs.declared.messages.Call.{Call};
ghost use Rattle.sm_names.specs.declared.messages.Reply.{Reply};
ghost use Rattle.actor_scripts.specs.declared.step.Step.{Step};
ghost use Rattle.actor_scripts.specs.ActorStates.{Known};
ghost use Rattle.actor_scripts.specs.ScriptRuns.{RunsScript};
ghost use Rattle.client_actors.specs.PatientRuns.{RunsPatiently};

/// Where no step is made again, a run of a script makes each of its steps once.
pub fn a_run_without_patience_makes_each_step_once()
    ensures { (clients : List ℕ) (steps : List Step) (made : List (Call × Reply)) (state : Known) →
        RunsPatiently clients 0 steps made state → RunsScript clients steps made state }
{}
