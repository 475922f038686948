//! What the reason of a refusal rests on.
ghost use Rattle.std.specs.Prelude.{◌≡◌, ℕ, Some};
ghost use Rattle.sm_names.specs.declared.messages.Call.{Call};
ghost use Rattle.sm_names.specs.declared.messages.Reply.{Reply};
ghost use Rattle.sm_names.specs.declared.outcomes.Refusal.{Refusal};
ghost use Rattle.sm_names.specs.Answers.{IsAnswer, Readings};
ghost use Rattle.sm_names.specs.Bounds.{Bound};
ghost use Rattle.event_texts.specs.FailedTests.{failed_test};

/// A refused call failed the one test of the order of answers that gives its refusal. The reason that is told is what this
/// test reads.
pub fn refused_calls_failed_their_test()
    ensures { (limits : Bound) (r : Readings) (client : ℕ) (call : Call) (refusal : Refusal) →
        IsAnswer limits r client call (Reply.Refused refusal) →
        failed_test limits r client call refusal ≡ Some (Reply.Refused refusal) }
{}
