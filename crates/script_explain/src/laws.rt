//! What can be read out of an explanation.
ghost use Rattle.std.specs.Prelude.{◌≡◌, ◌++◌, List, ℕ, [], false};
ghost use Rattle.report_io.specs.IndentedLines.{unindented};
ghost use Rattle.script_lines.specs.Pieces.{last_part, whole_lines};
ghost use Rattle.sm_script.specs.Scenes.{Setting};
ghost use Rattle.script_explain.specs.declared.explain.Scope.{Scope};
ghost use Rattle.script_explain.specs.Explanations.{Explanation, Whole};
ghost use Rattle.script_explain.specs.ExplainedLines.{replies_in};

/// The text that explains each line of a script consists of whole lines. Those that are not indented are the script's
/// own that are not indented; those that begin with two spaces and no more, without these, are what
/// `run_script` writes for them. A summary behind it has no lines of the script.
pub fn explanations_hold_their_script()
    ensures whole { (setting : Setting) (script text : List ℕ) →
        Explanation setting false (whole_lines script) text → last_part text ≡ [] }
    ensures script { (setting : Setting) (script text : List ℕ) →
        Explanation setting false (whole_lines script) text →
        unindented (whole_lines text) ≡ unindented (whole_lines script) }
    ensures replies { (setting : Setting) (script text : List ℕ)
        (explanation : Explanation setting false (whole_lines script) text) →
        replies_in (whole_lines text) ≡ explanation.replies }
    ensures summary { (setting : Setting) (scope : Scope) (script : List ℕ)
        (whole : Whole setting scope (whole_lines script)) → scope.only_failures ≡ false →
        unindented (whole_lines (whole.text ++ whole.summary)) ≡ unindented (whole_lines script) }
{}
