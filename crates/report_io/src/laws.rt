//! That the tests of a line are those of the parser.
ghost use Rattle.std.specs.Prelude.{◌≡◌, ℕ, List, None, Some, is_some, true};
ghost use Rattle.script_labels.specs.Names.{Names, act_in};
ghost use Rattle.report_io.specs.Reasons.{line_reason};

/// Where a line is bad, so that it asks for nothing, one of the tests of a line fails: there is a reason for it.
pub fn bad_lines_have_reasons()
    ensures { (names : Names) (line : List ℕ) → act_in names line ≡ None →
        is_some (line_reason (Some names) line) ≡ true }
{}
