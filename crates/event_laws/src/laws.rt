//! What ties the lines of a record to the definitions.
ghost use Rattle.std.specs.Prelude.{◌≡◌, ℕ, List, reverse};
ghost use Rattle.std.specs.List.{All};
ghost use Rattle.sm_names.specs.declared.keys.Strength.TheVariants.{Strong, Weak};
ghost use Rattle.sm_names.specs.Bounds.{Bound};
ghost use Rattle.sm_names.specs.Ends.{clients};
ghost use Rattle.sm_names.specs.Legality.{IsLegal};
ghost use Rattle.sm_names.specs.Marks.{Entry};
ghost use Rattle.sm_names.specs.Timelines.{timeline};
ghost use Rattle.event_laws.specs.HandleSums.{all_open_of};
ghost use Rattle.event_laws.specs.declared.line.ClientLine.{ClientLine};
ghost use Rattle.event_laws.specs.Lines.{lines_of};
ghost use Rattle.event_laws.specs.Members.{joined};

/// In a legal history those that joined, each of whom has a line, are all clients, in the order of
/// their Joins.
pub fn all_clients_have_lines()
    ensures { (pool : ℕ) (limits : Bound) (history : List Entry) →
        IsLegal pool limits history →
        joined history ≡ reverse (clients (timeline pool history)) }
{}

/// In a legal history each line, which is counted from its client's part alone, has the numbers of
/// handles of each strength that the client has open over all buffers.
pub fn lines_tell_open_handles()
    ensures { (pool : ℕ) (limits : Bound) (history : List Entry) →
        IsLegal pool limits history →
        All (λ (line : ClientLine).
        (line.strong ≡ all_open_of (timeline pool history) line.client Strong)
        × (line.weak ≡ all_open_of (timeline pool history) line.client Weak)) (lines_of history) }
{}
