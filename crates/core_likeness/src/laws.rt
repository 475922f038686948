//! What is proved of new names.
ghost use Rattle.core_likeness.specs.declared.names.Names.{Names};
ghost use Rattle.core_likeness.specs.Naming.{new_id, new_key, new_number};
ghost use Rattle.alike_cores.specs.Alike.{KeepsIds};
ghost use Rattle.alike_cores.specs.Renamed.{KeepsKeys};

/// No two names become one, whatever the swaps are.
pub fn new_names_stay_apart()
    ensures keys { (names : Names) → KeepsKeys (new_key names) }
    ensures ids { (names : Names) → KeepsIds (new_id names) }
    ensures numbers { (names : Names) → KeepsIds (new_number names) }
{}
