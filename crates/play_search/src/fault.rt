//! Why a search ended without an answer.
use sm_names::{NoMemory, StepFault};
use std::alloc::AllocError;

/// Why a search ended without an answer.
#[derive(Clone, Copy)]
pub enum ExploreFault {
    /// As many events were made in a play as may be.
    HistoryFull,
    /// Memory was refused.
    NoMemory,
    /// A play that was made again went on otherwise than before.
    Unlike,
}

impl From<AllocError> for ExploreFault {
    ghost use Rattle.std.specs.Prelude.{◌≡◌};
    ghost use Rattle.play_search.specs.declared.fault.ExploreFault.{ExploreFault as Told};

    ghost from_gives = { λ fault told. told ≡ Told.NoMemory };

    fn from(_fault: AllocError) -> ExploreFault {
        ExploreFault::NoMemory
    }
}

impl From<NoMemory> for ExploreFault {
    ghost use Rattle.std.specs.Prelude.{◌≡◌};
    ghost use Rattle.play_search.specs.declared.fault.ExploreFault.{ExploreFault as Told};

    ghost from_gives = { λ fault told. told ≡ Told.NoMemory };

    fn from(_fault: NoMemory) -> ExploreFault {
        ExploreFault::NoMemory
    }
}

impl From<StepFault> for ExploreFault {
    ghost use Rattle.std.specs.Prelude.{◌≡◌};
    ghost use Rattle.play_search.specs.Faults.{step_told};

    ghost from_gives = { λ fault told. told ≡ step_told fault };

    fn from(fault: StepFault) -> ExploreFault {
        match fault {
            StepFault::HistoryFull => ExploreFault::HistoryFull,
            StepFault::NoMemory => ExploreFault::NoMemory,
        }
    }
}
