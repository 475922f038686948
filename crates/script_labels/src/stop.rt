//! Why a line was not answered.
use sm_names::{NoMemory, StepFault};
use std::alloc::AllocError;

/// Why a line was not answered.
#[derive(Clone, Copy, PartialEq, Eq)]
pub enum LineStop {
    /// It asks for nothing that is known.
    BadLine,
    /// It makes a call, and as many events were made as may be.
    HistoryFull,
    /// Memory was refused.
    NoMemory,
}

impl From<AllocError> for LineStop {
    ghost use Rattle.std.specs.Prelude.{◌≡◌};
    ghost use Rattle.script_labels.specs.declared.stop.LineStop.{LineStop};

    ghost from_gives = { λ refused stop. stop ≡ LineStop.NoMemory };

    fn from(refused: AllocError) -> LineStop {
        LineStop::NoMemory
    }
}

impl From<NoMemory> for LineStop {
    ghost use Rattle.std.specs.Prelude.{◌≡◌};
    ghost use Rattle.script_labels.specs.declared.stop.LineStop.{LineStop};

    ghost from_gives = { λ refused stop. stop ≡ LineStop.NoMemory };

    fn from(refused: NoMemory) -> LineStop {
        LineStop::NoMemory
    }
}
