//! Why there is no graph of some objects, and why a graph isn't planted.

use nr_linked::ClassId;
use std::alloc::AllocError;

/// Why objects aren't captured.
#[derive(Clone, Copy, Debug, PartialEq, Eq)]
pub enum CaptureFault {
    /// The first object of the walk that no call carries is of this class, or is an array of its objects.
    NotSendable(ClassId),
    /// Memory ran out.
    NoMemory,
}

impl From<AllocError> for CaptureFault {
    ghost use Rattle.std.specs.Prelude.{◌≡◌};
    ghost use Rattle.nr_capture.specs.declared.fault.CaptureFault.TheVariants.{NoMemory};

    ghost from_gives = { λ _ e. e ≡ NoMemory };

    fn from(_e: AllocError) -> CaptureFault {
        CaptureFault::NoMemory
    }
}

/// Why a graph isn't planted.
#[derive(Clone, Copy, Debug, PartialEq, Eq)]
pub enum PlantFault {
    /// The heap would have so many cells, or more where this is 2^64 - 1; it may have 1,048,576.
    HeapFull(u64),
    /// Memory ran out.
    NoMemory,
}

impl From<AllocError> for PlantFault {
    ghost use Rattle.std.specs.Prelude.{◌≡◌};
    ghost use Rattle.nr_capture.specs.declared.fault.PlantFault.TheVariants.{NoMemory};

    ghost from_gives = { λ _ e. e ≡ NoMemory };

    fn from(_e: AllocError) -> PlantFault {
        PlantFault::NoMemory
    }
}
