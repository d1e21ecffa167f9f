//! What a turn answers, and why a machine doesn't start or go on.

use nr_linked::MethodId;
use nr_model::{Ref, Value};
use std::alloc::AllocError;

/// What a turn answers.
#[derive(Clone, Copy, Debug, PartialEq, Eq)]
pub enum Turn {
    /// All steps of the turn were made.
    Ran,
    /// The first method returned, with its result where it has one (JVM Specification 2.6.4).
    Returned(Option<Value>),
    /// The first method ended by a throw of this object (JVM Specification 2.6.5).
    Thrown(Ref),
    /// The machine stands at a call of this remote method, and goes on once that is answered.
    RemoteAsk(MethodId),
    /// The steps have reached the budget.
    BudgetSpent,
    /// The next step would lead to more than 1,024 frames, or to more than 65,536 value slots.
    TooDeep,
    /// The next step would lead to more than 1,048,576 cells.
    HeapFull,
    /// The next step would lead to more than 1,048,576 printed bytes.
    OutputTooLong,
    /// Memory ran out at the next step.
    NoMemory,
}

/// Why a machine doesn't start.
#[derive(Clone, Copy, Debug, PartialEq, Eq)]
pub enum StartFault {
    /// The first frame alone has more than 65,536 value slots.
    TooDeep,
    /// Memory ran out.
    NoMemory,
}

impl From<AllocError> for StartFault {
    ghost use Rattle.std.specs.Prelude.{◌≡◌};
    ghost use Rattle.nr_machine.specs.declared.answer.StartFault.TheVariants.{NoMemory};

    ghost from_gives = { λ _ e. e ≡ NoMemory };

    fn from(_e: AllocError) -> StartFault {
        StartFault::NoMemory
    }
}

/// Why a machine doesn't take an answer.
#[derive(Clone, Copy, Debug, PartialEq, Eq)]
pub enum ResumeFault {
    /// There would be more than 1,048,576 printed bytes.
    OutputTooLong,
    /// Memory ran out.
    NoMemory,
}

impl From<AllocError> for ResumeFault {
    ghost use Rattle.std.specs.Prelude.{◌≡◌};
    ghost use Rattle.nr_machine.specs.declared.answer.ResumeFault.TheVariants.{NoMemory};

    ghost from_gives = { λ _ e. e ≡ NoMemory };

    fn from(_e: AllocError) -> ResumeFault {
        ResumeFault::NoMemory
    }
}
