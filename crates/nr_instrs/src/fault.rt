//! Why the bytes of a method are no code.

ghost use Rattle.std.specs.Prelude.{◌≡◌};
ghost use Rattle.nr_instrs.specs.Faults.{of_short};
ghost use Rattle.nr_instrs.specs.declared.fault.CodeFault.TheVariants as faults;

use nr_base::Short;
use std::alloc::{AllocError, AllocFailed};

/// The first fault of a method's code. Instructions are looked at first, each as a whole, then all
/// targets of branches, then the exception handlers, then the frame maps. `at` is an instruction's
/// offset in the code; in the faults of frame maps it is an offset in the contents of
/// `StackMapTable`.
#[derive(Clone, Copy, Debug, PartialEq, Eq)]
pub enum CodeFault {
    /// The code at this offset is above 201, so of no instruction (JVM Specification 7).
    UnknownOp(u32),
    /// The instruction at this offset, of this code, isn't in the profile, or its operand isn't.
    OutOfProfile(u32, u8),
    /// The instruction at this offset, or the number of a frame map at this offset, doesn't fit in
    /// the bytes that are left.
    Short(u32),
    /// The branch at this offset has a target where no instruction starts (4.9.1).
    Target(u32, i64),
    /// The instruction at this offset names an entry of the constant pool that it can't name (6.5).
    PoolUse(u32),
    /// The table of the switch at this offset is out of order (6.5, tableswitch, lookupswitch).
    SwitchOrder(u32),
    /// The exception handler of this number, from 0, has a range, a start or a class that can't be
    /// (4.7.3).
    HandlerRange(u16),
    /// The tag at this offset is none of 4.7.4 that the profile has, or what it says can't be.
    MapTag(u32),
    /// The frame map whose tag is at this offset is for an offset where no instruction starts.
    MapOrder(u32),
    /// There was no memory to decode.
    NoMemory,
}

impl From<Short> for CodeFault {
    ghost from_gives = { λ s e. e ≡ of_short s };

    fn from(s: Short) -> CodeFault {
        CodeFault::Short(s.at)
    }
}

impl From<AllocError> for CodeFault {
    ghost from_gives = { λ _ e. e ≡ faults.NoMemory };

    fn from(_e: AllocError) -> CodeFault {
        CodeFault::NoMemory
    }
}

impl<T: Drop> From<AllocFailed<T>> for CodeFault {
    ghost from_gives = { λ _ e. e ≡ faults.NoMemory };

    fn from(_e: AllocFailed<T>) -> CodeFault {
        CodeFault::NoMemory
    }
}
