//! Why a program is refused.

ghost use Rattle.std.specs.Prelude.{◌≡◌};
ghost use Rattle.nr_verify.specs.declared.fault.MethodFault.TheVariants as methods;

use nr_base::Name;
use nr_linked::{MethodName, OpFault};
use std::alloc::AllocError;

/// The first check of a program that fails (JVM Specification 4.10.1; the names and the order of the
/// checks are the project's own), with the class and the method in whose code that is, and an offset in
/// this code.
#[derive(Debug, Drop, PartialEq, Eq)]
pub enum VerifyFault {
    /// The rule of the instruction at the offset. A method whose arguments take more places than it has
    /// local variables is refused as `LocalRange` at offset 0.
    Op(Name, MethodName, u32, OpFault),
    /// No frame map is at the offset, to which control doesn't fall through, or a branch leads.
    NoMap(Name, MethodName, u32),
    /// The frame that falls through or branches to the offset doesn't fit the frame map there.
    MapMismatch(Name, MethodName, u32),
    /// Control falls through from the last instruction, which is at the offset.
    FallsOff(Name, MethodName, u32),
    /// The instruction at the offset, or its frame, doesn't suit the exception handler of this number,
    /// whose range holds it: what it catches is no throwable, the operand stack has no place, or the frame
    /// doesn't fit the frame map of the handler, or none is there.
    HandlerMismatch(Name, MethodName, u32, u16),
    /// There was no memory to verify the program.
    NoMemory,
}

/// The first check of a method that fails.
#[derive(Clone, Copy, Debug, PartialEq, Eq)]
pub enum MethodFault {
    /// The rule of the instruction at the offset.
    Op(u16, OpFault),
    /// No frame map is at the offset.
    NoMap(u16),
    /// The frame that comes to the offset doesn't fit the frame map there.
    MapMismatch(u16),
    /// Control falls through from the last instruction, at the offset.
    FallsOff(u16),
    /// The instruction at the offset doesn't suit the exception handler of this number.
    HandlerMismatch(u16, u16),
    /// There was no memory.
    NoMemory,
}

impl From<AllocError> for MethodFault {
    ghost from_gives = { λ _ e. e ≡ methods.NoMemory };

    fn from(_: AllocError) -> Self {
        MethodFault::NoMemory
    }
}
