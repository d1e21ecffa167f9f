//! Why an instruction is not well typed.

use crate::program::VType;

/// What the rule of an instruction takes where another type was found.
#[derive(Clone, Copy, Debug, PartialEq, Eq)]
pub enum Wanted {
    /// This type, and what goes where it is wanted. `Top` stands for any operand that isn't a long.
    Type(VType),
    /// A reference of any class.
    AnyReference,
}

/// The first check of an instruction's rule that fails (JVM Specification 4.10.1.9; the names and the
/// order of the checks are the project's own).
#[derive(Clone, Copy, Debug, PartialEq, Eq)]
pub enum OpFault {
    /// The operand at this depth, or a local variable with depth 0, has another type. A depth counts
    /// operands from the top, which has depth 0, and a long as one.
    NeedsKind {
        depth: u32,
        expected: Wanted,
        found: VType,
    },
    /// There is no operand at this depth.
    StackShort(u32),
    /// The operands that the instruction leaves take more places than the method has.
    StackOver,
    /// The instruction names this local variable, which isn't below the method's number of places; of a
    /// long its second place counts too.
    LocalRange(u16),
    /// An object that isn't initialised is there where it may not be.
    NeedsInit,
    /// The return isn't the one of the method's descriptor.
    ReturnKind,
}
