//! Types of the verifier, and frames of them.

use super::kind::Kind;
use nr_base::Items;

/// The type that the verifier has of a local variable or an operand (JVM Specification 4.10.1.2),
/// without float and double.
#[derive(Clone, Copy, Debug, PartialEq, Eq)]
pub enum VType {
    /// Anything.
    Top,
    /// An int, also a boolean, a byte, a char or a short.
    Int,
    /// A long; in the local variables it takes two places, the second being `Top`.
    Long,
    /// Null alone.
    Null,
    /// `this` in an initialiser, before it is initialised.
    UninitThis,
    /// The object that the `new` at this offset makes, before it is initialised.
    Uninit(u16),
    /// A reference of this kind, or null.
    Class(Kind),
}

/// The types of a method's local variables and operands at an instruction (JVM Specification
/// 4.10.1.4).
#[derive(Debug, Drop, PartialEq, Eq)]
pub struct VFrame {
    /// The types of the local variables, from place 0 on.
    pub locals: Items<VType>,
    /// The types of the operands, the top standing last.
    pub stack: Items<VType>,
    /// Whether `this` isn't yet initialised (JVM Specification 4.10.1.4, flagThisUninit).
    pub this_uninit: bool,
}
