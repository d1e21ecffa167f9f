//! Frame maps.

use nr_base::{Desc, Items, Shared};

/// The type of a local variable or an operand (JVM Specification 4.7.4, verification_type_info; the
/// project leaves out float and double).
#[derive(Debug, Drop, PartialEq, Eq)]
pub enum MapType {
    Top,
    Int,
    /// A long, which is one entry.
    Long,
    Null,
    /// `this` in an initialiser, before it is initialised.
    UninitThis,
    /// The object that the `new` at this offset makes, before it is initialised.
    Uninit(u16),
    /// A class, an interface or an array. Types of one name share it.
    Object(Shared<Desc>),
}

/// The types at an offset of the code (JVM Specification 4.7.4, stack_map_frame), as a whole frame.
#[derive(Debug, Drop, PartialEq, Eq)]
pub struct FrameMap {
    /// The offset of the instruction.
    pub at: u16,
    /// The types of the local variables, a long being one entry.
    pub locals: Items<MapType>,
    /// The types of the operands, the top standing last.
    pub stack: Items<MapType>,
}
