//! Kinds of values.

/// The place of a class in a program's table of classes.
pub type ClassId = u32;

/// The place of a method in a program's table of methods.
pub type MethodId = u32;

/// What a kind without dimensions is, or what the elements of an array are at last.
#[derive(Clone, Copy, Debug, PartialEq, Eq, Hash)]
pub enum Base {
    Bool,
    Byte,
    Char,
    Short,
    Int,
    Long,
    /// A class or an interface.
    Object(ClassId),
}

/// The type of a slot, a parameter or a result (JVM Specification 4.3.2), with its class in a
/// program's table; also the class of an object or an array. It is an array's where it has
/// dimensions.
#[derive(Clone, Copy, Debug, PartialEq, Eq, Hash)]
pub struct Kind {
    pub dims: u8,
    pub base: Base,
}
