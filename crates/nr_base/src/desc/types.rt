//! Descriptors as values.

use crate::items::Items;
use crate::name::Name;

/// The type of a value, or of an array's elements.
#[derive(Clone, Debug, Drop, PartialEq, Eq, Hash)]
pub enum DescBase {
    Bool,
    Byte,
    Char,
    Short,
    Int,
    Long,
    /// A class, with its name in internal form.
    Object(Name),
}

/// The type of a field, a parameter or a result (JVM Specification 4.3.2). It is an array's where it
/// has dimensions.
#[derive(Clone, Debug, Drop, PartialEq, Eq, Hash)]
pub struct Desc {
    pub dims: u8,
    pub base: DescBase,
}

/// The types of a method's parameters and result (JVM Specification 4.3.3).
#[derive(Clone, Debug, Drop, PartialEq, Eq, Hash)]
pub struct MethodDesc {
    pub params: Items<Desc>,
    /// `None` where the method returns nothing.
    pub result: Option<Desc>,
}
