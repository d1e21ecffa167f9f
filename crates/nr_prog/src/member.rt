//! Fields and methods.

use nr_base::Items;

/// A field (JVM Specification 4.5).
#[derive(Clone, Copy, Debug, PartialEq, Eq)]
pub struct Field {
    /// The access flags.
    pub flags: u16,
    /// The index of its name.
    pub name: u16,
    /// The index of its descriptor.
    pub desc: u16,
    /// The index of its constant value (4.7.2), or 0 for none.
    pub constant: u16,
}

/// A method (JVM Specification 4.6).
#[derive(Debug, Drop, PartialEq, Eq)]
pub struct Method {
    /// The access flags.
    pub flags: u16,
    /// The index of its name.
    pub name: u16,
    /// The index of its descriptor.
    pub desc: u16,
    /// Its code, where it has some.
    pub code: Option<Code>,
}

/// The code of a method (JVM Specification 4.7.3).
#[derive(Debug, Drop, PartialEq, Eq)]
pub struct Code {
    /// The places of its operand stack.
    pub max_stack: u16,
    /// The places of its local variables.
    pub max_locals: u16,
    /// The instructions, not decoded.
    pub bytes: Items<u8>,
    /// The exception handlers, in their order.
    pub handlers: Items<Handler>,
    /// The contents of `StackMapTable` (4.7.4), where it is there.
    pub maps: Option<Items<u8>>,
}

/// An exception handler (JVM Specification 4.7.3, exception_table).
#[derive(Clone, Copy, Debug, PartialEq, Eq)]
pub struct Handler {
    /// Where its range begins.
    pub start: u16,
    /// Where its range ends, behind the last instruction in it.
    pub end: u16,
    /// Where it begins itself.
    pub handler: u16,
    /// The index of the class that it catches, or 0 for all.
    pub catch_type: u16,
}
