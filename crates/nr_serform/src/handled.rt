//! What a stream gives handles to.

use nr_linked::Kind;

/// What a stream gives a handle to (Java Object Serialization Specification 6.4.2, newHandle).
#[derive(Clone, Copy, PartialEq, Eq, Hash)]
pub enum Handled<'p> {
    /// The description of a class.
    Class(Kind),
    /// A string that says a field's descriptor.
    Text(&'p [u8]),
    /// An object or an array, by its node.
    Object(u32),
}
