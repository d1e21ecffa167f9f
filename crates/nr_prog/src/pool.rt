//! The constant pool.

mod entries;
mod view;

pub use entries::{entry, form, number, text};
use nr_base::Items;
pub use view::Pool;

/// An entry of the constant pool (JVM Specification 4.4). Its numbers are indices of the pool, from 1.
#[derive(Debug, Drop, PartialEq, Eq)]
pub enum PoolEntry {
    /// A text in modified UTF-8 (4.4.7); only names and descriptors are looked at.
    Utf8(Items<u8>),
    /// An int (4.4.4).
    Integer(i32),
    /// A float's bits (4.4.4).
    Float(u32),
    /// A long, which takes two places (4.4.5).
    Long(i64),
    /// A double's bits, which takes two places (4.4.5).
    Double(u64),
    /// A class: the index of its name (4.4.1).
    Class(u16),
    /// A string: the index of its text (4.4.3).
    Str(u16),
    /// A field: the indices of its class, and of its name and descriptor (4.4.2).
    FieldRef(u16, u16),
    /// A method of a class: the indices of its class, and of its name and descriptor (4.4.2).
    MethodRef(u16, u16),
    /// A method of an interface: the indices of it, and of the method's name and descriptor (4.4.2).
    InterfaceMethodRef(u16, u16),
    /// The indices of a name and of a descriptor (4.4.6).
    NameAndType(u16, u16),
    /// The place after a long or a double (4.4.5).
    Unused,
}
