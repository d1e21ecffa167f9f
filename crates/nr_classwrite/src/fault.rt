//! Why a class has no file.

ghost use Rattle.std.specs.Prelude.{◌≡◌};
ghost use Rattle.nr_classwrite.specs.declared.fault.WriteFault.TheVariants as faults;

use std::alloc::AllocError;

/// A part of a class file that stands behind its count.
#[derive(Clone, Copy, Debug, PartialEq, Eq)]
pub enum Part {
    /// The constant pool (JVM Specification 4.1); its count is one more than its entries.
    Pool,
    /// The direct superinterfaces (4.1).
    Interfaces,
    /// The fields (4.1).
    Fields,
    /// The methods (4.1).
    Methods,
    /// The bytes of a method's instructions (4.7.3).
    Code,
    /// The exception handlers of a method (4.7.3).
    Handlers,
    /// The bytes of a `Code` attribute's contents (4.7).
    Attributes,
}

/// An attribute that is written, by its name (JVM Specification 4.7).
#[derive(Clone, Copy, Debug, PartialEq, Eq)]
pub enum AttrName {
    /// 4.7.3
    Code,
    /// 4.7.4
    StackMapTable,
    /// 4.7.2
    ConstantValue,
}

/// The first thing, in the order of the file, for which a class file has no room or no name.
#[derive(Clone, Copy, Debug, PartialEq, Eq)]
pub enum WriteFault {
    /// The part has so many items, more than its count can say.
    TooLong(Part, u64),
    /// The attribute is needed, and no Utf8 entry of the constant pool spells its name.
    NoAttrName(AttrName),
    /// There was no memory for the file.
    NoMemory,
}

impl From<AllocError> for WriteFault {
    ghost from_gives = { λ _ e. e ≡ faults.NoMemory };

    fn from(_e: AllocError) -> WriteFault {
        WriteFault::NoMemory
    }
}
