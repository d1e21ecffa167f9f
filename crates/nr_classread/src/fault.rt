//! Why bytes are no class file.

ghost use Rattle.std.specs.Prelude.{◌≡◌};
ghost use Rattle.nr_classread.specs.Faults.{of_form, of_short};
ghost use Rattle.nr_classread.specs.declared.fault.ClassFault.TheVariants as faults;

use nr_base::Short;
use nr_prog::FormFault;
use std::alloc::{AllocError, AllocFailed};

/// The first fault of bytes that should be a class file. Each offset is counted in bytes from the
/// start of the file.
#[derive(Clone, Copy, Debug, PartialEq, Eq)]
pub enum ClassFault {
    /// The item that begins at this offset doesn't fit in the bytes that are left. An item is a number,
    /// a run of bytes behind its length, or a Utf8's length and bytes together.
    Short(u32),
    /// The file doesn't begin with CA FE BA BE (JVM Specification 4.1).
    BadMagic,
    /// The minor and major version aren't 0 and 50 (4.1; the project reads no other).
    Version(u16, u16),
    /// At this offset stands an entry of the constant pool whose tag is none of table 4.4-A that
    /// version 50 has.
    PoolTag(u32, u8),
    /// The `Code` or `ConstantValue` at this offset has a length that isn't that of its contents (4.7.2,
    /// 4.7.3). The contents are read first.
    AttrLength(u32),
    /// At this offset stands a second `Code` of a method, `StackMapTable` of a `Code` or
    /// `ConstantValue` of a field (4.7.2 to 4.7.4). Its length and contents aren't looked at.
    DoubledAttr(u32),
    /// The class ends before this offset, and more bytes follow (4.1).
    Trailing(u32),
    /// The file is read whole, and its parts don't keep the form. The fault is never
    /// `FormFault::NoMemory`.
    Form(FormFault),
    /// There was no memory to read the class.
    NoMemory,
}

impl From<Short> for ClassFault {
    ghost from_gives = { λ s e. e ≡ of_short s };

    fn from(s: Short) -> ClassFault {
        ClassFault::Short(s.at)
    }
}

impl From<FormFault> for ClassFault {
    ghost from_gives = { λ f e. e ≡ of_form f };

    fn from(f: FormFault) -> ClassFault {
        match f {
            FormFault::NoMemory => ClassFault::NoMemory,
            f => ClassFault::Form(f),
        }
    }
}

impl From<AllocError> for ClassFault {
    ghost from_gives = { λ _ e. e ≡ faults.NoMemory };

    fn from(_e: AllocError) -> ClassFault {
        ClassFault::NoMemory
    }
}

impl<T: Drop> From<AllocFailed<T>> for ClassFault {
    ghost from_gives = { λ _ e. e ≡ faults.NoMemory };

    fn from(_e: AllocFailed<T>) -> ClassFault {
        ClassFault::NoMemory
    }
}
