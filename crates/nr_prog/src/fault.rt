//! What the parts of a class file may break.

use std::alloc::{AllocError, AllocFailed};

/// The first rule of the form that the parts of a class file break (JVM Specification 4, and the
/// project's own profile of it).
#[derive(Clone, Copy, Debug, PartialEq, Eq)]
pub enum FormFault {
    /// The entry at this index isn't of the kind that its place or its use asks for.
    PoolKind(u16),
    /// The name at this index isn't legal.
    BadName(u16),
    /// The descriptor at this index isn't legal.
    BadDesc(u16),
    /// A field or a method of the same name and descriptor stands before the one whose name has this
    /// index.
    Doubled(u16),
    /// The method at this place, from 0, is abstract and has code, or is not and has none.
    CodePresence(u16),
    /// The method at this place, from 0, is of a form that the profile leaves out.
    OutOfProfile(u16),
    /// There was no memory for the check.
    NoMemory,
}

impl From<AllocError> for FormFault {
    ghost use Rattle.std.specs.Prelude.{◌≡◌};
    ghost use Rattle.nr_prog.specs.declared.fault.FormFault.TheVariants.{NoMemory};

    ghost from_gives = { λ _ e. e ≡ NoMemory };

    fn from(_e: AllocError) -> FormFault {
        FormFault::NoMemory
    }
}

impl<T: Drop> From<AllocFailed<T>> for FormFault {
    ghost use Rattle.std.specs.Prelude.{◌≡◌};
    ghost use Rattle.nr_prog.specs.declared.fault.FormFault.TheVariants.{NoMemory};

    ghost from_gives = { λ _ e. e ≡ NoMemory };

    fn from(_e: AllocFailed<T>) -> FormFault {
        FormFault::NoMemory
    }
}
