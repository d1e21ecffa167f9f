//! Why bytes are no name.

ghost use Rattle.std.specs.Prelude.{◌≡◌};
ghost use Rattle.nr_base.specs.declared.name.fault.NameFault.TheVariants as faults;

use std::alloc::AllocError;

/// Why bytes are no name.
#[derive(Clone, Copy, Debug, PartialEq, Eq)]
pub enum NameFault {
    /// The character that begins at this offset isn't modified UTF-8.
    BadUtf(u32),
    /// The character that begins at this offset is U+0000.
    ZeroChar(u32),
    /// Memory ran out.
    NoMemory,
}

impl From<AllocError> for NameFault {
    ghost from_gives = { λ _ e. e ≡ faults.NoMemory };

    fn from(_e: AllocError) -> NameFault {
        NameFault::NoMemory
    }
}
