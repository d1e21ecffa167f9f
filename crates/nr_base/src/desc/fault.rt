//! Why bytes are no descriptor.

ghost use Rattle.std.specs.Prelude.{◌≡◌};
ghost use Rattle.nr_base.specs.DescReading.{of_short, of_name};
ghost use Rattle.nr_base.specs.declared.desc.fault.DescFault.TheVariants as faults;

use crate::cur::Short;
use crate::name::NameFault;
use std::alloc::AllocError;

/// Why bytes are no descriptor.
#[derive(Clone, Copy, Debug, PartialEq, Eq)]
pub enum DescFault {
    /// No descriptor goes on with the byte or the character that begins at this offset, or ends there.
    BadDesc(u32),
    /// The letter at this offset is that of float or double, which the project leaves out.
    FloatDesc(u32),
    /// The parameters take so many slots, which is more than 254.
    TooManyArgs(u64),
    /// Memory ran out.
    NoMemory,
}

impl From<AllocError> for DescFault {
    ghost from_gives = { λ _ e. e ≡ faults.NoMemory };

    fn from(_e: AllocError) -> DescFault {
        DescFault::NoMemory
    }
}

impl From<Short> for DescFault {
    ghost from_gives = { λ s e. e ≡ of_short s };

    fn from(s: Short) -> DescFault {
        DescFault::BadDesc(s.at)
    }
}

impl From<NameFault> for DescFault {
    ghost from_gives = { λ n e. e ≡ of_name n };

    fn from(n: NameFault) -> DescFault {
        match n {
            NameFault::BadUtf(at) | NameFault::ZeroChar(at) => DescFault::BadDesc(at),
            NameFault::NoMemory => DescFault::NoMemory,
        }
    }
}
