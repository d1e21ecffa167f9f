//! Why the bytes of a file are no class with its code.

ghost use Rattle.std.specs.Prelude.{◌≡◌};
ghost use Rattle.nr_code.specs.LoadFaults.{of_class};
ghost use Rattle.nr_code.specs.declared.fault.LoadFault.TheVariants as loads;

use nr_classread::ClassFault;
use nr_instrs::CodeFault;
use std::alloc::AllocError;

/// The first fault of bytes that should be a class file, with the code of its methods.
#[derive(Clone, Copy, Debug, PartialEq, Eq)]
pub enum LoadFault {
    /// The bytes are no class file. The fault is never `ClassFault::NoMemory`.
    Class(ClassFault),
    /// The code of the method at this place, from 0, is refused; that of those before isn't. The
    /// fault is never `CodeFault::NoMemory`.
    Code(u16, CodeFault),
    /// There was no memory to load the class.
    NoMemory,
}

impl From<ClassFault> for LoadFault {
    ghost from_gives = { λ f e. e ≡ of_class f };

    fn from(f: ClassFault) -> LoadFault {
        match f {
            ClassFault::NoMemory => LoadFault::NoMemory,
            f => LoadFault::Class(f),
        }
    }
}

impl From<AllocError> for LoadFault {
    ghost from_gives = { λ _ e. e ≡ loads.NoMemory };

    fn from(_e: AllocError) -> LoadFault {
        LoadFault::NoMemory
    }
}
