//! Why there is no new object.

use std::alloc::AllocError;

/// Why a heap has got no new object or array.
#[derive(Clone, Copy, Debug, PartialEq, Eq)]
pub enum HeapFault {
    /// The heap would have so many cells, which is more than 1,048,576.
    HeapFull(u64),
    /// Memory ran out.
    NoMemory,
}

impl From<AllocError> for HeapFault {
    ghost use Rattle.std.specs.Prelude.{◌≡◌};
    ghost use Rattle.nr_heap.specs.declared.fault.HeapFault.TheVariants.{NoMemory};

    ghost from_gives = { λ _ e. e ≡ NoMemory };

    fn from(_e: AllocError) -> HeapFault {
        HeapFault::NoMemory
    }
}
