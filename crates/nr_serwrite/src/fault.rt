//! Why a graph isn't written.

ghost use Rattle.std.specs.Prelude.{◌≡◌};
ghost use Rattle.nr_serwrite.specs.declared.fault.StreamWriteFault.TheVariants as faults;

use std::alloc::{AllocError, AllocFailed};

/// Why a graph isn't written.
#[derive(Clone, Copy, Debug, PartialEq, Eq)]
pub enum StreamWriteFault {
    /// The stream would have so many bytes, more than `MAX_STREAM`.
    StreamTooLong(u64),
    /// There was no memory to write the stream.
    NoMemory,
}

impl From<AllocError> for StreamWriteFault {
    ghost from_gives = { λ _ e. e ≡ faults.NoMemory };

    fn from(_e: AllocError) -> StreamWriteFault {
        StreamWriteFault::NoMemory
    }
}

impl<T: Drop> From<AllocFailed<T>> for StreamWriteFault {
    ghost from_gives = { λ _ e. e ≡ faults.NoMemory };

    fn from(_e: AllocFailed<T>) -> StreamWriteFault {
        StreamWriteFault::NoMemory
    }
}
