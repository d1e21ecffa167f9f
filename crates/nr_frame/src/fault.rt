//! Why a header or a piece is refused.

ghost use Rattle.std.specs.Prelude.{◌≡◌};
ghost use Rattle.nr_frame.specs.declared.fault.FeedError.TheVariants.{NoMemory};

use std::alloc::AllocError;

/// How a frame's header breaks a rule. The length is looked at first.
#[derive(Clone, Copy, Debug, PartialEq, Eq)]
pub enum FrameFault {
    /// The body has this length in bytes, above 4,194,304.
    FrameTooLong(u64),
    /// The kind has this code, which the reader's side doesn't read.
    FrameKind(u8),
}

/// Why a reader doesn't take a piece as a whole.
#[derive(Clone, Copy, Debug, PartialEq, Eq)]
pub enum FeedError {
    /// A header breaks a rule, in this piece or in an earlier one.
    Fault(FrameFault),
    /// An allocation failed. Nothing of the piece is taken.
    NoMemory,
}

impl From<AllocError> for FeedError {
    ghost from_gives = { λ _ e. e ≡ NoMemory };

    fn from(_: AllocError) -> Self {
        FeedError::NoMemory
    }
}
