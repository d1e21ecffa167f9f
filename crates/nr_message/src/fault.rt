//! Why bytes are no message.

ghost use Rattle.std.specs.Prelude.{◌≡◌};
ghost use Rattle.nr_message.specs.Faults.{of_short};
ghost use Rattle.nr_message.specs.declared.fault.MessageFault.TheVariants as faults;

use nr_base::Short;
use std::alloc::{AllocError, AllocFailed};

/// The first fault of bytes that should be a message. Each offset is counted in bytes from the start of
/// the body.
#[derive(Clone, Copy, Debug, PartialEq, Eq)]
pub enum MessageFault {
    /// The item that begins at this offset doesn't fit in the bytes that are left. An item is a number,
    /// the digest, the printed bytes behind their length, or a name's length and bytes together.
    Short(u32),
    /// The hello or the refusal ends before this offset, and more bytes follow.
    Trailing(u32),
    /// The argument that begins at this offset has a kind that isn't 1, 2 or 3.
    ArgKind(u32),
    /// The name whose length stands at this offset isn't modified UTF-8 without U+0000.
    NameBad(u32),
    /// The budget is this number, which is 0 or above 1,000,000,000.
    BudgetBad(u64),
    /// At this offset stands an outcome above 10, or a result's kind above 3.
    Outcome(u32),
    /// There was no memory to read the message.
    NoMemory,
}

impl From<Short> for MessageFault {
    ghost from_gives = { λ s e. e ≡ of_short s };

    fn from(s: Short) -> MessageFault {
        MessageFault::Short(s.at)
    }
}

impl From<AllocError> for MessageFault {
    ghost from_gives = { λ _ e. e ≡ faults.NoMemory };

    fn from(_e: AllocError) -> MessageFault {
        MessageFault::NoMemory
    }
}

impl<T: Drop> From<AllocFailed<T>> for MessageFault {
    ghost from_gives = { λ _ e. e ≡ faults.NoMemory };

    fn from(_e: AllocFailed<T>) -> MessageFault {
        MessageFault::NoMemory
    }
}
