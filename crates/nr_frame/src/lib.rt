//! The frames between client and server, read from a stream however it was cut into pieces. A frame is
//! the length of its body in 4 bytes, the most significant first, then its kind in 1 byte, then the body
//! (the project's own format).
#![tactic(auto)]

mod fault;
mod frame;
mod header;
mod kind;
mod law;
mod reader;
mod whole;

pub use fault::{FeedError, FrameFault};
pub use frame::{Frame, frame_bytes};
pub use header::MAX_BODY;
pub use kind::{FrameKind, Side};
pub use law::cuts_agree;
pub use reader::FrameReader;

#[cfg(test)]
mod tests;
