//! Frame maps (JVM Specification 4.7.4).

mod copies;
mod entry;
mod frame;
mod room;
mod types;

pub use entry::entry_locals;
pub use frame::read_frames;
pub use room::Room;
