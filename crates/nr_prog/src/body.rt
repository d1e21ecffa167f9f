//! The decoded code of methods.

mod frame_map;
mod instruction;
mod loaded;
mod whole;

pub use frame_map::{FrameMap, MapType};
pub use instruction::{Args, Instr};
pub use loaded::Loaded;
pub use whole::Body;
