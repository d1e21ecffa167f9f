//! The instructions of a method: its bytes are read one behind the other, each target of a branch
//! is looked up, and the first fault is told with its place (JVM Specification 4.9.1, 6.5).
#![tactic(auto)]

mod code;
mod fault;
mod instruction;
mod number;
mod operands;
mod pool;
mod raw;
mod start;
mod target;

pub use code::decode_instrs;
pub use fault::CodeFault;
pub use pool::{class_type, is_class};
pub use start::Starts;
