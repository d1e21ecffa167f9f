//! Typing of instructions, and well-typed programs (JVM Specification 4.10.1).

mod fault;
mod verified;

pub use fault::{OpFault, Wanted};
pub use verified::Verified;
