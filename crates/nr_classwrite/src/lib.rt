//! Class files, written so that they are read again (JVM Specification 4).
#![tactic(auto)]

mod check;
mod fault;
mod names;
mod write;

pub use fault::{AttrName, Part, WriteFault};
pub use write::write_class;

#[cfg(test)]
mod tests;
