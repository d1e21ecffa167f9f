//! Class files: their bytes are read whole, and the first fault is told with its place (JVM
//! Specification 4).
#![tactic(auto)]

mod attribute;
mod class;
mod code;
mod fault;
mod field;
mod method;
mod pool;

pub use class::read_class;
pub use fault::ClassFault;

#[cfg(test)]
mod tests;
