//! Classes that are made, call by call (JVM Specification 4).
#![tactic(auto)]

mod fault;
mod law;
mod maker;
mod pool;

pub use fault::MakeFault;
pub use law::calls_make_the_class;
pub use maker::ClassMaker;

#[cfg(test)]
mod tests;
