//! The heap of the machine in code: objects and arrays in one arena of words (JVM Specification 2.5.3).
#![tactic(auto)]

mod fault;
mod form;
mod heap;
mod law;
mod place;
#[cfg(test)]
mod tests;

pub use fault::HeapFault;
pub use heap::{Heap, Mark};
pub use law::heaps_stay_typed;
