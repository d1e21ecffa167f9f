//! The outside of the program: a folder of class files, a wire to peers and a sink for text, each
//! as a trait with a contract, with an implementation in memory and one over the system.
#![tactic(auto)]

mod counted;
mod fail_plan;
mod fault;
mod folder;
mod sink;
mod wire;
mod write_whole;

pub use fault::Fault;
pub use folder::{Folder, MemFolder, RealFolder, are_each_once};
pub use sink::{MemSink, Sink, StdSink};
pub use wire::event::Event;
pub use wire::{MemWire, TcpWire, Wire};

#[cfg(test)]
mod tests;
