//! The code of methods: bytes are decoded to instructions, exception handlers and frame maps, and
//! the first fault is told with its place (JVM Specification 4.7.3, 4.7.4, 4.9.1, 6.5).
#![tactic(auto)]

mod fault;
mod handler;
mod load;
mod maps;
mod whole;

pub use fault::LoadFault;
pub use load::load_class;
pub use nr_instrs::CodeFault;
pub use whole::decode;

#[cfg(test)]
mod tests;
