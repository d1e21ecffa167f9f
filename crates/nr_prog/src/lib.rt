//! Classes as values: the parts of a class file, the rules of its form (JVM Specification 4), and the
//! decoded code of methods.
#![tactic(auto)]

mod body;
mod class;
mod fault;
mod form;
mod member;
mod parts;
mod pool;
mod text;

pub use body::{Args, Body, FrameMap, Instr, Loaded, MapType};
pub use class::Class;
pub use fault::FormFault;
pub use member::{Code, Field, Handler, Method};
pub use parts::ClassParts;
pub use pool::PoolEntry;
pub use text::{MethodForm, TextForm};

#[cfg(test)]
mod tests;
