//! The reader of streams (Java Object Serialization Specification 6, in the project's profile): the graph of
//! a text, or its first fault.
#![tactic(auto)]

mod content;
mod description;
mod due;
mod fault;
mod fields;
mod items;
mod naming;
mod read;
mod slots;
mod supers;
mod work;

pub use fault::StreamFault;
pub use read::read_stream;
