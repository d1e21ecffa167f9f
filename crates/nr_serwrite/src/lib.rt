//! The writer of streams (Java Object Serialization Specification 6, in the project's profile): the one
//! canonical text of a graph.
#![tactic(auto)]

mod contents;
mod description;
mod fault;
mod fields;
mod law;
mod names;
mod nodes;
mod numbers;
mod texts;
mod work;
mod write;

pub use fault::StreamWriteFault;
pub use law::graphs_have_one_canonical_text;
pub use write::{MAX_STREAM, write_stream};
