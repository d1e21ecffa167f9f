//! The typing rule of each instruction, on a frame that changes in place (JVM Specification 4.10.1.9).
#![tactic(auto)]

mod arrays;
mod calls;
mod elements;
mod error;
mod fields;
mod frame;
mod initialisers;
mod letters;
mod locals;
mod moves;
mod objects;
mod padding;
mod places;
mod plain;
mod returns;
mod rule;
mod sites;
mod store;
mod take;
mod typing;
mod uninit;

pub use elements::Elements;
pub use error::{OpError, RuleError};
pub use frame::Frame;
pub use returns::is_initialiser;
pub use typing::type_op;
