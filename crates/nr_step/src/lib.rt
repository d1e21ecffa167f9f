//! What one instruction does in its frame (JVM Specification 6.5).
#![tactic(auto)]

mod arithmetic;
mod branches;
mod constants;
mod dispatch;
mod flow;
mod instructions;
mod kept;
mod moves;
mod operands;
mod references;
mod selections;
mod throws;
mod variables;

pub use dispatch::step;
pub use flow::{Flow, Told};
pub use selections::Selections;
pub use throws::throw_object;
