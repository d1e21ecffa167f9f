//! The machine: frames, calls, returns and throws of a program that runs (JVM Specification 2.5.2, 2.6,
//! 2.10), by turns of some steps, within the project's own limits.
#![tactic(auto)]

mod answer;
mod law;
mod machine;
mod printing;
mod stack;

pub use answer::{ResumeFault, StartFault, Turn};
pub use law::turns_tell_outcomes;
pub use machine::Machine;
