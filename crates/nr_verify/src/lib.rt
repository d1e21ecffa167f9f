//! The verifier: linked programs are well typed, or the first check that fails (JVM Specification 4.10.1).
#![tactic(auto)]

mod branches;
mod entry;
mod fault;
mod handlers;
mod maps;
mod method;
mod program;
mod walk;

pub use fault::VerifyFault;
pub use nr_linked::MethodName;
pub use program::verify;
