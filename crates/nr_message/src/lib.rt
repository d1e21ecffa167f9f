//! The messages between client and server: the bodies of the frames hello, call and reply (the
//! project's own format). Their bytes are read whole, with the first fault and its place, and written
//! so that they are read again.
#![tactic(auto)]

mod fault;
mod law;
mod message;
mod read;
mod serve_fault;
mod write;

pub use fault::MessageFault;
pub use law::{texts_are_one, texts_are_read};
pub use message::{Arg, Call, Hello, MAX_BUDGET, Reply, ReplyBody};
pub use read::{read_call, read_hello, read_reply};
pub use serve_fault::ServeFault;
pub use write::{call_bytes, hello_bytes, reply_bytes};

#[cfg(test)]
mod tests;
