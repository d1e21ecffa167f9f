//! Messages, read from their bytes.

mod call;
mod hello;
mod part;
mod reply;

pub use call::read_call;
pub use hello::read_hello;
pub use reply::read_reply;
