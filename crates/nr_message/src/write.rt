//! Messages, written.

mod call;
mod hello;
mod part;
mod reply;

pub use call::call_bytes;
pub use hello::hello_bytes;
pub use reply::reply_bytes;
