//! What a stream of objects is (Java Object Serialization Specification 6, in the project's profile):
//! the numbers and descriptions of classes, handles, and the grammar over whole texts.
#![tactic(auto)]

mod flags;
mod form;
mod forms;
mod handled;
mod handles;
mod members;
mod number;
mod order;
mod parts;
mod texts;

pub use forms::Forms;
pub use handled::Handled;
pub use handles::Handles;
pub use number::uid_of;
pub use order::{StreamSlot, stream_fields};

#[cfg(test)]
mod tests;
