//! Places, readers, writers and grammars; names and descriptors. What the repository reads or writes
//! as bytes stands on this crate: `docs/READING_BYTES.md` shows how.
#![tactic(auto)]

mod cur;
mod desc;
mod items;
mod law;
mod name;
mod put;
mod result_word;
mod shared;
#[cfg(test)]
mod tests;

pub use cur::{Cur, Short};
pub use desc::{Desc, DescBase, DescFault, MethodDesc};
pub use items::Items;
pub use law::descriptors_are_names;
pub use name::{Name, NameFault};
pub use put::Put;
pub use result_word::ResultWord;
pub use shared::Shared;
