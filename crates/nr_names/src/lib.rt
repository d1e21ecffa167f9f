//! Numbers for texts, and tables of members by the numbers of their names and descriptors: each text is
//! hashed once, and a member is found without looking at texts.
#![tactic(auto)]

mod numbers;
mod table;

pub use numbers::{listed, number, number_at, numbers_of};
pub use table::{Key, Table};
