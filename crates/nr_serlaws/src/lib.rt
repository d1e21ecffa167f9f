//! Laws of streams of objects: what is read is spelled by the grammar (Java Object Serialization
//! Specification 6.4, in the project's profile).
#![tactic(auto)]

mod law;

pub use law::{
    canonical_texts_are_one, premises_can_be_met, what_is_read_is_spelled, what_is_spelled_is_read,
};
