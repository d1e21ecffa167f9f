//! What belongs to the types of the verifier (JVM Specification 4.10.1), which states stand in their heap,
//! and the laws of well-typed programs. The definitions are in `specs/`, and each law is the contract of a
//! function that does nothing.
#![tactic(auto)]

mod law;

pub use law::{
    answers_stand, ask_runs_go_on, ask_runs_stand, first_states_stand, frames_are_unique,
    local_answers_are_typed, premises_can_be_met, standing_needs_only_names, usable_pairs_are_kept,
    well_typed_programs_go_on,
};
